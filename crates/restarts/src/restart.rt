// The work of restart, from the disk part alone: every table of the memory part is set anew.
ghost use Rattle.std.specs.Prelude.{◌≡◌, length, replicate, take};
ghost use Rattle.restarts.specs.Restarts.{pool_of};
ghost use Rattle.restarts.specs.Promises.{RecordsGiven, TablesGiven, restarted_from};

use crate::counts::{build_free_map, count_used};
use crate::filed::file_records;
use crate::queue::fill_queue;
use leaves::payer::fill_payers;
use model::applied::Pooled;
use model::event::Answer;
use model::frame::{Pool, no_frames};
use model::sizes::Sizes;

// The tables that a restart zeroes.
pub fn clear_tables(
    words: &mut [u32],
    removal_list: &mut [u16],
    addresses: &mut [u16],
    active: &mut [u8],
    updating: &mut [u8],
    images: &mut [u16],
)
    ensures words { words.new ≡ replicate (length words.old) 0 }
    ensures removing { removal_list.new ≡ replicate (length removal_list.old) 0 }
    ensures addresses { addresses.new ≡ replicate (length addresses.old) 0 }
    ensures active { active.new ≡ replicate (length active.old) 0 }
    ensures updating { updating.new ≡ replicate (length updating.old) 0 }
    ensures images { images.new ≡ replicate (length images.old) 0 }
{
    words.fill(0);
    removal_list.fill(0);
    addresses.fill(0);
    active.fill(0);
    updating.fill(0);
    images.fill(0);
}

// The tables that follow from the maps; the count of free records.
pub fn restart_records(
    sizes: Sizes,
    accounts: &[u16],
    maps: &[u16],
    limits: &[u16],
    parents: &[u16],
    states: &mut [u8],
    owners: &mut [u8],
    free_map: &mut [u32],
    used: &mut [u16],
) -> usize
    requires { RecordsGiven sizes accounts.now maps.now limits.now parents.now states.old owners.old free_map.old used.old }
    ensures states { states.new ≡ (restarted_from sizes accounts maps limits parents).held.states }
    ensures owners { owners.new ≡ (restarted_from sizes accounts maps limits parents).held.owners }
    ensures free { free_map.new ≡ (restarted_from sizes accounts maps limits parents).held.free_map }
    ensures used { used.new ≡ (restarted_from sizes accounts maps limits parents).used }
    ensures pool { pool_of result ≡ (restarted_from sizes accounts maps limits parents).held.pool }
{
    let pages = sizes.pages;
    file_records(pages, maps, states, owners);
    let mut payers: [u16; Sizes::MOST_SLOTS] = [0; Sizes::MOST_SLOTS];
    fill_payers(parents, limits, accounts, &mut payers);
    count_used(pages, &payers, maps, used);
    build_free_map(sizes, states, free_map)
}

// Once questions 1 and 2 are answered yes.
pub fn restart_tables(
    sizes: Sizes,
    accounts: &[u16],
    maps: &[u16],
    limits: &[u16],
    parents: &[u16],
    words: &mut [u32],
    free_queue: &mut [u16],
    removal_list: &mut [u16],
    addresses: &mut [u16],
    states: &mut [u8],
    owners: &mut [u8],
    free_map: &mut [u32],
    active: &mut [u8],
    updating: &mut [u8],
    images: &mut [u16],
    used: &mut [u16],
) -> Pooled
    requires { TablesGiven sizes accounts.now maps.now limits.now parents.now words.old free_queue.old removal_list.old addresses.old states.old owners.old free_map.old active.old updating.old images.old used.old }
    ensures answer { result.answer ≡ record { refusal = 0; result = 0 } }
    ensures frames { take sizes.frames result.frames ≡ (restarted_from sizes accounts maps limits parents).core.frames }
    ensures words { words.new ≡ (restarted_from sizes accounts maps limits parents).core.words }
    ensures queue { free_queue.new ≡ (restarted_from sizes accounts maps limits parents).core.free_queue }
    ensures removing { removal_list.new ≡ (restarted_from sizes accounts maps limits parents).core.removal_list }
    ensures addresses { addresses.new ≡ (restarted_from sizes accounts maps limits parents).held.addresses }
    ensures states { states.new ≡ (restarted_from sizes accounts maps limits parents).held.states }
    ensures owners { owners.new ≡ (restarted_from sizes accounts maps limits parents).held.owners }
    ensures free { free_map.new ≡ (restarted_from sizes accounts maps limits parents).held.free_map }
    ensures pool { result.pool ≡ (restarted_from sizes accounts maps limits parents).held.pool }
    ensures active { active.new ≡ (restarted_from sizes accounts maps limits parents).slots.active }
    ensures updating { updating.new ≡ (restarted_from sizes accounts maps limits parents).slots.updating }
    ensures images { images.new ≡ (restarted_from sizes accounts maps limits parents).slots.images }
    ensures used { used.new ≡ (restarted_from sizes accounts maps limits parents).used }
{
    clear_tables(words, removal_list, addresses, active, updating, images);
    fill_queue(free_queue);
    let free = restart_records(
        sizes, accounts, maps, limits, parents, states, owners, free_map, used,
    );
    let frames = no_frames();
    let pool = Pool {
        hand: 0,
        free: free as u32,
    };
    let answer = Answer {
        refusal: 0,
        result: 0,
    };
    Pooled {
        frames,
        pool,
        answer,
    }
}
