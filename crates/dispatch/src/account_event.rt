// The events about an account.
ghost use Rattle.std.specs.Prelude.{◌≡◌};
ghost use Rattle.model.specs.declared.event.Event.TheVariants as Event;
ghost use Rattle.model.specs.Lent.{state_of};
ghost use Rattle.model.specs.Laws.Own.{own, leaves};
ghost use Rattle.model.specs.Refusals.{answered};
ghost use Rattle.leaves.specs.Packed.{frames_in};
ghost use Rattle.dispatch.specs.Kept.{Kept};

use accounts::limit::limit;
use accounts::shift::move_pages;
use model::event::Account;
use model::frame::Pool;
use model::refusals::Refusal;
use model::sizes::Sizes;

// Frames and pool stay as they were.
pub fn account_event(
    sizes: Sizes,
    event: Account,
    frames: &[u64],
    pool: Pool,
    records: &[u32],
    numbers: &[u32],
    accounts: &[u16],
    maps: &[u16],
    limits: &mut [u16],
    parents: &[u16],
    highest: &[u32],
    frame_words: &[u32],
    free_queue: &[u16],
    removal_list: &[u16],
    addresses: &[u16],
    states: &[u8],
    owners: &[u8],
    free_map: &[u32],
    active: &[u8],
    updating: &[u8],
    images: &[u16],
    used: &mut [u16],
) -> Result<u32, Refusal>
    requires { Kept sizes
        (state_of (frames_in sizes frames.now) pool records.now numbers.now accounts.now maps.now limits.old parents.now highest.now
        frame_words.now free_queue.now removal_list.now addresses.now states.now owners.now free_map.now active.now updating.now images.now used.old) }
    ensures { leaves (answered result)
        (state_of (frames_in sizes frames.now) pool records.now numbers.now accounts.now maps.now limits.new parents.now highest.now
        frame_words.now free_queue.now removal_list.now addresses.now states.now owners.now free_map.now active.now updating.now images.now used.new)
        ≡ own sizes
        (state_of (frames_in sizes frames.now) pool records.now numbers.now accounts.now maps.now limits.old parents.now highest.now
        frame_words.now free_queue.now removal_list.now addresses.now states.now owners.now free_map.now active.now updating.now images.now used.old)
        (Event.Account event) }
{
    match event {
        Account::Limit { account, pages } => limit(
            sizes, account, pages, frames, accounts, maps, limits, parents, addresses, states,
            active, used,
        ),
        Account::Move {
            giver,
            taker,
            pages,
        } => move_pages(
            sizes, giver, taker, pages, frames, accounts, maps, limits, parents, addresses, states,
            active, used,
        ),
    }
}
