// The events of the waiting line, over all tables: joining it, and a turn, which treats the first request.
#![tactic(auto)]

ghost use Rattle.std.specs.Prelude.{◌≡◌};
ghost use Rattle.model.specs.declared.event.Event.TheVariants as Event;
ghost use Rattle.model.specs.Lent.{lined_of};
ghost use Rattle.model.specs.Laws.Own.{own, leaves};
ghost use Rattle.model.specs.Laws.Nulled.{nulled_by};
ghost use Rattle.model.specs.Pool.{taken, deposited};
ghost use Rattle.leaves.specs.Packed.{frames_in};
ghost use Rattle.dispatch.specs.Kept.{Kept};

use crate::join::join;
use crate::turn::turn;
use dispatch::handed::told;
use model::applied::Worked;
use model::event::Waiting;
use model::frame::Pool;
use model::sizes::Sizes;

pub mod join; // a request joins the line
pub mod turn; // the first request is treated

// Once questions 1 and 2 are answered yes.
pub fn waiting_event(
    sizes: Sizes,
    event: Waiting,
    frames: &mut [u64],
    pool: Pool,
    records: &[u32],
    numbers: &[u32],
    accounts: &[u16],
    maps: &[u16],
    limits: &[u16],
    parents: &[u16],
    highest: &[u32],
    frame_words: &mut [u32],
    free_queue: &mut [u16],
    removal_list: &mut [u16],
    addresses: &mut [u16],
    states: &mut [u8],
    owners: &mut [u8],
    free_map: &mut [u32],
    active: &[u8],
    updating: &[u8],
    images: &[u16],
    line: &mut [u16],
    used: &mut [u16],
) -> Worked
    requires { Kept sizes
        (lined_of (frames_in sizes frames.old) pool records.now numbers.now accounts.now maps.now limits.now parents.now highest.now
        frame_words.old free_queue.old removal_list.old addresses.old states.old owners.old free_map.old active.now updating.now images.now line.old used.old) }
    ensures left { leaves result.answer
        (lined_of (frames_in sizes frames.new) (deposited result.deposited (taken sizes result.taken pool)) records.now numbers.now accounts.now maps.now limits.now parents.now highest.now
        frame_words.new free_queue.new removal_list.new addresses.new states.new owners.new free_map.new active.now updating.now images.now line.new used.new)
        ≡ own sizes
        (lined_of (frames_in sizes frames.old) pool records.now numbers.now accounts.now maps.now limits.now parents.now highest.now
        frame_words.old free_queue.old removal_list.old addresses.old states.old owners.old free_map.old active.now updating.now images.now line.old used.old)
        (Event.Waiting event) }
    ensures nulled { result.nulled ≡ nulled_by sizes
        (lined_of (frames_in sizes frames.old) pool records.now numbers.now accounts.now maps.now limits.now parents.now highest.now
        frame_words.old free_queue.old removal_list.old addresses.old states.old owners.old free_map.old active.now updating.now images.now line.old used.old)
        (Event.Waiting event) }
{
    match event {
        Waiting::Join { slot, page } => told(join(sizes, slot, page, line)),
        Waiting::Turn => turn(
            sizes,
            frames,
            pool,
            records,
            numbers,
            accounts,
            maps,
            limits,
            parents,
            highest,
            frame_words,
            free_queue,
            removal_list,
            addresses,
            states,
            owners,
            free_map,
            active,
            updating,
            images,
            line,
            used,
        ),
    }
}
