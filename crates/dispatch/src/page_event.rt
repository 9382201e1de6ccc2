// The events about one page.
ghost use Rattle.std.specs.Prelude.{◌≡◌};
ghost use Rattle.model.specs.declared.event.Event.TheVariants as Event;
ghost use Rattle.model.specs.Lent.{state_of};
ghost use Rattle.model.specs.Laws.Own.{own, leaves};
ghost use Rattle.model.specs.Pool.{taken, deposited};
ghost use Rattle.leaves.specs.Packed.{frames_in};
ghost use Rattle.dispatch.specs.Kept.{Kept};

use crate::handed::told;
use model::applied::Worked;
use model::event::Page;
use model::frame::Pool;
use model::sizes::Sizes;
use pages::fault::fault;
use pages::read::read;
use pages::unwire::unwire;
use pages::wire::wire;
use pages::write::write;

pub fn page_event(
    sizes: Sizes,
    event: Page,
    frames: &mut [u64],
    pool: Pool,
    records: &[u32],
    numbers: &[u32],
    accounts: &[u16],
    maps: &[u16],
    limits: &[u16],
    parents: &[u16],
    highest: &[u32],
    frame_words: &mut [u32],
    free_queue: &mut [u16],
    removal_list: &mut [u16],
    addresses: &mut [u16],
    states: &mut [u8],
    owners: &mut [u8],
    free_map: &mut [u32],
    active: &[u8],
    updating: &[u8],
    images: &[u16],
    used: &mut [u16],
) -> Worked
    requires { Kept sizes
        (state_of (frames_in sizes frames.old) pool records.now numbers.now accounts.now maps.now limits.now parents.now highest.now
        frame_words.old free_queue.old removal_list.old addresses.old states.old owners.old free_map.old active.now updating.now images.now used.old) }
    ensures left { leaves result.answer
        (state_of (frames_in sizes frames.new) (deposited result.deposited (taken sizes result.taken pool)) records.now numbers.now accounts.now maps.now limits.now parents.now highest.now
        frame_words.new free_queue.new removal_list.new addresses.new states.new owners.new free_map.new active.now updating.now images.now used.new)
        ≡ own sizes
        (state_of (frames_in sizes frames.old) pool records.now numbers.now accounts.now maps.now limits.now parents.now highest.now
        frame_words.old free_queue.old removal_list.old addresses.old states.old owners.old free_map.old active.now updating.now images.now used.old)
        (Event.Page event) }
    ensures nulled { result.nulled ≡ 0 }
{
    match event {
        Page::Fault { slot, page } => fault(
            sizes,
            slot,
            page,
            frames,
            pool,
            numbers,
            frame_words,
            free_queue,
            removal_list,
            addresses,
            states,
            owners,
            free_map,
            active,
        ),
        Page::Read { slot, page, word } => told(read(
            sizes,
            slot,
            page,
            word,
            frames,
            numbers,
            active,
            frame_words,
        )),
        Page::Write {
            slot,
            page,
            word,
            value,
        } => told(write(
            sizes,
            slot,
            page,
            word,
            value,
            frames,
            numbers,
            accounts,
            limits,
            parents,
            frame_words,
            addresses,
            states,
            active,
            used,
        )),
        Page::Wire { slot, page } => {
            told(wire(sizes, slot, page, frames, numbers, active, removal_list))
        }
        Page::Unwire { slot, page } => {
            told(unwire(sizes, slot, page, frames, numbers, active, removal_list))
        }
    }
}
