// Page done: a frame's read or write has ended, good or failed.
ghost use Rattle.std.specs.Prelude.{◌≡◌, set, ◌⊎◌};
ghost use Rattle.tables.specs.Base.{at};
ghost use Rattle.tables.specs.Questions.{first_no};
ghost use Rattle.model.specs.Lines.{NULLED, LIVE};
ghost use Rattle.model.specs.Laws.Own.{own};
ghost use Rattle.model.specs.Questions.{questions};
ghost use Rattle.model.specs.Refusals.{said, answered};
ghost use Rattle.leaves.specs.Packed.{frames_in};
ghost use Rattle.writeback.specs.Needs.{Queues, Transfers};
ghost use Rattle.writeback.specs.Seen.{page_done, entered_page_done, asked_page_done};

use crate::names::record_of;
use crate::switches::{served, unwritten};
use leaves::cells::at;
use leaves::packed::{frame_at, put_frame};
use leaves::queue::{push_back, push_front};
use leaves::states::move_record;
use leaves::words::copy_part;
use model::frame::{NONE, READING, no_frame};
use model::lines::{LIVE, NULLED};
use model::refusals::Refusal;
use model::sizes::Sizes;

// Questions 3 and 22.
fn ask_done(sizes: Sizes, frame: usize, good: usize, frames: &[u64]) -> Result<(), Refusal>
    ensures { said result ≡ first_no (questions sizes (asked_page_done (frames_in sizes frames.now)) (page_done frame good)) }
{
    if frame >= sizes.frames || good > 1 {
        return Err(Refusal::NoRange);
    }
    let asked = frame_at(frames, frame);
    if asked.transfer == NONE {
        return Err(Refusal::NoTransfer);
    }
    Ok(())
}

// A record that is nulled becomes live.
fn make_live(states: &mut [u8], r: usize)
    requires { (at states.old r ≡ NULLED) ⊎ (at states.old r ≡ LIVE) }
    ensures { states.new ≡ set states.old r LIVE }
{
    if at(states, r) == NULLED {
        move_record(states, r, LIVE);
    }
}

pub fn page_done(
    sizes: Sizes,
    frame: usize,
    good: usize,
    frames: &mut [u64],
    records: &mut [u32],
    words: &mut [u32],
    free_queue: &mut [u16],
    removal_list: &mut [u16],
    addresses: &[u16],
    states: &mut [u8],
) -> Result<u32, Refusal>
    requires { Queues sizes.frames free_queue.old removal_list.old
        × Transfers sizes (frames_in sizes frames.old) records.old words.old free_queue.old removal_list.old addresses.now states.old }
    ensures answer { answered result ≡ (own sizes (entered_page_done (frames_in sizes frames.old) records.old words.old free_queue.old removal_list.old addresses.now states.old) (page_done frame good)).answer }
    ensures frames { frames_in sizes frames.new ≡ (own sizes (entered_page_done (frames_in sizes frames.old) records.old words.old free_queue.old removal_list.old addresses.now states.old) (page_done frame good)).left.memory.core.frames }
    ensures records { records.new ≡ (own sizes (entered_page_done (frames_in sizes frames.old) records.old words.old free_queue.old removal_list.old addresses.now states.old) (page_done frame good)).left.disk.records }
    ensures words { words.new ≡ (own sizes (entered_page_done (frames_in sizes frames.old) records.old words.old free_queue.old removal_list.old addresses.now states.old) (page_done frame good)).left.memory.core.words }
    ensures free_queue { free_queue.new ≡ (own sizes (entered_page_done (frames_in sizes frames.old) records.old words.old free_queue.old removal_list.old addresses.now states.old) (page_done frame good)).left.memory.core.free_queue }
    ensures removal_list { removal_list.new ≡ (own sizes (entered_page_done (frames_in sizes frames.old) records.old words.old free_queue.old removal_list.old addresses.now states.old) (page_done frame good)).left.memory.core.removal_list }
    ensures states { states.new ≡ (own sizes (entered_page_done (frames_in sizes frames.old) records.old words.old free_queue.old removal_list.old addresses.now states.old) (page_done frame good)).left.memory.held.states }
{
    ask_done(sizes, frame, good, frames)?;
    let old = frame_at(frames, frame);
    let r = record_of(addresses, old.page);
    if old.transfer == READING {
        if good == 1 {
            copy_part(records, r, words, frame, sizes.words);
            push_front(removal_list, frame);
            put_frame(frames, frame, served(old));
            return Ok(0);
        }
        push_back(free_queue, frame);
        put_frame(frames, frame, no_frame());
        return Ok(0);
    }
    if good == 1 {
        copy_part(words, frame, records, r, sizes.words);
        make_live(states, r);
        push_back(free_queue, frame);
        put_frame(frames, frame, no_frame());
        return Ok(0);
    }
    push_back(removal_list, frame);
    put_frame(frames, frame, unwritten(old));
    Ok(0)
}
