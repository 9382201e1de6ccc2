// What a fault finds in the chip: a frame that awaits the words of a record with a copy takes them, and is in service.
ghost use Rattle.std.specs.Prelude.{◌≡◌, ◌<◌, pred};
ghost use Rattle.tables.specs.Base.{at};
ghost use Rattle.model.specs.Pages.{fresh};
ghost use Rattle.model.specs.Chip.{arrives};
ghost use Rattle.leaves.specs.Packed.{frames_in};
ghost use Rattle.chips.specs.Seen.{Awaiting, entered_take, chip_by};

use crate::place::place_of;
use leaves::cells::at;
use leaves::packed::{frame_at, put_frame};
use leaves::queue::push_front;
use leaves::words::copy_part;
use model::frame::{Frame, NONE, READING};
use model::sizes::Sizes;

// The number that an entry names.
fn named(entry: u16) -> usize
    ensures within { result < 65535 }
    ensures is { result ≡ pred entry }
{
    usize::from(entry).saturating_sub(1)
}

// The record of the page that an entry names.
pub fn record_of(addresses: &[u16], page: u16) -> usize
    ensures within { result < 65535 }
    ensures is { result ≡ pred (at addresses.now (pred page)) }
{
    named(at(addresses, named(page)))
}

// The page is newly in service: initial on, used and modified off.
fn served(frame: Frame) -> Frame
    requires { 0 < frame.page }
    ensures { result ≡ fresh (pred frame.page) }
{
    Frame {
        page: frame.page,
        used: 0,
        modified: 0,
        wired: 0,
        initial: 1,
        transfer: NONE,
    }
}

// The frame takes the copy's words and goes to the list's front, if it awaits a record that has a copy.
pub fn take_copy(
    sizes: Sizes,
    f: usize,
    frames: &mut [u64],
    frame_words: &mut [u32],
    removal_list: &mut [u16],
    addresses: &[u16],
    chip_words: &[u32],
    chip_records: &[u16],
)
    requires { Awaiting sizes f (frames_in sizes frames.old) frame_words.old removal_list.old chip_words.now chip_records.now }
    ensures frames { frames_in sizes frames.new ≡ (arrives sizes (chip_by chip_words.now chip_records.now) (entered_take (frames_in sizes frames.old) frame_words.old removal_list.old addresses.now) f (entered_take (frames_in sizes frames.old) frame_words.old removal_list.old addresses.now).memory.core).frames }
    ensures words { frame_words.new ≡ (arrives sizes (chip_by chip_words.now chip_records.now) (entered_take (frames_in sizes frames.old) frame_words.old removal_list.old addresses.now) f (entered_take (frames_in sizes frames.old) frame_words.old removal_list.old addresses.now).memory.core).words }
    ensures list { removal_list.new ≡ (arrives sizes (chip_by chip_words.now chip_records.now) (entered_take (frames_in sizes frames.old) frame_words.old removal_list.old addresses.now) f (entered_take (frames_in sizes frames.old) frame_words.old removal_list.old addresses.now).memory.core).removal_list }
{
    let old = frame_at(frames, f);
    if old.transfer != READING {
        return;
    }
    let r = record_of(addresses, old.page);
    let place = place_of(chip_records, r);
    if place < sizes.chip {
        copy_part(chip_words, place, frame_words, f, sizes.words);
        push_front(removal_list, f);
        put_frame(frames, f, served(old));
    }
}
