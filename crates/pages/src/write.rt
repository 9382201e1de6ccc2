// Write: one word of a page in a frame takes a value; the frame's used and modified switches go on. A page's first write is charged.
ghost use Rattle.std.specs.Prelude.{◌≡◌};
ghost use Rattle.model.specs.Laws.Own.{own};
ghost use Rattle.model.specs.Refusals.{answered};
ghost use Rattle.leaves.specs.Packed.{frames_in};
ghost use Rattle.pages.specs.Seen.{entered_write};
ghost use Rattle.pages.specs.Needs.{Seats};
ghost use Rattle.pages.specs.Writes.{writing, used_left};

use crate::asks::{ask_served, page_of, word_of};
use crate::charges::{is_charged, pay};
use leaves::cells::put;
use leaves::packed::{frame_at, put_frame};
use model::refusals::Refusal;
use model::sizes::Sizes;

pub fn write(
    sizes: Sizes,
    slot: usize,
    page: usize,
    word: usize,
    value: u32,
    frames: &mut [u64],
    numbers: &[u32],
    accounts: &[u16],
    limits: &[u16],
    parents: &[u16],
    words: &mut [u32],
    addresses: &[u16],
    states: &[u8],
    active: &[u8],
    used: &mut [u16],
) -> Result<u32, Refusal>
    requires { Seats sizes (frames_in sizes frames.old) }
    ensures answer { answered result ≡ (own sizes (entered_write (frames_in sizes frames.old) numbers.now accounts.now limits.now parents.now words.old addresses.now states.now active.now used.old) (writing slot page word value)).answer }
    ensures frames { frames_in sizes frames.new ≡ (own sizes (entered_write (frames_in sizes frames.old) numbers.now accounts.now limits.now parents.now words.old addresses.now states.now active.now used.old) (writing slot page word value)).left.memory.core.frames }
    ensures words { words.new ≡ (own sizes (entered_write (frames_in sizes frames.old) numbers.now accounts.now limits.now parents.now words.old addresses.now states.now active.now used.old) (writing slot page word value)).left.memory.core.words }
    ensures used { used.new ≡ used_left sizes (entered_write (frames_in sizes frames.old) numbers.now accounts.now limits.now parents.now words.old addresses.now states.now active.now used.old) slot page word value }
{
    let in_range = (slot < sizes.slots) & ((page < sizes.pages) & (word < sizes.words));
    let f = ask_served(false, sizes, in_range, slot, page, frames, numbers, active)?;
    let mut frame = frame_at(frames, f);
    let i = page_of(sizes, slot, page);
    let charged = is_charged(i, frame.modified, addresses, states);
    if !pay(charged, slot, accounts, limits, parents, used) {
        return Err(Refusal::AtLimit);
    }
    frame.used = 1;
    frame.modified = 1;
    put_frame(frames, f, frame);
    let k = word_of(sizes, f, word);
    put(words, k, value);
    Ok(0)
}
