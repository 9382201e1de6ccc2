// Read: one word of a page in a frame, in service or being written; the frame's used switch goes on.
ghost use Rattle.std.specs.Prelude.{◌≡◌};
ghost use Rattle.model.specs.declared.event.Event.TheVariants as Event;
ghost use Rattle.model.specs.declared.event.Page.TheVariants as Page;
ghost use Rattle.model.specs.Laws.Own.{own};
ghost use Rattle.model.specs.Refusals.{answered};
ghost use Rattle.leaves.specs.Packed.{frames_in};
ghost use Rattle.pages.specs.Seen.{entered_words};
ghost use Rattle.pages.specs.Needs.{Seats};

use crate::asks::{ask_served, word_of};
use leaves::cells::at;
use leaves::packed::{frame_at, put_frame};
use model::refusals::Refusal;
use model::sizes::Sizes;

pub fn read(
    sizes: Sizes,
    slot: usize,
    page: usize,
    word: usize,
    frames: &mut [u64],
    numbers: &[u32],
    active: &[u8],
    words: &[u32],
) -> Result<u32, Refusal>
    requires { Seats sizes (frames_in sizes frames.old) }
    ensures answer { answered result ≡ (own sizes (entered_words (frames_in sizes frames.old) numbers.now words.now active.now) (Event.Page (Page.Read slot page word))).answer }
    ensures frames { frames_in sizes frames.new ≡ (own sizes (entered_words (frames_in sizes frames.old) numbers.now words.now active.now) (Event.Page (Page.Read slot page word))).left.memory.core.frames }
{
    let in_range = (slot < sizes.slots) & ((page < sizes.pages) & (word < sizes.words));
    let f = ask_served(true, sizes, in_range, slot, page, frames, numbers, active)?;
    let mut frame = frame_at(frames, f);
    frame.used = 1;
    put_frame(frames, f, frame);
    let k = word_of(sizes, f, word);
    Ok(at(words, k))
}
