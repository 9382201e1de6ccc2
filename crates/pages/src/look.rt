// A look at a page: where the frame's own part of the frames' words starts and how many words it has; refused, an empty part.
ghost use Rattle.std.specs.Prelude.{◌≡◌, [], ◌+◌, ◌*◌, ◌≤◌};
ghost use Rattle.leaves.specs.Packed.{frames_given, frames_entered};
ghost use Rattle.pages.specs.Seen.{seen};
ghost use Rattle.pages.specs.Needs.{Seats};
ghost use Rattle.pages.specs.Looks.{placed};

use crate::asks::{ask_served, word_of};
use model::applied::Part;
use model::sizes::Sizes;

pub fn place(
    sizes: Sizes,
    slot: usize,
    page: usize,
    frames: &[u64],
    numbers: &[u32],
    active: &[u8],
) -> Part
    requires { Seats sizes (frames_given sizes frames) }
    ensures part { result ≡ placed sizes (seen (frames_entered sizes frames) numbers.now [] [] active.now) slot page }
    ensures within { result.start + result.count ≤ sizes.frames * sizes.words }
{
    let in_range = (slot < sizes.slots) & (page < sizes.pages);
    match ask_served(true, sizes, in_range, slot, page, frames, numbers, active) {
        Ok(f) => Part {
            refusal: 0,
            start: word_of(sizes, f, 0),
            count: sizes.words,
        },
        Err(no) => Part {
            refusal: no.number(),
            start: 0,
            count: 0,
        },
    }
}
