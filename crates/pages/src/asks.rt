// The questions about a page, in parts: each part finds its first question that fails.
ghost use Rattle.std.specs.Prelude.{true, ◌≡◌, ◌+◌, ◌*◌, ◌<◌, IfOk};
ghost use Rattle.tables.specs.Questions.{first_no};
ghost use Rattle.tables.specs.Also.{◌also◌};
ghost use Rattle.tables.specs.Rule.{test};
ghost use Rattle.model.specs.State.{page_of};
ghost use Rattle.model.specs.Laws.Fit.{Within};
ghost use Rattle.model.specs.Refusals.{said};
ghost use Rattle.leaves.specs.Asks.{slot_asked};
ghost use Rattle.leaves.specs.FrameLaws.{frame_in};
ghost use Rattle.leaves.specs.Packed.{unpacked, frames_given, frames_entered};
ghost use Rattle.pages.specs.Asks.{frame_asked, is_quiet};
ghost use Rattle.pages.specs.Needs.{Seats};

use leaves::asks::ask_slot;
use leaves::packed::{frame_at, frame_of};
use model::frame::{Frame, NONE, READING};
use model::refusals::Refusal;
use model::sizes::Sizes;

// The page's place in a table of pages.
pub fn page_of(sizes: Sizes, slot: usize, page: usize) -> usize
    requires { Within sizes × (slot < sizes.slots) × (page < sizes.pages) }
    ensures { result ≡ page_of sizes slot page }
{
    slot * sizes.pages + page
}

// The place of a frame's word in the frames' words.
pub fn word_of(sizes: Sizes, frame: usize, word: usize) -> usize
    requires { Within sizes × (frame < sizes.frames) × (word < sizes.words) }
    ensures { result ≡ frame * sizes.words + word }
{
    frame * sizes.words + word
}

// Whether question 14 lets the frame pass: for a read or a look, no read of it is under way; for the others, no transfer.
fn is_quiet(reads: bool, frame: Frame) -> bool
    ensures { result ≡ test (is_quiet reads frame) }
{
    if reads {
        frame.transfer != READING
    } else {
        frame.transfer == NONE
    }
}

// What questions 13 and 14 find; and the page's frame, or the count of frames where it is in none.
#[derive(Drop)]
pub struct Seat {
    pub asked: Result<(), Refusal>,
    pub frame: usize,
}

// Questions 13 and 14, and where the page is, refused or not; reads: of a read or a look.
pub fn ask_frame(reads: bool, sizes: Sizes, frames: &[u64], page: usize) -> Seat
    requires { Seats sizes (frames_given sizes frames) × (page < 65535) }
    ensures answer { said result.asked ≡ first_no (frame_asked reads sizes (frames_entered sizes frames) page) }
    ensures frame { result.frame ≡ frame_in sizes.frames (unpacked frames.now) page }
{
    let frame = frame_of(frames, sizes.frames, page);
    if frame >= sizes.frames {
        return Seat {
            asked: Err(Refusal::PageOut),
            frame,
        };
    }
    if !is_quiet(reads, frame_at(frames, frame)) {
        return Seat {
            asked: Err(Refusal::InTransfer),
            frame,
        };
    }
    Seat {
        asked: Ok(()),
        frame,
    }
}

// Questions 3, 4, 8, 13 and 14: those of a read, a write and a page look; reads: not of a write. All yes: the page's frame.
pub fn ask_served(
    reads: bool,
    sizes: Sizes,
    in_range: bool,
    slot: usize,
    page: usize,
    frames: &[u64],
    numbers: &[u32],
    active: &[u8],
) -> Result<usize, Refusal>
    requires { Seats sizes (frames_given sizes frames) × ((in_range ≡ true) → (slot < sizes.slots) × (page < sizes.pages)) }
    ensures answer { said result ≡ first_no (slot_asked in_range slot numbers.now active.now also frame_asked reads sizes (frames_entered sizes frames) (page_of sizes slot page)) }
    ensures given { IfOk result (λ f. (in_range ≡ true) × (f ≡ frame_in sizes.frames (unpacked frames.now) (page_of sizes slot page))
        × (frame_in sizes.frames (unpacked frames.now) (page_of sizes slot page) < sizes.frames)) }
{
    ask_slot(in_range, slot, numbers, active)?;
    let i = page_of(sizes, slot, page);
    let seat = ask_frame(reads, sizes, frames, i);
    seat.asked?;
    Ok(seat.frame)
}
