// Unwire: a page's frame goes to the removal list's end; its wired and initial switches go off.
ghost use Rattle.std.specs.Prelude.{◌≡◌};
ghost use Rattle.model.specs.declared.event.Event.TheVariants as Event;
ghost use Rattle.model.specs.declared.event.Page.TheVariants as Page;
ghost use Rattle.model.specs.Laws.Own.{own};
ghost use Rattle.model.specs.Refusals.{answered};
ghost use Rattle.leaves.specs.Packed.{frames_in};
ghost use Rattle.pages.specs.Seen.{entered_list};
ghost use Rattle.pages.specs.Needs.{Seats, RemovalList};

use crate::asks::ask_served;
use leaves::packed::{frame_at, put_frame};
use leaves::queue::push_back;
use model::refusals::Refusal;
use model::sizes::Sizes;

pub fn unwire(
    sizes: Sizes,
    slot: usize,
    page: usize,
    frames: &mut [u64],
    numbers: &[u32],
    active: &[u8],
    removal_list: &mut [u16],
) -> Result<u32, Refusal>
    requires { Seats sizes (frames_in sizes frames.old) × RemovalList sizes (frames_in sizes frames.old) removal_list.old }
    ensures answer { answered result ≡ (own sizes (entered_list (frames_in sizes frames.old) numbers.now removal_list.old active.now) (Event.Page (Page.Unwire slot page))).answer }
    ensures frames { frames_in sizes frames.new ≡ (own sizes (entered_list (frames_in sizes frames.old) numbers.now removal_list.old active.now) (Event.Page (Page.Unwire slot page))).left.memory.core.frames }
    ensures list { removal_list.new ≡ (own sizes (entered_list (frames_in sizes frames.old) numbers.now removal_list.old active.now) (Event.Page (Page.Unwire slot page))).left.memory.core.removal_list }
{
    let in_range = (slot < sizes.slots) & (page < sizes.pages);
    let f = ask_served(false, sizes, in_range, slot, page, frames, numbers, active)?;
    let mut frame = frame_at(frames, f);
    if frame.wired != 1 {
        return Err(Refusal::NotWired);
    }
    frame.wired = 0;
    frame.initial = 0;
    push_back(removal_list, f);
    put_frame(frames, f, frame);
    Ok(0)
}
