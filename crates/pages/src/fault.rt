// Fault: a page that is in no frame takes the first queued one.
ghost use Rattle.std.specs.Prelude.{◌≡◌, true, ◌*◌, ◌<◌, length};
ghost use Rattle.tables.specs.Questions.{first_no};
ghost use Rattle.tables.specs.Also.{◌also◌};
ghost use Rattle.model.specs.declared.event.Event.TheVariants as Event;
ghost use Rattle.model.specs.declared.event.Page.TheVariants as Page;
ghost use Rattle.model.specs.State.{page_of};
ghost use Rattle.model.specs.Pool.{taken};
ghost use Rattle.model.specs.Laws.Own.{own};
ghost use Rattle.model.specs.Refusals.{said};
ghost use Rattle.pages.specs.Seen.{entered_fault};
ghost use Rattle.leaves.specs.Asks.{slot_asked};
ghost use Rattle.leaves.specs.Packed.{frames_in, frames_given, frames_entered};
ghost use Rattle.pages.specs.Needs.{Seats, Pooled, Queued};
ghost use Rattle.pages.specs.Faults.{away_asked, supply_asked, free_left, map_left};

use crate::asks::page_of;
use crate::supply::{ask_away, ask_supply, hold, serve, way_of};
use leaves::asks::ask_slot;
use leaves::queue::{first, pop};
use model::applied::Worked;
use model::event::Answer;
use model::frame::Pool;
use model::refusals::Refusal;
use model::sizes::Sizes;

// All questions of a fault; `free` is the count of free records.
pub fn ask_fault(
    sizes: Sizes,
    in_range: bool,
    slot: usize,
    page: usize,
    frames: &[u64],
    free: u32,
    numbers: &[u32],
    active: &[u8],
    addresses: &[u16],
    free_queue: &[u16],
) -> Result<(), Refusal>
    requires { Seats sizes (frames_given sizes frames) × ((in_range ≡ true) → (slot < sizes.slots) × (page < sizes.pages)) }
    ensures { said result ≡ first_no (slot_asked in_range slot numbers.now active.now also away_asked sizes (frames_entered sizes frames) (page_of sizes slot page) also
        supply_asked (page_of sizes slot page) addresses.now free free_queue.now) }
{
    ask_slot(in_range, slot, numbers, active)?;
    let i = page_of(sizes, slot, page);
    ask_away(sizes, frames, i)?;
    ask_supply(i, free, addresses, free_queue)
}

// Result: the frame. No page is charged; the record that a page with no address takes is told.
pub fn fault(
    sizes: Sizes,
    slot: usize,
    page: usize,
    frames: &mut [u64],
    pool: Pool,
    numbers: &[u32],
    words: &mut [u32],
    free_queue: &mut [u16],
    removal_list: &mut [u16],
    addresses: &mut [u16],
    states: &mut [u8],
    owners: &mut [u8],
    free_map: &mut [u32],
    active: &[u8],
) -> Worked
    requires { Seats sizes (frames_in sizes frames.old) × Queued sizes free_queue.old removal_list.old × (length words.old ≡ sizes.frames * sizes.words) × Pooled sizes pool states.old free_map.old }
    ensures answer { result.answer ≡ (own sizes (entered_fault (frames_in sizes frames.old) pool numbers.now words.old free_queue.old removal_list.old addresses.old states.old owners.old free_map.old active.now) (Event.Page (Page.Fault slot page))).answer }
    ensures deposited { result.deposited ≡ 0 }
    ensures nulled { result.nulled ≡ 0 }
    ensures frames { frames_in sizes frames.new ≡ (own sizes (entered_fault (frames_in sizes frames.old) pool numbers.now words.old free_queue.old removal_list.old addresses.old states.old owners.old free_map.old active.now) (Event.Page (Page.Fault slot page))).left.memory.core.frames }
    ensures words { words.new ≡ (own sizes (entered_fault (frames_in sizes frames.old) pool numbers.now words.old free_queue.old removal_list.old addresses.old states.old owners.old free_map.old active.now) (Event.Page (Page.Fault slot page))).left.memory.core.words }
    ensures free_queue { free_queue.new ≡ (own sizes (entered_fault (frames_in sizes frames.old) pool numbers.now words.old free_queue.old removal_list.old addresses.old states.old owners.old free_map.old active.now) (Event.Page (Page.Fault slot page))).left.memory.core.free_queue }
    ensures removal_list { removal_list.new ≡ (own sizes (entered_fault (frames_in sizes frames.old) pool numbers.now words.old free_queue.old removal_list.old addresses.old states.old owners.old free_map.old active.now) (Event.Page (Page.Fault slot page))).left.memory.core.removal_list }
    ensures addresses { addresses.new ≡ (own sizes (entered_fault (frames_in sizes frames.old) pool numbers.now words.old free_queue.old removal_list.old addresses.old states.old owners.old free_map.old active.now) (Event.Page (Page.Fault slot page))).left.memory.held.addresses }
    ensures states { states.new ≡ (own sizes (entered_fault (frames_in sizes frames.old) pool numbers.now words.old free_queue.old removal_list.old addresses.old states.old owners.old free_map.old active.now) (Event.Page (Page.Fault slot page))).left.memory.held.states }
    ensures owners { owners.new ≡ (own sizes (entered_fault (frames_in sizes frames.old) pool numbers.now words.old free_queue.old removal_list.old addresses.old states.old owners.old free_map.old active.now) (Event.Page (Page.Fault slot page))).left.memory.held.owners }
    ensures free_map { free_map.new ≡ map_left sizes (entered_fault (frames_in sizes frames.old) pool numbers.now words.old free_queue.old removal_list.old addresses.old states.old owners.old free_map.old active.now) slot page }
    ensures hand { (taken sizes result.taken pool).hand ≡ (own sizes (entered_fault (frames_in sizes frames.old) pool numbers.now words.old free_queue.old removal_list.old addresses.old states.old owners.old free_map.old active.now) (Event.Page (Page.Fault slot page))).left.memory.held.pool.hand }
    ensures free { (taken sizes result.taken pool).free ≡ free_left sizes (entered_fault (frames_in sizes frames.old) pool numbers.now words.old free_queue.old removal_list.old addresses.old states.old owners.old free_map.old active.now) slot page }
{
    let in_range = (slot < sizes.slots) & (page < sizes.pages);
    if let Err(no) = ask_fault(
        sizes, in_range, slot, page, frames, pool.free, numbers, active, addresses, free_queue,
    ) {
        return Worked::from(no);
    }
    let i = page_of(sizes, slot, page);
    let f = first(free_queue);
    let way = way_of(i, addresses, states);
    let taken = hold(
        way, sizes, slot, i, pool, addresses, states, owners, free_map,
    );
    serve(way, sizes, i, f, frames, words, removal_list);
    pop(free_queue);
    Worked {
        taken,
        deposited: 0,
        nulled: 0,
        answer: Answer::from(Ok(f as u32)),
    }
}
