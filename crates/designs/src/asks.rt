// The questions about a design, in parts: each part finds its first question that fails.
ghost use Rattle.std.specs.Prelude.{◌≡◌, [], ◌<◌, ◌≤◌, length};
ghost use Rattle.tables.specs.Questions.{first_no};
ghost use Rattle.tables.specs.Rule.{test};
ghost use Rattle.model.specs.declared.event.Design.TheVariants as Design;
ghost use Rattle.model.specs.declared.event.Event.TheVariants as Event;
ghost use Rattle.model.specs.Laws.Fit.{Within};
ghost use Rattle.model.specs.Refusals.{said};
ghost use Rattle.model.specs.Questions.{questions};
ghost use Rattle.leaves.specs.Packed.{frames_entered};
ghost use Rattle.designs.specs.Asks.{new_number, held_asked};
ghost use Rattle.designs.specs.Seen.{seen_create, seen_files, seen_turns, entered_deactivate};

use crate::frames::none_framed;
use crate::maps::{map_true, map_zero, records_settled};
use leaves::asks::{ask_filled, ask_idle};
use leaves::cells::at;
use leaves::numbers::HIGH;
use model::refusals::Refusal;
use model::sizes::Sizes;

// Whether the number stands in no slot.
pub fn number_new(slots: usize, numbers: &[u32], number: u32) -> bool
    ensures { result ≡ test (new_number slots numbers.now number) }
{
    for other in &numbers[..slots.min(numbers.len())] {
        if *other == number {
            return false;
        }
    }
    // Past the table each is 0.
    number != 0 || slots <= numbers.len()
}

// Questions 3, 32, 5, 6 and 33.
pub fn ask_create(
    sizes: Sizes,
    slot: usize,
    account: usize,
    number: u32,
    numbers: &[u32],
    highest: &[u32],
) -> Result<(), Refusal>
    ensures { said result ≡ first_no (questions sizes (seen_create numbers.now [] highest.now) (Event.Design (Design.Create slot account number))) }
{
    let in_range = (slot < sizes.slots) & ((account < sizes.accounts) & (0 < number));
    if !in_range {
        return Err(Refusal::NoRange);
    }
    if number >= HIGH {
        return Err(Refusal::NumberHigh);
    }
    if at(numbers, slot) != 0 {
        return Err(Refusal::SlotFilled);
    }
    if !number_new(sizes.slots, numbers, number) {
        return Err(Refusal::NumberTaken);
    }
    if at(highest, 0) >= number {
        return Err(Refusal::NumberGiven);
    }
    Ok(())
}

// Questions 3, 4, 7 and 9.
pub fn ask_delete(
    sizes: Sizes,
    slot: usize,
    numbers: &[u32],
    maps: &[u16],
    active: &[u8],
) -> Result<(), Refusal>
    requires { Within sizes }
    ensures { said result ≡ first_no (questions sizes (seen_files numbers.now [] maps.now active.now) (Event.Design (Design.Delete slot))) }
{
    ask_filled(slot < sizes.slots, slot, numbers)?;
    if !map_zero(maps, sizes.pages, slot) {
        return Err(Refusal::MapNotEmpty);
    }
    if at(active, slot) == 1 {
        return Err(Refusal::Active);
    }
    Ok(())
}

// Questions 3, 4 and 9.
pub fn ask_activate(
    sizes: Sizes,
    slot: usize,
    numbers: &[u32],
    active: &[u8],
) -> Result<(), Refusal>
    ensures { said result ≡ first_no (questions sizes (seen_turns [] numbers.now [] [] [] [] active.now []) (Event.Design (Design.Activate slot))) }
{
    ask_filled(slot < sizes.slots, slot, numbers)?;
    if at(active, slot) == 1 {
        return Err(Refusal::Active);
    }
    Ok(())
}

// Questions 11 and 12.
pub fn ask_held(
    sizes: Sizes,
    slot: usize,
    frames: &[u64],
    maps: &[u16],
    addresses: &[u16],
    states: &[u8],
    owners: &[u8],
) -> Result<(), Refusal>
    requires { Within sizes × (slot < sizes.slots) × (length states.now ≤ length owners.now) }
    ensures { said result ≡ first_no (held_asked sizes slot (frames_entered sizes frames) maps.now addresses.now states.now owners.now) }
{
    if !none_framed(frames, sizes.frames, sizes.pages, slot) {
        return Err(Refusal::PagesIn);
    }
    if !map_true(maps, addresses, states, sizes.pages, slot) {
        return Err(Refusal::MapOld);
    }
    if !records_settled(sizes.records, states, owners, slot) {
        return Err(Refusal::MapOld);
    }
    Ok(())
}

// Questions 3, 4, 8, 10, 11 and 12.
pub fn ask_deactivate(
    sizes: Sizes,
    slot: usize,
    frames: &[u64],
    numbers: &[u32],
    maps: &[u16],
    addresses: &[u16],
    states: &[u8],
    owners: &[u8],
    active: &[u8],
    updating: &[u8],
) -> Result<(), Refusal>
    requires { Within sizes × (length states.now ≤ length owners.now) }
    ensures { said result ≡ first_no (questions sizes (entered_deactivate (frames_entered sizes frames) numbers.now maps.now addresses.now states.now owners.now active.now updating.now) (Event.Design (Design.Deactivate slot))) }
{
    ask_idle(slot < sizes.slots, slot, numbers, active, updating)?;
    ask_held(sizes, slot, frames, maps, addresses, states, owners)
}
