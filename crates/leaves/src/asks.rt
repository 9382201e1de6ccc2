// The questions that begin every event about a slot, in parts: each part finds its first question that fails.
ghost use Rattle.std.specs.Prelude.{◌≡◌};
ghost use Rattle.tables.specs.Questions.{first_no};
ghost use Rattle.model.specs.Refusals.{said};
ghost use Rattle.leaves.specs.Asks.{filled_asked, slot_asked, idle_asked};

use crate::cells::at;
use model::refusals::Refusal;

// Questions 3 and 4; the caller tells the range.
pub fn ask_filled(in_range: bool, slot: usize, numbers: &[u32]) -> Result<(), Refusal>
    ensures { said result ≡ first_no (filled_asked in_range slot numbers.now) }
{
    if !in_range {
        return Err(Refusal::NoRange);
    }
    if at(numbers, slot) == 0 {
        return Err(Refusal::NoDesign);
    }
    Ok(())
}

// Questions 3, 4 and 8.
pub fn ask_slot(in_range: bool, slot: usize, numbers: &[u32], active: &[u8]) -> Result<(), Refusal>
    ensures { said result ≡ first_no (slot_asked in_range slot numbers.now active.now) }
{
    ask_filled(in_range, slot, numbers)?;
    if at(active, slot) != 1 {
        return Err(Refusal::NotActive);
    }
    Ok(())
}

// Questions 3, 4, 8 and 10.
pub fn ask_idle(
    in_range: bool,
    slot: usize,
    numbers: &[u32],
    active: &[u8],
    updating: &[u8],
) -> Result<(), Refusal>
    ensures { said result ≡ first_no (idle_asked in_range slot numbers.now active.now updating.now) }
{
    ask_slot(in_range, slot, numbers, active)?;
    if at(updating, slot) != 0 {
        return Err(Refusal::Updating);
    }
    Ok(())
}
