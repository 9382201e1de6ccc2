// Mending, for firmware to link.
ghost use Rattle.std.specs.Prelude.{◌≡◌};
ghost use Rattle.mending.specs.Mend.{mend};
ghost use Rattle.mending.specs.Steps.{lent_of};

use model::event::Answer;
use model::sizes::Sizes;

// Mends a disk part that restart turns away, and lists what it changed: slot, page, old entry and reason, four numbers a place.
// Shut out: a record named twice that keeps its first entry; an account listed before its slot's number.
#[unsafe(no_mangle)]
pub extern "C" fn keeper_mend(
    sizes: Sizes,
    records: &[u32],
    numbers: &mut [u32],
    accounts: &mut [u16],
    maps: &mut [u16],
    limits: &[u16],
    parents: &[u16],
    highest: &[u32],
    changes: &mut [u32],
) -> Answer
    ensures { record { answer = result; left = lent_of records.now numbers.new accounts.new maps.new limits.now parents.now highest.now changes.new }
        ≡ mend sizes (lent_of records.now numbers.old accounts.old maps.old limits.now parents.now highest.now changes.old) }
{
    Answer::from(mending::mend(
        sizes, records, numbers, accounts, maps, limits, parents, highest, changes,
    ))
}
