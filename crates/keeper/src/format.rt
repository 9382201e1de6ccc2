// Format, for firmware to link.
ghost use Rattle.std.specs.Prelude.{◌≡◌};
ghost use Rattle.model.specs.Lent.{disk_of};
ghost use Rattle.model.specs.Step.{format};

use model::event::Answer;
use model::sizes::Sizes;

// Format zeroes the disk part, and stores the parents that the caller wants.
// Shut out: two tables lent in each other's place; the limits left as they were.
#[unsafe(no_mangle)]
pub extern "C" fn keeper_format(
    sizes: Sizes,
    wanted: &[u16],
    records: &mut [u32],
    numbers: &mut [u32],
    accounts: &mut [u16],
    maps: &mut [u16],
    limits: &mut [u16],
    parents: &mut [u16],
    highest: &mut [u32],
) -> Answer
    ensures { record { answer = result; left = disk_of records.new numbers.new accounts.new maps.new limits.new parents.new highest.new }
        ≡ format sizes wanted.now (disk_of records.old numbers.old accounts.old maps.old limits.old parents.old highest.old) }
{
    Answer::from(calls::format(
        sizes, wanted, records, numbers, accounts, maps, limits, parents, highest,
    ))
}
