// Mending a pack that restart turns away: questions 1 and 24, then five passes over the disk part, one a step.
#![tactic(auto)]

ghost use Rattle.std.specs.Prelude.{◌≡◌};
ghost use Rattle.model.specs.Refusals.{answered};
ghost use Rattle.mending.specs.Mend;
ghost use Rattle.mending.specs.Steps.{lent_of};

use crate::steps::{drop_shared, empty_doubled, empty_unfilled, fit_accounts, fit_entries};
use model::lent::DiskTables;
use model::refusals::Refusal;
use model::sizes::Sizes;
use questions::question1::disk_fit;

pub mod note; // the list of changes
pub mod slot; // what a slot loses
pub mod named; // records that are named twice
pub mod steps; // the five passes

// Mends the disk part; the result is how many changes are listed.
pub fn mend(
    sizes: Sizes,
    records: &[u32],
    numbers: &mut [u32],
    accounts: &mut [u16],
    maps: &mut [u16],
    limits: &[u16],
    parents: &[u16],
    highest: &[u32],
    changes: &mut [u32],
) -> Result<u32, Refusal>
    ensures { record { answer = answered result; left = lent_of records.now numbers.new accounts.new maps.new limits.now parents.now highest.now changes.new }
        ≡ Mend.mend sizes (lent_of records.now numbers.old accounts.old maps.old limits.now parents.now highest.now changes.old) }
{
    let disk = DiskTables {
        records,
        numbers,
        accounts,
        maps,
        limits,
        parents,
        highest,
    };
    if !disk_fit(sizes, disk) {
        return Err(Refusal::NoFit);
    }
    if changes.len() < 4 * (sizes.slots * (sizes.pages + 2)) {
        return Err(Refusal::ListShort);
    }
    let first = empty_doubled(sizes, numbers, accounts, maps, changes, 0);
    let second = empty_unfilled(sizes, numbers, accounts, maps, changes, first);
    let third = fit_accounts(sizes, accounts, changes, second);
    let fourth = fit_entries(sizes, maps, changes, third);
    let fifth = drop_shared(sizes, maps, changes, fourth);
    Ok(fifth as u32)
}
