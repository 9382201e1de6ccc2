// The five passes, one a step: each looks at what the earlier ones left, and lists what it changes.
ghost use Rattle.std.specs.Prelude.{◌≡◌, List, ℕ, ◌+◌, ◌*◌, ◌≤◌, ◌<◌, length};
ghost use Rattle.tables.specs.Base.{at};
ghost use Rattle.tables.specs.Rule.{Holds, below, test};
ghost use Rattle.model.specs.Rules.{fit};
ghost use Rattle.mending.specs.Passes.{Lost, packed, filled};
ghost use Rattle.mending.specs.Names.{doubled_in};
ghost use Rattle.mending.specs.Steps.{PassGiven, AccountsGiven, MapsGiven, Passed};

use crate::named::{count_names, row_shared};
use crate::note::note;
use crate::slot::{account_above, row_above};
use model::sizes::Sizes;

// A slot is filled, and its number stands in a lower one.
fn is_doubled(numbers: &[u32], s: usize) -> bool
    requires { s < length numbers.now }
    ensures { result ≡ test (doubled_in numbers.now s) }
{
    let number = numbers[s];
    if number == 0 {
        return false;
    }
    // By a loop: std's `contains` takes half as much time again.
    for other in &numbers[..s] {
        if *other == number {
            return true;
        }
    }
    false
}

// Slot s loses its number, which is not 0: as an entry is lost, but numbers have 32 bits, and its contract speaks of numbers, not of a type's values.
fn lose_number(s: usize, pages: usize, numbers: &mut [u32], changes: &mut [u32], n: usize) -> usize
    requires { (s < length numbers.old) × (s < 65536) × (pages < 65536) × (0 < at numbers.old s) × (4 * (n + filled numbers.old) ≤ length changes.old) }
    ensures { Lost (below 0 1) 1 s pages s numbers.old numbers.new changes.old changes.new n result }
{
    let old = numbers[s];
    numbers[s] = 0;
    note(changes, n, s, pages, old, 1)
}

// First, of filled slots with the same number, all but the lowest are emptied, number, account and map.
pub fn empty_doubled(
    sizes: Sizes,
    numbers: &mut [u32],
    accounts: &mut [u16],
    maps: &mut [u16],
    changes: &mut [u32],
    n: usize,
) -> usize
    requires { PassGiven sizes (packed numbers.old accounts.old maps.old) changes.old n }
    ensures { Passed sizes 0 (packed numbers.old accounts.old maps.old) (packed numbers.new accounts.new maps.new) changes.old changes.new n result }
{
    let pages = sizes.pages;
    let mut count = n;
    for s in 0..sizes.slots {
        if is_doubled(numbers, s) {
            count = lose_number(s, pages, numbers, changes, count);
            count = account_above(1, 0, s, pages, accounts, changes, count);
            count = row_above(1, 0, s, pages, maps, changes, count);
        }
    }
    count
}

// Then empty slots get account 0 and a zero map,
pub fn empty_unfilled(
    sizes: Sizes,
    numbers: &[u32],
    accounts: &mut [u16],
    maps: &mut [u16],
    changes: &mut [u32],
    n: usize,
) -> usize
    requires { PassGiven sizes (packed numbers.now accounts.old maps.old) changes.old n }
    ensures { Passed sizes 1 (packed numbers.now accounts.old maps.old) (packed numbers.now accounts.new maps.new) changes.old changes.new n result }
{
    let pages = sizes.pages;
    let mut count = n;
    for s in 0..sizes.slots {
        if numbers[s] == 0 {
            count = account_above(2, 0, s, pages, accounts, changes, count);
            count = row_above(2, 0, s, pages, maps, changes, count);
        }
    }
    count
}

// an account of Q or more becomes 0,
pub fn fit_accounts(sizes: Sizes, accounts: &mut [u16], changes: &mut [u32], n: usize) -> usize
    requires { AccountsGiven sizes accounts.old changes.old n }
    ensures { (numbers maps : List ℕ) → Passed sizes 2 (packed numbers accounts.old maps) (packed numbers accounts.new maps) changes.old changes.new n result }
{
    let most = (sizes.accounts - 1) as u32;
    let pages = sizes.pages;
    let mut count = n;
    for s in 0..sizes.slots {
        count = account_above(3, most, s, pages, accounts, changes, count);
    }
    count
}

// and an entry above R becomes 0.
pub fn fit_entries(sizes: Sizes, maps: &mut [u16], changes: &mut [u32], n: usize) -> usize
    requires { MapsGiven sizes maps.old changes.old n }
    ensures { (numbers accounts : List ℕ) → Passed sizes 3 (packed numbers accounts maps.old) (packed numbers accounts maps.new) changes.old changes.new n result }
{
    let most = sizes.records as u32;
    let pages = sizes.pages;
    let mut count = n;
    for s in 0..sizes.slots {
        count = row_above(4, most, s, pages, maps, changes, count);
    }
    count
}

// Last, a record still named twice loses all its entries.
pub fn drop_shared(sizes: Sizes, maps: &mut [u16], changes: &mut [u32], n: usize) -> usize
    requires { MapsGiven sizes maps.old changes.old n × Holds (fit (length maps.old) sizes.records (at maps.old)) }
    ensures { (numbers accounts : List ℕ) → Passed sizes 4 (packed numbers accounts maps.old) (packed numbers accounts maps.new) changes.old changes.new n result }
{
    let mut named: [u8; Sizes::MOST_RECORDS] = [0; Sizes::MOST_RECORDS];
    count_names(maps, &mut named);
    let pages = sizes.pages;
    let mut count = n;
    for s in 0..sizes.slots {
        count = row_shared(s, pages, &named, maps, changes, count);
    }
    count
}
