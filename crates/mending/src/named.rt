// Records that are named twice: how often each is named, and the entries that name one of them.
ghost use Rattle.std.specs.Prelude.{◌≡◌, length};
ghost use Rattle.tables.specs.Base.{at};
ghost use Rattle.tables.specs.Rule.{Holds, each, same, test};
ghost use Rattle.model.specs.Rules.{fit};
ghost use Rattle.mending.specs.Passes.{RowGiven, RowDone, of_shared};
ghost use Rattle.mending.specs.Names.{Tally};

use crate::slot::lose_entry;
use leaves::cells::at;

// Counts how often each record is named, 2 for more; from a table of zeros.
pub fn count_names(maps: &[u16], named: &mut [u8])
    requires { Holds (fit (length maps.now) (length named.old) (at maps.now)) × Holds (each (length named.old) (λ r. same (at named.old r) 0)) }
    ensures { Tally (at maps.now) (length maps.now) (length named.old) named.new }
{
    for entry in maps {
        let e = usize::from(*entry);
        if e != 0 && named[e - 1] < 2 {
            named[e - 1] += 1;
        }
    }
}

// An entry names a record that is named twice.
fn is_shared(entry: u16, named: &[u8]) -> bool
    ensures { result ≡ test (of_shared named.now entry) }
{
    entry != 0 && at(named, usize::from(entry) - 1) == 2
}

// The entries of slot s that name a record named twice become 0. As row_above but for its test: a test passed as a function would need a contract of its own.
pub fn row_shared(
    s: usize,
    pages: usize,
    named: &[u8],
    maps: &mut [u16],
    changes: &mut [u32],
    n: usize,
) -> usize
    requires { RowGiven s pages maps.old changes.old n }
    ensures { RowDone 5 s pages (of_shared named.now) maps.old maps.new changes.old changes.new n result }
{
    let start = s * pages;
    let mut count = n;
    for p in 0..pages {
        if is_shared(maps[start + p], named) {
            count = lose_entry(5, s, p, start + p, maps, changes, count);
        }
    }
    count
}
