// What a slot loses: its account or the entries of its map, where they are above a most.
ghost use Rattle.std.specs.Prelude.{◌≡◌, ◌+◌, ◌*◌, ◌≤◌, ◌<◌, length};
ghost use Rattle.tables.specs.Base.{at};
ghost use Rattle.tables.specs.Rule.{below};
ghost use Rattle.mending.specs.Passes.{Lost, filled, RowGiven, RowDone, above};

use crate::note::note;

// The account of slot s becomes 0 if it is above `most`; how many changes are listed then.
pub fn account_above(
    reason: u32,
    most: u32,
    s: usize,
    pages: usize,
    accounts: &mut [u16],
    changes: &mut [u32],
    n: usize,
) -> usize
    requires { (s < length accounts.old) × (s < 65536) × (pages < 65536) × (4 * (n + filled accounts.old) ≤ length changes.old) }
    ensures { Lost (below most (at accounts.old s)) reason s pages s accounts.old accounts.new changes.old changes.new n result }
{
    let old = u32::from(accounts[s]);
    if most < old {
        accounts[s] = 0;
        return note(changes, n, s, pages, old, reason);
    }
    n
}

// Entry i, page p of slot s, becomes 0; it is not 0.
pub fn lose_entry(
    reason: u32,
    s: usize,
    p: usize,
    i: usize,
    maps: &mut [u16],
    changes: &mut [u32],
    n: usize,
) -> usize
    requires { (i < length maps.old) × (s < 65536) × (p < 65536) × (0 < at maps.old i) × (4 * (n + filled maps.old) ≤ length changes.old) }
    ensures { Lost (below 0 1) reason s p i maps.old maps.new changes.old changes.new n result }
{
    let old = u32::from(maps[i]);
    maps[i] = 0;
    note(changes, n, s, p, old, reason)
}

// The entries of slot s that are above `most` become 0.
pub fn row_above(
    reason: u32,
    most: u32,
    s: usize,
    pages: usize,
    maps: &mut [u16],
    changes: &mut [u32],
    n: usize,
) -> usize
    requires { RowGiven s pages maps.old changes.old n }
    ensures { RowDone reason s pages (above most) maps.old maps.new changes.old changes.new n result }
{
    let start = s * pages;
    let mut count = n;
    for p in 0..pages {
        if most < u32::from(maps[start + p]) {
            count = lose_entry(reason, s, p, start + p, maps, changes, count);
        }
    }
    count
}
