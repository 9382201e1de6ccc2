// Marks, one bit a record or a page: every "none twice", "is at most so many" and "is it named".
ghost use Rattle.std.specs.Prelude.{◌≡◌, true, ◌+◌, ◌*◌, ◌≤◌, ◌<◌, length};
ghost use Rattle.tables.specs.Base.{at};
ghost use Rattle.tables.specs.Rule.{same, each, test, Holds};
ghost use Rattle.rules.specs.Passes.{distinct, marked, unmarked, noted};

use leaves::marks::{is_marked, set_mark};

// Marks what an entry names: false where the entry is above `most`, or what it names is marked.
pub fn mark_entry(entry: u16, most: usize, marks: &mut [u32]) -> bool
    requires { most ≤ 32 * length marks.old }
    ensures { (result ≡ test (unmarked most marks.old entry)) × (result ≡ true → marks.new ≡ noted marks.old entry) }
{
    if entry == 0 {
        return true;
    }
    let e = entry as usize;
    if most < e {
        return false;
    }
    if is_marked(marks, e - 1) {
        return false;
    }
    set_mark(marks, e - 1);
    true
}

// How many entries from i up are passed over at once: they name nothing.
fn zeros_from(entries: &[u16], i: usize, n: usize) -> usize
    requires { (n ≡ length entries.now) × (i < n) × (at entries.now i ≡ 0) }
    ensures { (0 < result) × (i + result ≤ n) × Holds (each result (λ k. same (at entries.now (i + k)) 0)) }
{
    if n - i < 8 {
        return 1;
    }
    if (entries[i + 1] == 0)
        & (entries[i + 2] == 0)
        & (entries[i + 3] == 0)
        & (entries[i + 4] == 0)
        & (entries[i + 5] == 0)
        & (entries[i + 6] == 0)
        & (entries[i + 7] == 0)
    {
        return 8;
    }
    1
}

// Marks what the entries name, from marks that are off: false where an entry is above `most`, or two name the same.
pub fn mark_all(entries: &[u16], most: usize, marks: &mut [u32]) -> bool
    requires { (most ≤ 32 * length marks.old) × Holds (each (length marks.old) (λ k. same (at marks.old k) 0)) }
    ensures { (result ≡ test (distinct (length entries.now) most (at entries.now))) × (result ≡ true → Holds (marked most (length entries.now) (at entries.now) marks.new)) }
{
    let n = entries.len();
    let mut i = 0;
    // a turn passes over one entry, or over eight that name nothing
    // No `for`: how far a step goes is told by what it finds.
    while i < n {
        let e = entries[i];
        if e == 0 {
            i += zeros_from(entries, i, n);
            continue;
        }
        if !mark_entry(e, most, marks) {
            return false;
        }
        i += 1;
    }
    true
}
