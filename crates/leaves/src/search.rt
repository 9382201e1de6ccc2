// The search of a map of marks, word by word: words with no mark are passed over whole, eight at once, and inside a word one count of zeros finds the mark.
ghost use Rattle.std.specs.Prelude.{◌≡◌, suc, ◌+◌, ◌-◌, ◌*◌, ◌<◌, ◌≤◌, eqb, ltb, length};
ghost use Rattle.tables.specs.Base.{at, if, find};
ghost use Rattle.tables.specs.Bits.{bit};
ghost use Rattle.leaves.specs.Search.{first_mark, last_mark, Unmarked};

use crate::cells::all_zeros;

// The first place from `place` up whose bit is on in a word, or 32.
fn lowest(word: u32, place: usize) -> usize
    requires { place < 32 }
    ensures { result ≡ find (32 - place) (λ k. eqb (bit k word) 1) place }
{
    let rest = word >> place;
    if rest == 0 {
        return 32;
    }
    place + u32::trailing_zeros(rest) as usize
}

// How many places are passed from `place` down to one whose bit is on in a word, or all of them.
fn highest(word: u32, place: usize) -> usize
    requires { place < 32 }
    ensures { result ≡ find (suc place) (λ k. eqb (bit (place - k) word) 1) 0 }
{
    let rest = word << (31 - place);
    if rest == 0 {
        return place + 1;
    }
    u32::leading_zeros(rest) as usize
}

// Words from `from` up to `to` are passed, eight at once, as long as none of the eight has a mark; the result is where that ends.
fn eights_up(map: &[u32], from: usize, to: usize) -> usize
    requires { (from ≤ to) × (to ≤ length map.now) }
    ensures { (from ≤ result) × (result ≤ to) × Unmarked map.now from result }
{
    let mut w = from;
    // No `for`: a step takes eight words and a test ends it: one by one is slower (docs/BENCHMARKS.md, what was tried).
    while to - w >= 8 {
        if !all_zeros(map, w, 8) {
            return w;
        }
        w += 8;
    }
    w
}

// The same from `to` down to `from`.
fn eights_down(map: &[u32], from: usize, to: usize) -> usize
    requires { (from ≤ to) × (to ≤ length map.now) }
    ensures { (from ≤ result) × (result ≤ to) × Unmarked map.now result to }
{
    let mut w = to;
    // No `for`, as above.
    while w - from >= 8 {
        if !all_zeros(map, w - 8, 8) {
            return w;
        }
        w -= 8;
    }
    w
}

// The first word from `from` up to `to` with a mark, or `to`.
fn next_word(map: &[u32], from: usize, to: usize) -> usize
    requires { (from ≤ to) × (to ≤ length map.now) }
    ensures { result ≡ find (to - from) (λ w. ltb 0 (at map.now w)) from }
{
    let start = eights_up(map, from, to);
    for w in start..to {
        if map[w] != 0 {
            return w;
        }
    }
    to
}

// One past the last word from `from` up to `to` with a mark, or `from`.
fn last_word(map: &[u32], from: usize, to: usize) -> usize
    requires { (from ≤ to) × (to ≤ length map.now) }
    ensures { result ≡ to - find (to - from) (λ k. ltb 0 (at map.now (to - suc k))) 0 }
{
    let end = eights_down(map, from, to);
    for last in (from..end).rev() {
        if map[last] != 0 {
            return last + 1;
        }
    }
    from
}

// The first marked number from `from` up to `to`, or `to`.
pub fn first_mark(map: &[u32], from: usize, to: usize) -> usize
    requires { (to ≤ 32 * length map.now) × (to < 65536) }
    ensures { result ≡ first_mark map.now from to }
{
    if from >= to {
        return from;
    }
    let first = from / 32;
    let place = lowest(map[first], from % 32);
    if place < 32 {
        return (first * 32 + place).min(to);
    }
    // By div_ceil a choice of a record takes six instructions more (bench/run.py --search).
    let end = (to + 31) / 32;
    let w = next_word(map, first + 1, end);
    if w >= end {
        return to;
    }
    (w * 32 + lowest(map[w], 0)).min(to)
}

// One past the last marked number from `from` up to `to`, or `from`.
pub fn last_mark(map: &[u32], from: usize, to: usize) -> usize
    requires { (to ≤ 32 * length map.now) × (to < 65536) }
    ensures { result ≡ last_mark map.now from to }
{
    if from >= to {
        return to;
    }
    let last = (to - 1) / 32;
    let place = (to - 1) % 32;
    let passed = highest(map[last], place);
    if passed <= place {
        return (to - passed).max(from);
    }
    let first = from / 32;
    let w = last_word(map, first, last);
    if w <= first {
        return from;
    }
    (w * 32 - highest(map[w - 1], 31)).max(from)
}
