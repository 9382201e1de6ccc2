// The marks close to a number: its word and the one before or after it, looked at as one word of 64 bits.
ghost use Rattle.std.specs.Prelude.{◌≡◌, ◌-◌, ◌*◌, ◌+◌, ◌<◌, ◌≤◌, eqb, length};
ghost use Rattle.tables.specs.Base.{if, at};
ghost use Rattle.leaves.specs.Search.{ahead, behind};

use crate::cells::at;

// What the searches give where no mark is close, as their definitions do, so that both are compared without a branch on None: more than any number of a record.
pub const NONE: usize = 65536;

// Two words as one.
fn pair(low: u32, high: u32) -> u64
    ensures { result ≡ high * 4294967296 + low }
{
    high as u64 * 4294967296 + low as u64
}

// The word before word w, or 0 before the first.
fn word_before(map: &[u32], w: usize) -> u32
    requires { w ≤ length map.now }
    ensures { result ≡ if (eqb w 0) 0 (at map.now (w - 1)) }
{
    if w == 0 {
        return 0;
    }
    map[w - 1]
}

// How many numbers are passed from one up to a mark, in its word and the next, or NONE.
pub fn ahead(map: &[u32], i: usize) -> usize
    requires { (i < 32 * length map.now) × (i < 65536) }
    ensures { result ≡ ahead map.now i }
{
    let w = i / 32;
    let rest = pair(map[w], at(map, w + 1)) >> (i % 32);
    if rest == 0 {
        return NONE;
    }
    u64::trailing_zeros(rest) as usize
}

// How many numbers are passed from one down to a mark, in its word and the one before, or NONE.
pub fn behind(map: &[u32], i: usize) -> usize
    requires { (i < 32 * length map.now) × (i < 65536) }
    ensures { result ≡ behind map.now i }
{
    let w = i / 32;
    let rest = pair(word_before(map, w), map[w]) << (31 - i % 32);
    if rest == 0 {
        return NONE;
    }
    u64::leading_zeros(rest) as usize
}
