// The words of one part, a record's or a frame's, in a table of parts of `size` words.
ghost use Rattle.std.specs.Prelude.{◌≡◌, ◌+◌, ◌*◌, ◌/◌, ◌%◌, ◌<◌, ◌≤◌, length};
ghost use Rattle.tables.specs.Base.{at};
ghost use Rattle.tables.specs.Rule.{same, each, test};
ghost use Rattle.tables.specs.Store.{store};

use crate::cells::all_zeros;

// The part's words become 0.
pub fn clear_part(words: &mut [u32], size: usize, part: usize)
    requires { (0 < size) × (part * size + size ≤ length words.old) }
    ensures { words.new ≡ store words.old (λ k. same (k / size) part) (λ k. 0) }
{
    let start = part * size;
    words[start..start + size].fill(0);
}

// The part's words become those of a part of another table.
pub fn copy_part(from: &[u32], from_part: usize, to: &mut [u32], to_part: usize, size: usize)
    requires { (0 < size) × (from_part * size + size ≤ length from.now) × (to_part * size + size ≤ length to.old) }
    ensures { to.new ≡ store to.old (λ k. same (k / size) to_part) (λ k. at from.now (from_part * size + k % size)) }
{
    let source = from_part * size;
    let start = to_part * size;
    // No std copy: it asks how far addresses are apart, which means another number on another processor.
    for w in 0..size {
        to[start + w] = from[source + w];
    }
}

// Whether all words of the part are 0: sixteen are compared at once, and the first sixteen that are not all 0 decide.
pub fn all_zero(words: &[u32], size: usize, part: usize) -> bool
    requires { part * size + size ≤ length words.now }
    ensures { result ≡ test (each size (λ w. same (at words.now (part * size + w)) 0)) }
{
    let start = part * size;
    let mut w = 0;
    // No `for`: a step takes sixteen words and a test ends it.
    while size - w >= 16 {
        if !all_zeros(words, start + w, 16) {
            return false;
        }
        w += 16;
    }
    all_zeros(words, start + w, size - w)
}
