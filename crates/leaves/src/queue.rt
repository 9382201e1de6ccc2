// A queue of numbers in a table, of frames or of pages that wait: number f as entry f + 1, packed at the front, then zeros.
ghost use Rattle.std.specs.Prelude.{◌≡◌, IfSome, IfNone, ℕ, ◌+◌, ◌<◌, ◌≤◌, length};
ghost use Rattle.tables.specs.Base.{at};
ghost use Rattle.tables.specs.Queue.{members, times, size, first, queue, queue_of, push_back, push_front, pop, remove};
ghost use Rattle.tables.specs.Rule.{Holds, below, non};
ghost use Rattle.tables.specs.Store.{store};

use crate::cells::{at, put};

// The first place of an entry.
fn place(q: &[u16], entry: u16) -> Option<usize>
    ensures found { IfSome result (λ k. (k < length q.now) × (at q.now k ≡ entry) × ((i : ℕ) → i < k → at q.now i ≡ entry → ⊥)) }
    ensures none { IfNone result ((i : ℕ) → i < length q.now → at q.now i ≡ entry → ⊥) }
{
    // Not by the slice's iterator: its Option of a reference is laid out otherwise where pointers have 4 bytes.
    (0..q.len()).find(|k| q[*k] == entry)
}

// How many are queued.
pub fn size(q: &[u16]) -> usize
    ensures { result ≡ size q.now }
{
    place(q, 0).unwrap_or(q.len())
}

// The first one, 0 where there is none.
pub fn first(q: &[u16]) -> usize
    ensures { result ≡ first q.now }
{
    usize::from(at(q, 0)).saturating_sub(1)
}

pub fn push_back(q: &mut [u16], f: usize)
    requires { (f < 65535) × ((m : ℕ) × Holds (queue_of (length q.old) m q.old)) × (size q.old < length q.old) }
    ensures { q.new ≡ push_back q.old f }
{
    let n = size(q);
    put(q, n, (f + 1) as u16);
}

// Each entry goes one place up, from the first on.
pub fn push_front(q: &mut [u16], f: usize)
    requires { (f < 65535) × Holds (queue (length q.old) q.old) × (size q.old < length q.old) }
    ensures { q.new ≡ push_front q.old f }
{
    let mut carried = (f + 1) as u16;
    for entry in q.iter_mut() {
        carried = std::mem::replace(entry, carried);
    }
}

// The entry at j goes: each from there on takes the next one's value, the last one 0.
fn close_gap(q: &mut [u16], j: usize)
    ensures { q.new ≡ store q.old (λ k. non (below k j)) (λ k. at q.old (k + 1)) }
{
    let n = q.len();
    if j >= n {
        return;
    }
    // No std copy: it asks how far addresses are apart, which means another number on another processor.
    for k in j..n - 1 {
        q[k] = q[k + 1];
    }
    q[n - 1] = 0;
}

pub fn pop(q: &mut [u16])
    requires { (m : ℕ) × Holds (queue_of (length q.old) m q.old) }
    ensures { q.new ≡ pop q.old }
{
    close_gap(q, 0);
}

pub fn remove(q: &mut [u16], f: usize)
    requires { (f < 65535) × Holds (queue (length q.old) q.old) × (times (members q.old) f ≤ 1) }
    ensures { q.new ≡ remove q.old f }
{
    if let Some(k) = place(q, (f + 1) as u16) {
        close_gap(q, k);
    }
}

// The first one goes to the end.
pub fn rotate(q: &mut [u16])
    requires { ((m : ℕ) × Holds (queue_of (length q.old) m q.old)) × (0 < size q.old) }
    ensures { q.new ≡ push_back (pop q.old) (first q.old) }
{
    let f = first(q);
    pop(q);
    push_back(q, f);
}
