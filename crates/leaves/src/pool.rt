// The pool: the choice of a free record, by the map of one mark a record; a record taken out, and records deposited, by value.
ghost use Rattle.std.specs.Prelude.{◌≡◌, ◌*◌, ◌%◌, ◌<◌, ◌≤◌, length};
ghost use Rattle.model.specs.Parts.{by_hand};
ghost use Rattle.model.specs.Pool.{taken, deposited};
ghost use Rattle.leaves.specs.FreeMap.{told_by};

use crate::close::ahead;
use crate::search::first_mark;
use model::frame::Pool;
use model::sizes::Sizes;

// The first free record counting up from the hand; after the last comes 0.
pub fn by_hand(sizes: Sizes, map: &[u32], hand: usize) -> usize
    requires { (sizes.records ≤ 32 * length map.now) × (hand < sizes.records) × (sizes.records < 65536) }
    ensures { result ≡ by_hand sizes (told_by map.now) hand }
{
    let records = sizes.records;
    let near = hand + ahead(map, hand);
    if near < records {
        return near;
    }
    let next = hand / 32 * 32 + 64;
    if next >= records {
        return first_mark(map, 0, hand);
    }
    let high = first_mark(map, next, records);
    if high < records {
        return high;
    }
    first_mark(map, 0, hand)
}

// Record `n` - 1 is taken out, or none where `n` is 0: the hand then stands just past it, and one is free less.
pub fn take(sizes: Sizes, n: u32, pool: Pool) -> Pool
    ensures { result ≡ taken sizes n pool }
{
    if n == 0 {
        return pool;
    }
    let hand = past(sizes.records, n);
    Pool {
        hand,
        free: pool.free.saturating_sub(1),
    }
}

// After the last record comes 0.
fn past(records: usize, n: u32) -> u32
    ensures { result ≡ n % records }
{
    if records == 0 {
        return n;
    }
    (n as usize % records) as u32
}

// `n` records are given back: so many are free more, as far as 32 bits hold; the hand stays.
pub fn deposit(n: u32, pool: Pool) -> Pool
    ensures { result ≡ deposited n pool }
{
    if n == 0 {
        return pool;
    }
    Pool {
        hand: pool.hand,
        free: pool.free.saturating_add(n),
    }
}
