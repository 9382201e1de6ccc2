// The hand, the free count, the free map and the used counts.
ghost use Rattle.std.specs.Prelude.{◌≡◌, ◌+◌, ◌*◌, ◌/◌, ◌≤◌, ◌<◌, eqb, ltb, length};
ghost use Rattle.tables.specs.Base.{at, if, count};
ghost use Rattle.tables.specs.Bits.{bits};
ghost use Rattle.tables.specs.Rule.{same, below, each, test};
ghost use Rattle.model.specs.Lines.{FREE};
ghost use Rattle.rules.specs.Passes.{live_page, free_record, free_words};

use model::lines::{FREE, LIVE};

// The hand is below R.
pub fn hand_fit(records: usize, hand: u32) -> bool
    ensures { result ≡ test (below hand records) }
{
    (hand as usize) < records
}

// 1 where the state is free.
fn free_one(state: u8) -> u32
    ensures { result ≡ if (eqb state FREE) 1 0 }
{
    u32::from(state == FREE)
}

// The count of free records.
pub fn free_count(records: usize, states: &[u8]) -> u32
    requires { (records ≤ length states.now) × (records ≤ 65536) }
    ensures { result ≡ count records (λ k. eqb (at states.now k) FREE) }
{
    let mut n: u32 = 0;
    for r in 0..records {
        n += free_one(states[r]);
    }
    n
}

// The word that tells of `count` records from `from` up which are free, from the last down.
fn free_bits(count: usize, from: usize, states: &[u8]) -> u32
    requires { (count ≤ 32) × (from + count ≤ length states.now) × (from ≤ 65536) }
    ensures { result ≡ bits count (λ r. eqb (at states.now r) FREE) from }
{
    let mut word: u32 = 0;
    for n in 0..count {
        word = free_one(states[from + (count - 1 - n)]) + 2 * word;
    }
    word
}

// The word of 32 records from `from` up: a bit is on where there is such a record and it is free.
fn free_word(records: usize, from: usize, states: &[u8]) -> u32
    requires { (records ≤ length states.now) × (from ≤ records) × (from ≤ 65536) }
    ensures { result ≡ bits 32 (free_record records states.now) from }
{
    if from + 32 <= records {
        return free_bits(32, from, states);
    }
    free_bits(records - from, from, states)
}

// Bit r % 32 of word r / 32 is on where record r is free; bits from R up are off.
pub fn free_map_ok(records: usize, n: usize, map: &[u32], states: &[u8]) -> bool
    requires { (records ≤ length states.now) × (n ≤ length map.now) × (n ≤ (records + 31) / 32) × (n ≤ 2048) }
    ensures { result ≡ test (free_words records map.now states.now n) }
{
    (0..n).all(|k| map[k] == free_word(records, 32 * k, states))
}

// 1 where a page of an active design counts as used by its address: that is live.
pub fn live_one(address: u16, states: &[u8]) -> usize
    requires { address ≤ length states.now }
    ensures { result ≡ if (test (live_page address (at states.now))) 1 0 }
{
    if address == 0 {
        return 0;
    }
    usize::from(states[address as usize - 1] == LIVE)
}

// 1 where a page of an inactive design counts as used: it is listed.
pub fn listed_one(map: u16) -> usize
    ensures { result ≡ if (ltb 0 map) 1 0 }
{
    usize::from(0 < map)
}

// Used counts equal their definition.
pub fn used_ok(accounts: usize, totals: &[usize], used: &[u16]) -> bool
    requires { (accounts ≤ length totals.now) × (accounts ≤ length used.now) }
    ensures { result ≡ test (each accounts (λ q. same (at used.now q) (at totals.now q))) }
{
    (0..accounts).all(|q| usize::from(used[q]) == totals[q])
}
