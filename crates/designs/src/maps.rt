// The questions about a slot's map and its records: each is one pass.
ghost use Rattle.std.specs.Prelude.{◌≡◌, ◌+◌, ◌*◌, ◌<◌, ◌≤◌, length};
ghost use Rattle.tables.specs.Rule.{test};
ghost use Rattle.designs.specs.Asks.{zero_map, true_map, settled_record, settled};

use leaves::addresses::live_address;
use leaves::cells::at;
use model::lines::{NULLED, RELEASED};

// Whether the slot's map is all 0.
pub fn map_zero(maps: &[u16], pages: usize, slot: usize) -> bool
    requires { slot * pages + pages < 65536 }
    ensures { result ≡ test (zero_map maps.now pages slot) }
{
    let start = slot * pages;
    for p in 0..pages {
        if at(maps, start + p) != 0 {
            return false;
        }
    }
    true
}

// Whether the slot's map is what an update now would store.
pub fn map_true(maps: &[u16], addresses: &[u16], states: &[u8], pages: usize, slot: usize) -> bool
    requires { slot * pages + pages < 65536 }
    ensures { result ≡ test (true_map maps.now addresses.now states.now pages slot) }
{
    let start = slot * pages;
    for p in 0..pages {
        let entry = at(maps, start + p);
        let live = live_address(addresses, states, start + p);
        if entry != live {
            return false;
        }
    }
    true
}

// Whether the record is not the slot's, or neither nulled nor released.
fn is_settled(state: u8, owner: u8, slot: u8) -> bool
    ensures { result ≡ test (settled_record state owner slot) }
{
    (owner != slot) | ((state != NULLED) & (state != RELEASED))
}

// Whether no record of the slot is nulled or released. All are asked, so that no branch hangs on a record.
pub fn records_settled(records: usize, states: &[u8], owners: &[u8], slot: usize) -> bool
    requires { length states.now ≤ length owners.now }
    ensures { result ≡ test (settled records states.now owners.now slot) }
{
    let Ok(own) = u8::try_from(slot) else {
        return true;
    };
    let end = records.min(states.len());
    let mut all = true;
    for r in 0..end {
        all &= is_settled(states[r], owners[r], own);
    }
    all
}
