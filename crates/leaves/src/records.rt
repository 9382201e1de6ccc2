// A leaving record is given back to the free ones: its state, its slot and its bit of the free map.
ghost use Rattle.std.specs.Prelude.{◌≡◌, ◌+◌, ◌<◌, ◌≤◌, length, set};
ghost use Rattle.tables.specs.Base.{at};
ghost use Rattle.tables.specs.Rule.{some, test};
ghost use Rattle.model.specs.Lines.{FREE, LEAVING};
ghost use Rattle.model.specs.State.{free_count};
ghost use Rattle.leaves.specs.FreeMap.{free_map_table};
ghost use Rattle.leaves.specs.Freed.{MapFits, leaver_from, FreedOn, Freed};

use crate::cells::put;
use crate::marks::set_mark;
use crate::states::move_record;
use model::lines::{FREE, LEAVING};
use model::sizes::Sizes;

// A leaving record becomes a free one of no slot.
pub fn free_record(sizes: Sizes, states: &mut [u8], owners: &mut [u8], map: &mut [u32], r: usize)
    requires { (r < sizes.records) × (at states.old r ≡ LEAVING) × MapFits sizes states.old map.old }
    ensures { (states.new ≡ set states.old r FREE) × (owners.new ≡ set owners.old r 0) × (map.new ≡ free_map_table sizes (at states.new)) }
{
    set_mark(map, r);
    move_record(states, r, FREE);
    put(owners, r, 0);
}

// Whether one of the records from start up to end is a leaving one of the slot: all are looked at, so that many are compared at once.
fn any_leaving(states: &[u8], owners: &[u8], owner: u8, start: usize, end: usize) -> bool
    requires { (start ≤ end) × (end ≤ length states.now) × (end ≤ length owners.now) }
    ensures { result ≡ test (some end (leaver_from states.now owners.now owner start)) }
{
    let mut any = false;
    for r in start..end {
        any |= (states[r] == LEAVING) & (owners[r] == owner);
    }
    any
}

// The slot's leaving records from start up to end become free, as those below start did before. The result is how many.
fn free_range(
    sizes: Sizes,
    states: &mut [u8],
    owners: &mut [u8],
    map: &mut [u32],
    owner: u8,
    start: usize,
    end: usize,
) -> u32
    requires { (length owners.old ≡ sizes.records) × (sizes.records < 4097) × MapFits sizes states.old map.old × (start ≤ end) × (end ≤ sizes.records) }
    ensures { FreedOn sizes owner start end states.old owners.old map.old states.new owners.new map.new result }
{
    let mut count: u32 = 0;
    for r in start..end {
        if states[r] == LEAVING && owners[r] == owner {
            free_record(sizes, states, owners, map, r);
            count += 1;
        }
    }
    count
}

// The slot's leaving records become free, by blocks of 64, of which one with none of them is passed by one look. The result is how many: so many free records more.
pub fn free_leaving(
    sizes: Sizes,
    states: &mut [u8],
    owners: &mut [u8],
    map: &mut [u32],
    slot: usize,
) -> u32
    requires { (length owners.old ≡ sizes.records) × (sizes.records < 4097) × MapFits sizes states.old map.old }
    ensures { Freed sizes slot states.old owners.old states.new owners.new map.new (free_count sizes (at states.old) + result) }
{
    if slot > 255 {
        return 0;
    }
    let owner = slot as u8;
    let n = states.len();
    let mut count: u32 = 0;
    let mut r = 0;
    // No `for`: a step takes 64 records and a test ends it: one by one is slower (docs/BENCHMARKS.md, what was tried).
    while r < n {
        let end = (r + 64).min(n);
        if any_leaving(states, owners, owner, r, end) {
            count += free_range(sizes, states, owners, map, owner, r, end);
        }
        r = end;
    }
    count
}
