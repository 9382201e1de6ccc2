// The records that an import takes: each is filed, of the slot.
ghost use Rattle.std.specs.Prelude.{◌≡◌, suc, ◌*◌, ◌≤◌, ◌<◌, length, set};
ghost use Rattle.tables.specs.Base.{at};
ghost use Rattle.model.specs.Lines.{FILED};
ghost use Rattle.model.specs.Parts.{picked};
ghost use Rattle.leaves.specs.FreeMap.{told_by, free_map_table};
ghost use Rattle.carrying.specs.Seen.{Choice};

use leaves::cells::put;
use leaves::marks::clear_mark;
use leaves::near::nearest;
use leaves::pool::by_hand;
use leaves::states::move_record;
use model::lines::FILED;
use model::sizes::Sizes;

// The record for the next page: near the last one taken (record + 1), by the hand where there is none.
fn choose(sizes: Sizes, map: &[u32], hand: usize, last: u32) -> usize
    requires { (sizes.records ≤ 32 * length map.now) × (hand < sizes.records) × (sizes.records < 65536) × (last < 65536) }
    ensures { result ≡ picked sizes (told_by map.now) hand last }
{
    if last == 0 {
        return by_hand(sizes, map, hand);
    }
    nearest(sizes, map, last as usize - 1)
}

// A free record is taken: filed, of the slot. The result is that record + 1.
pub fn take_record(
    sizes: Sizes,
    slot: usize,
    hand: usize,
    last: u32,
    states: &mut [u8],
    owners: &mut [u8],
    map: &mut [u32],
) -> u32
    requires { (slot < 256) × Choice sizes hand last states.old map.old }
    ensures taken { result ≡ suc (picked sizes (at states.old) hand last) }
    ensures states { states.new ≡ set states.old (picked sizes (at states.old) hand last) FILED }
    ensures owners { owners.new ≡ set owners.old (picked sizes (at states.old) hand last) slot }
    ensures map { map.new ≡ free_map_table sizes (at states.new) }
{
    let taken = choose(sizes, map, hand, last);
    clear_mark(map, taken);
    move_record(states, taken, FILED);
    put(owners, taken, slot as u8);
    (taken + 1) as u32
}
