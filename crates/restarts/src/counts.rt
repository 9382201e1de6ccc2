// The counts of a memory in which no design is active: used counts, free map, count of free records.
ghost use Rattle.std.specs.Prelude.{◌≡◌, ◌*◌, ◌<◌, ◌≤◌, length};
ghost use Rattle.tables.specs.Base.{at};
ghost use Rattle.tables.specs.Rule.{Holds, each, below};
ghost use Rattle.model.specs.State.{free_count, map_words};
ghost use Rattle.leaves.specs.FreeMap.{free_map_table};
ghost use Rattle.restarts.specs.Counts.{listed_used};

use leaves::marks::set_mark;
use model::lines::FREE;
use model::sizes::Sizes;

// One pass over the maps: each entry above 0 counts for who pays for its slot.
pub fn count_used(pages: usize, payers: &[u16], maps: &[u16], used: &mut [u16])
    requires { (0 < pages) × (length maps.now ≤ length payers.now * pages) × (length maps.now < 65536) × Holds (each (length payers.now) (λ s. below (at payers.now s) (length used.old))) }
    ensures { used.new ≡ listed_used (length used.old) (length maps.now) pages (at payers.now) (at maps.now) }
{
    used.fill(0);
    for (i, entry) in maps.iter().enumerate() {
        if *entry != 0 {
            let q = payers[i / pages] as usize;
            used[q] += 1;
        }
    }
}

// One pass over the states: a bit and a count for each free record.
pub fn build_free_map(sizes: Sizes, states: &[u8], map: &mut [u32]) -> usize
    requires { (length states.now ≡ sizes.records) × (length map.old ≡ map_words sizes) × (sizes.records < 65536) }
    ensures count { result ≡ free_count sizes (at states.now) }
    ensures map { map.new ≡ free_map_table sizes (at states.now) }
{
    map.fill(0);
    let mut free = 0;
    for (r, state) in states.iter().enumerate() {
        if *state == FREE {
            set_mark(map, r);
            free += 1;
        }
    }
    free
}
