// The records by the maps: listed ones filed under their slot, others free.
ghost use Rattle.std.specs.Prelude.{◌≡◌, ◌*◌, ◌<◌, ◌≤◌, length};
ghost use Rattle.tables.specs.Base.{at};
ghost use Rattle.tables.specs.Rule.{Holds};
ghost use Rattle.model.specs.Sizes.{most_slots};
ghost use Rattle.model.specs.Rules.{fit, once};
ghost use Rattle.restarts.specs.Filed.{filed_states, filed_owners};

use model::lines::FILED;

// One pass over the maps; no record is listed twice.
pub fn file_records(pages: usize, maps: &[u16], states: &mut [u8], owners: &mut [u8])
    requires { (0 < pages) × (length maps.now ≤ most_slots * pages) × (length owners.old ≡ length states.old) × Holds (fit (length maps.now) (length states.old) (at maps.now)) × Holds (once (length maps.now) (at maps.now)) }
    ensures states { states.new ≡ filed_states (length states.old) (length maps.now) (at maps.now) }
    ensures owners { owners.new ≡ filed_owners (length states.old) (length maps.now) pages (at maps.now) }
{
    states.fill(0);
    owners.fill(0);
    for (i, entry) in maps.iter().enumerate() {
        let entry = *entry as usize;
        if entry != 0 {
            states[entry - 1] = FILED;
            owners[entry - 1] = (i / pages) as u8;
        }
    }
}
