// Question 2: the disk rules alone, and both sets of rules, but for those of the chip and the line.
ghost use Rattle.std.specs.Prelude.{◌≡◌, take};
ghost use Rattle.tables.specs.Rule.{◌and◌, test, Holds};
ghost use Rattle.model.specs.Sizes.{sizes_fit};
ghost use Rattle.model.specs.State.{Memory};
ghost use Rattle.model.specs.Lent.{disk_read, tables_read};
ghost use Rattle.model.specs.Rules.{disk_rules};
ghost use Rattle.model.specs.Step.{disk_lengths};
ghost use Rattle.model.specs.Laws.Apart.{tables_fit, tables_ruled};
ghost use Rattle.leaves.specs.Packed.{unpacked};

use crate::groups::RECORD_MARKS;
use leaves::payer::fill_payers;
use model::frame::Pool;
use model::lent::{DiskTables, MemoryTables};
use model::sizes::Sizes;

// The disk rules, whatever memory holds.
pub fn disk_rules(z: Sizes, disk: DiskTables<'_>) -> bool
    requires { Holds (sizes_fit z and disk_lengths z (disk_read disk)) }
    ensures { (m : Memory) → result ≡ test (disk_rules z (record { disk = disk_read disk.entry; memory = m })) }
{
    let mut listed: [u32; RECORD_MARKS] = [0; RECORD_MARKS];
    crate::groups::disk(z, disk, &mut listed)
}

// Both sets of rules, but for those of the chip and the line.
pub fn all_rules(
    z: Sizes,
    frames: &[u64],
    count: usize,
    pool: Pool,
    disk: DiskTables<'_>,
    memory: MemoryTables<'_>,
) -> bool
    requires { Holds (tables_fit z (tables_read (take count (unpacked frames.now)) pool disk memory)) }
    ensures { result ≡ test (tables_ruled z (tables_read (take count (unpacked frames.now)) pool disk.entry memory.entry)) }
{
    let mut listed: [u32; RECORD_MARKS] = [0; RECORD_MARKS];
    if !crate::groups::disk(z, disk, &mut listed) {
        return false;
    }
    let mut payers: [u16; Sizes::MOST_SLOTS] = [0; Sizes::MOST_SLOTS];
    fill_payers(disk.parents, disk.limits, disk.accounts, &mut payers);
    let mut totals: [usize; Sizes::MOST_ACCOUNTS] = [0; Sizes::MOST_ACCOUNTS];
    if !crate::groups::files(z, &mut totals, &listed, &payers, disk, memory) {
        return false;
    }
    if !crate::groups::frames(z, frames, &mut totals, &payers, disk, memory) {
        return false;
    }
    crate::groups::counts(z, pool, &totals, memory)
}
