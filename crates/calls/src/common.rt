// Questions 1 and 2 of every event and of a page look.
ghost use Rattle.std.specs.Prelude.{◌≡◌, length};
ghost use Rattle.model.specs.Lent.{all_read};
ghost use Rattle.model.specs.Calls.{frames_of};
ghost use Rattle.model.specs.Refusals.{said};
ghost use Rattle.leaves.specs.Packed.{unpacked};
ghost use Rattle.calls.specs.Common.{common};

use crate::lent::{lent_fit, lent_rules};
use model::frame::Pool;
use model::lent::{DiskTables, MemoryTables};
use model::refusals::Refusal;
use model::sizes::Sizes;

// The frames are packed, all 64.
pub fn common(
    sizes: Sizes,
    lent: usize,
    frames: &[u64],
    pool: Pool,
    disk: DiskTables<'_>,
    memory: MemoryTables<'_>,
) -> Result<(), Refusal>
    requires { length frames.now ≡ 64 }
    ensures { said result ≡ common sizes (all_read (frames_of (unpacked frames.now) lent) pool disk.entry memory.entry) }
{
    if !lent_fit(sizes, lent, disk, memory) {
        return Err(Refusal::NoFit);
    }
    if !lent_rules(sizes, frames, lent, pool, disk, memory) {
        return Err(Refusal::NoRule);
    }
    Ok(())
}
