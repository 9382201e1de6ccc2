// Export, over everything that is lent.
ghost use Rattle.std.specs.Prelude.{◌≡◌};
ghost use Rattle.model.specs.Lent.{all_read};
ghost use Rattle.model.specs.Calls.{frames_of};
ghost use Rattle.model.specs.Export.{export};
ghost use Rattle.carrying.specs.Exports.{handed};

use calls::common::common;
use calls::packing::pack_all;
use carrying::export::export;
use model::event::Answer;
use model::frame::{Frame, Pool};
use model::lent::{DiskTables, MemoryTables};
use model::sizes::Sizes;

// Questions 1 and 2, then the sheet.
pub fn export_core(
    sizes: Sizes,
    slot: usize,
    lent: usize,
    frames: [Frame; 64],
    pool: Pool,
    sheet: &mut [u8],
    disk: DiskTables<'_>,
    memory: MemoryTables<'_>,
) -> Answer
    ensures { handed result sheet.new ≡ export sizes
        (all_read (frames_of frames lent) pool disk.entry memory.entry) slot sheet.old }
{
    let packed = pack_all(frames);
    if let Err(no) = common(sizes, lent, &packed, pool, disk, memory) {
        return Answer::from(no);
    }
    let printed = export(
        sizes,
        slot,
        sheet,
        disk.records,
        disk.numbers,
        disk.maps,
        memory.active,
    );
    Answer::from(printed)
}
