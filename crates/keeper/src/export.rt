// Export, for firmware to link.
ghost use Rattle.std.specs.Prelude.{◌≡◌};
ghost use Rattle.model.specs.Lent.{all_of};
ghost use Rattle.model.specs.Export.{export};
ghost use Rattle.carrying.specs.Exports.{handed};

use crate::frames::load;
use model::event::Answer;
use model::frame::{Frame, Pool};
use model::lent::{DiskTables, MemoryTables};
use model::sizes::Sizes;

// The design in a slot as a sheet, into a buffer: the answer and the buffer are the definition's; everything else is only read.
// Shut out: a byte after the sheet changed; a listed record of zeros printed.
#[unsafe(no_mangle)]
pub extern "C" fn keeper_export(
    sizes: Sizes,
    slot: usize,
    sheet: &mut [u8],
    frames: &[Frame],
    pool: Pool,
    records: &[u32],
    numbers: &[u32],
    accounts: &[u16],
    maps: &[u16],
    limits: &[u16],
    parents: &[u16],
    highest: &[u32],
    frame_words: &[u32],
    free_queue: &[u16],
    removal_list: &[u16],
    addresses: &[u16],
    states: &[u8],
    owners: &[u8],
    free_map: &[u32],
    active: &[u8],
    updating: &[u8],
    images: &[u16],
    chip_words: &[u32],
    chip_records: &[u16],
    chip_next: &[u16],
    line: &[u16],
    used: &[u16],
) -> Answer
    ensures { handed result sheet.new ≡ export sizes
        (all_of frames.now pool records.now numbers.now accounts.now maps.now limits.now parents.now highest.now
        frame_words.now free_queue.now removal_list.now addresses.now states.now owners.now free_map.now active.now updating.now images.now chip_words.now chip_records.now chip_next.now line.now used.now)
        slot sheet.old }
{
    let lent = frames.len();
    let values = load(frames);
    let disk = DiskTables {
        records,
        numbers,
        accounts,
        maps,
        limits,
        parents,
        highest,
    };
    let memory = MemoryTables {
        frame_words,
        free_queue,
        removal_list,
        addresses,
        states,
        owners,
        free_map,
        active,
        updating,
        images,
        chip_words,
        chip_records,
        chip_next,
        line,
        used,
    };
    sheetcalls::export::export_core(sizes, slot, lent, values, pool, sheet, disk, memory)
}
