// Import, over everything that is lent.
ghost use Rattle.std.specs.Prelude.{◌≡◌};
ghost use Rattle.model.specs.Lent.{all_of};
ghost use Rattle.model.specs.Laws.Own.{leaves};
ghost use Rattle.model.specs.Calls.{frames_of};
ghost use Rattle.model.specs.Import.{import};

use calls::common::common;
use calls::packing::pack_all;
use carrying::import::{Imported, import};
use model::event::Answer;
use model::frame::{Frame, Pool};
use model::lent::{DiskTables, MemoryTables};
use model::sizes::Sizes;

// Questions 1 and 2, then the event; the frames stay as they were.
pub fn import_core(
    sizes: Sizes,
    slot: usize,
    account: usize,
    number: u32,
    lent: usize,
    frames: [Frame; 64],
    pool: Pool,
    sheet: &[u8],
    records: &mut [u32],
    numbers: &mut [u32],
    accounts: &mut [u16],
    maps: &mut [u16],
    limits: &[u16],
    parents: &[u16],
    highest: &mut [u32],
    frame_words: &[u32],
    free_queue: &[u16],
    removal_list: &[u16],
    addresses: &[u16],
    states: &mut [u8],
    owners: &mut [u8],
    free_map: &mut [u32],
    active: &[u8],
    updating: &[u8],
    images: &[u16],
    chip_words: &[u32],
    chip_records: &[u16],
    chip_next: &[u16],
    line: &[u16],
    used: &mut [u16],
) -> Imported
    ensures { leaves result.answer
        (all_of (frames_of frames lent) result.pool records.new numbers.new accounts.new maps.new limits.now parents.now highest.new
        frame_words.now free_queue.now removal_list.now addresses.now states.new owners.new free_map.new active.now updating.now images.now chip_words.now chip_records.now chip_next.now line.now used.new)
        ≡ import sizes
        (all_of (frames_of frames lent) pool records.old numbers.old accounts.old maps.old limits.now parents.now highest.old
        frame_words.now free_queue.now removal_list.now addresses.now states.old owners.old free_map.old active.now updating.now images.now chip_words.now chip_records.now chip_next.now line.now used.old) slot account number sheet.now }
{
    let packed = pack_all(frames);
    let disk = DiskTables {
        records,
        numbers,
        accounts,
        maps,
        limits,
        parents,
        highest,
    };
    let memory = MemoryTables {
        frame_words,
        free_queue,
        removal_list,
        addresses,
        states,
        owners,
        free_map,
        active,
        updating,
        images,
        chip_words,
        chip_records,
        chip_next,
        line,
        used,
    };
    if let Err(no) = common(sizes, lent, &packed, pool, disk, memory) {
        let answer = Answer::from(no);
        return Imported { pool, answer };
    }
    import(
        sizes, slot, account, number, sheet, pool, records, numbers, accounts, maps, limits,
        parents, highest, states, owners, free_map, used,
    )
}
