// Import, for firmware to link.
ghost use Rattle.std.specs.Prelude.{◌≡◌};
ghost use Rattle.model.specs.Lent.{all_of};
ghost use Rattle.model.specs.Laws.Own.{leaves};
ghost use Rattle.model.specs.Import.{import};

use crate::frames::load;
use crate::pool::renew;
use model::event::Answer;
use model::frame::{Frame, Pool};
use model::sizes::Sizes;

// A design sheet into an empty slot: its answer, and everything lent, are the definition's. The frames are only read.
// Shut out: a call that leaves the used counts as they were; slot and account in each other's place.
#[unsafe(no_mangle)]
pub extern "C" fn keeper_import(
    sizes: Sizes,
    slot: usize,
    account: usize,
    number: u32,
    sheet: &[u8],
    frames: &[Frame],
    pool: &mut Pool,
    records: &mut [u32],
    numbers: &mut [u32],
    accounts: &mut [u16],
    maps: &mut [u16],
    limits: &[u16],
    parents: &[u16],
    highest: &mut [u32],
    frame_words: &[u32],
    free_queue: &[u16],
    removal_list: &[u16],
    addresses: &[u16],
    states: &mut [u8],
    owners: &mut [u8],
    free_map: &mut [u32],
    active: &[u8],
    updating: &[u8],
    images: &[u16],
    chip_words: &[u32],
    chip_records: &[u16],
    chip_next: &[u16],
    line: &[u16],
    used: &mut [u16],
) -> Answer
    ensures { leaves result
        (all_of frames.now pool.new records.new numbers.new accounts.new maps.new limits.now parents.now highest.new
        frame_words.now free_queue.now removal_list.now addresses.now states.new owners.new free_map.new active.now updating.now images.now chip_words.now chip_records.now chip_next.now line.now used.new)
        ≡ import sizes
        (all_of frames.now pool.old records.old numbers.old accounts.old maps.old limits.now parents.now highest.old
        frame_words.now free_queue.now removal_list.now addresses.now states.old owners.old free_map.old active.now updating.now images.now chip_words.now chip_records.now chip_next.now line.now used.old)
        slot account number sheet.now }
{
    let lent = frames.len();
    let values = load(frames);
    let copy = *pool;
    let out = sheetcalls::import::import_core(
        sizes,
        slot,
        account,
        number,
        lent,
        values,
        copy,
        sheet,
        records,
        numbers,
        accounts,
        maps,
        limits,
        parents,
        highest,
        frame_words,
        free_queue,
        removal_list,
        addresses,
        states,
        owners,
        free_map,
        active,
        updating,
        images,
        chip_words,
        chip_records,
        chip_next,
        line,
        used,
    );
    renew(pool, out.pool);
    out.answer
}
