// Restart, for firmware to link.
ghost use Rattle.std.specs.Prelude.{◌≡◌};
ghost use Rattle.model.specs.Lent.{all_of};
ghost use Rattle.model.specs.Laws.Own.{leaves};
ghost use Rattle.model.specs.Step.{restart};

use crate::frames::{load, save};
use crate::pool::renew;
use model::event::Answer;
use model::frame::{Frame, Pool};
use model::sizes::Sizes;

// Restart, from the disk part alone: memory may hold anything. Its one store to the disk part is the highest number.
// Shut out: a restart that leaves the frames as it finds them; one that leaves the hand where it was.
#[unsafe(no_mangle)]
pub extern "C" fn keeper_restart(
    sizes: Sizes,
    frames: &mut [Frame],
    pool: &mut Pool,
    records: &[u32],
    numbers: &[u32],
    accounts: &[u16],
    maps: &[u16],
    limits: &[u16],
    parents: &[u16],
    highest: &mut [u32],
    frame_words: &mut [u32],
    free_queue: &mut [u16],
    removal_list: &mut [u16],
    addresses: &mut [u16],
    states: &mut [u8],
    owners: &mut [u8],
    free_map: &mut [u32],
    active: &mut [u8],
    updating: &mut [u8],
    images: &mut [u16],
    chip_words: &mut [u32],
    chip_records: &mut [u16],
    chip_next: &mut [u16],
    line: &mut [u16],
    used: &mut [u16],
) -> Answer
    ensures { leaves result
        (all_of frames.new pool.new records.now numbers.now accounts.now maps.now limits.now parents.now highest.new
        frame_words.new free_queue.new removal_list.new addresses.new states.new owners.new free_map.new active.new updating.new images.new chip_words.new chip_records.new chip_next.new line.new used.new)
        ≡ restart sizes
        (all_of frames.old pool.old records.now numbers.now accounts.now maps.now limits.now parents.now highest.old
        frame_words.old free_queue.old removal_list.old addresses.old states.old owners.old free_map.old active.old updating.old images.old chip_words.old chip_records.old chip_next.old line.old used.old) }
{
    let lent = frames.len();
    let values = load(frames);
    let copy = *pool;
    let fresh = calls::restart_core(
        sizes,
        lent,
        values,
        copy,
        records,
        numbers,
        accounts,
        maps,
        limits,
        parents,
        highest,
        frame_words,
        free_queue,
        removal_list,
        addresses,
        states,
        owners,
        free_map,
        active,
        updating,
        images,
        chip_words,
        chip_records,
        chip_next,
        line,
        used,
    );
    save(frames, fresh.frames);
    renew(pool, fresh.pool);
    fresh.answer
}
