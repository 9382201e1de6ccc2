// The chip does its part of an event, once the event's own work is done.
ghost use Rattle.std.specs.Prelude.{List, ◌≡◌, ℕ, ◌<◌};
ghost use Rattle.model.specs.Lent.{chip_of};
ghost use Rattle.model.specs.Laws.Fit.{Within};
ghost use Rattle.leaves.specs.Packed.{frames_in};
ghost use Rattle.chips.specs.Seen.{Places, chip_given, chip_entered, chip_left};
ghost use Rattle.events.specs.Chores.{forgotten, tended};
ghost use Rattle.events.specs.Tends.{Tending, entered_tend};

use crate::chore::Chore;
use chips::drop::{drop_one, drop_stale};
use chips::put::put;
use chips::take::take_copy;
use model::sizes::Sizes;

// The copy of the record told goes, if one is told.
fn forget(sizes: Sizes, told: u32, chip_words: &mut [u32], chip_records: &mut [u16])
    requires { Within sizes × (told < 65536) × Places sizes chip_words.old chip_records.old }
    ensures { (next : List ℕ) → chip_of chip_words.new chip_records.new next ≡ forgotten sizes told (chip_of chip_words.old chip_records.old next) }
{
    if told != 0 {
        drop_one(sizes, told as usize - 1, chip_words, chip_records);
    }
}

pub fn tend(
    sizes: Sizes,
    chore: Chore,
    told: u32,
    frames: &mut [u64],
    records: &[u32],
    frame_words: &mut [u32],
    removal_list: &mut [u16],
    addresses: &[u16],
    states: &[u8],
    chip_words: &mut [u32],
    chip_records: &mut [u16],
    chip_next: &mut [u16],
)
    requires { Tending sizes chore told (chip_given chip_words.old chip_records.old chip_next.old) (frames_in sizes frames.old) records.now frame_words.old removal_list.old }
    ensures frames { frames_in sizes frames.new ≡ (tended sizes chore told (chip_entered chip_words.old chip_records.old chip_next.old) (entered_tend (frames_in sizes frames.old) records.now frame_words.old removal_list.old addresses.now states.now)).memory.core.frames }
    ensures words { frame_words.new ≡ (tended sizes chore told (chip_entered chip_words.old chip_records.old chip_next.old) (entered_tend (frames_in sizes frames.old) records.now frame_words.old removal_list.old addresses.now states.now)).memory.core.words }
    ensures list { removal_list.new ≡ (tended sizes chore told (chip_entered chip_words.old chip_records.old chip_next.old) (entered_tend (frames_in sizes frames.old) records.now frame_words.old removal_list.old addresses.now states.now)).memory.core.removal_list }
    ensures chip { chip_left chip_words.new chip_records.new chip_next.new ≡ (tended sizes chore told (chip_entered chip_words.old chip_records.old chip_next.old) (entered_tend (frames_in sizes frames.old) records.now frame_words.old removal_list.old addresses.now states.now)).memory.chip }
{
    match chore {
        Chore::Rest => {}
        Chore::Take { frame } => take_copy(
            sizes,
            frame,
            frames,
            frame_words,
            removal_list,
            addresses,
            chip_words,
            chip_records,
        ),
        Chore::Put { record } => put(sizes, record, records, chip_words, chip_records, chip_next),
        Chore::Drop => drop_stale(sizes, states, chip_words, chip_records),
        Chore::Forget => forget(sizes, told, chip_words, chip_records),
    }
}
