// An event, and what the chip does with it.
ghost use Rattle.std.specs.Prelude.{◌≡◌};
ghost use Rattle.model.specs.Lent.{all_of};
ghost use Rattle.model.specs.Laws.Own.{own_whole, leaves};
ghost use Rattle.model.specs.Pool.{taken, deposited};
ghost use Rattle.leaves.specs.Packed.{frames_in};
ghost use Rattle.events.specs.Kept.{KeptWhole};

use crate::carry::carry;
use crate::chore::chore_of;
use crate::tend::tend;
use model::applied::Worked;
use model::event::Event;
use model::frame::Pool;
use model::sizes::Sizes;

// Once questions 1 and 2 are answered yes.
pub fn carry_whole(
    sizes: Sizes,
    event: Event,
    frames: &mut [u64],
    pool: Pool,
    records: &mut [u32],
    numbers: &mut [u32],
    accounts: &mut [u16],
    maps: &mut [u16],
    limits: &mut [u16],
    parents: &[u16],
    highest: &mut [u32],
    frame_words: &mut [u32],
    free_queue: &mut [u16],
    removal_list: &mut [u16],
    addresses: &mut [u16],
    states: &mut [u8],
    owners: &mut [u8],
    free_map: &mut [u32],
    active: &mut [u8],
    updating: &mut [u8],
    images: &mut [u16],
    chip_words: &mut [u32],
    chip_records: &mut [u16],
    chip_next: &mut [u16],
    line: &mut [u16],
    used: &mut [u16],
) -> Worked
    requires { KeptWhole sizes
        (all_of (frames_in sizes frames.old) pool records.old numbers.old accounts.old maps.old limits.old parents.now highest.old
        frame_words.old free_queue.old removal_list.old addresses.old states.old owners.old free_map.old active.old updating.old images.old chip_words.old chip_records.old chip_next.old line.old used.old) }
    ensures { leaves result.answer
        (all_of (frames_in sizes frames.new) (deposited result.deposited (taken sizes result.taken pool)) records.new numbers.new accounts.new maps.new limits.new parents.now highest.new
        frame_words.new free_queue.new removal_list.new addresses.new states.new owners.new free_map.new active.new updating.new images.new chip_words.new chip_records.new chip_next.new line.new used.new)
        ≡ own_whole sizes
        (all_of (frames_in sizes frames.old) pool records.old numbers.old accounts.old maps.old limits.old parents.now highest.old
        frame_words.old free_queue.old removal_list.old addresses.old states.old owners.old free_map.old active.old updating.old images.old chip_words.old chip_records.old chip_next.old line.old used.old) event }
{
    let chore = chore_of(event, frames, free_queue, addresses);
    let out = carry(
        sizes,
        event,
        frames,
        pool,
        records,
        numbers,
        accounts,
        maps,
        limits,
        parents,
        highest,
        frame_words,
        free_queue,
        removal_list,
        addresses,
        states,
        owners,
        free_map,
        active,
        updating,
        images,
        line,
        used,
    );
    let answer = out.answer;
    if answer.refusal == 0 {
        tend(
            sizes,
            chore,
            out.nulled,
            frames,
            records,
            frame_words,
            removal_list,
            addresses,
            states,
            chip_words,
            chip_records,
            chip_next,
        );
    }
    out
}
