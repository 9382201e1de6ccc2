// One request in one call: a list of one.
ghost use Rattle.std.specs.Prelude.{◌≡◌};
ghost use Rattle.model.specs.Lent.{all_of};
ghost use Rattle.model.specs.Calls.{frames_of, apply};
ghost use Rattle.model.specs.Laws.Own.{leaves};
ghost use Rattle.model.specs.Pool.{taken, deposited};

use crate::asked::ask_turns;
use crate::numbers::as_numbers;
use calls::packing::{pack_all, unpack_all};
use model::applied::Applied;
use model::frame::{Frame, Pool};
use model::request::Request;
use model::sizes::Sizes;

// Refused by question 1 or 2, or carried out.
pub fn apply_one(
    sizes: Sizes,
    request: Request,
    lent: usize,
    frames: [Frame; 64],
    pool: Pool,
    records: &mut [u32],
    numbers: &mut [u32],
    accounts: &mut [u16],
    maps: &mut [u16],
    limits: &mut [u16],
    parents: &[u16],
    highest: &mut [u32],
    frame_words: &mut [u32],
    free_queue: &mut [u16],
    removal_list: &mut [u16],
    addresses: &mut [u16],
    states: &mut [u8],
    owners: &mut [u8],
    free_map: &mut [u32],
    active: &mut [u8],
    updating: &mut [u8],
    images: &mut [u16],
    chip_words: &mut [u32],
    chip_records: &mut [u16],
    chip_next: &mut [u16],
    line: &mut [u16],
    used: &mut [u16],
) -> Applied
    ensures { leaves result.answer
        (all_of (frames_of result.frames lent) (deposited result.deposited (taken sizes result.taken pool)) records.new numbers.new accounts.new maps.new limits.new parents.now highest.new
        frame_words.new free_queue.new removal_list.new addresses.new states.new owners.new free_map.new active.new updating.new images.new chip_words.new chip_records.new chip_next.new line.new used.new)
        ≡ apply sizes
        (all_of (frames_of frames lent) pool records.old numbers.old accounts.old maps.old limits.old parents.now highest.old
        frame_words.old free_queue.old removal_list.old addresses.old states.old owners.old free_map.old active.old updating.old images.old chip_words.old chip_records.old chip_next.old line.old used.old) request }
{
    let mut packed = pack_all(frames);
    let requests = as_numbers(request);
    let mut answers: [u32; 2] = [0; 2];
    let out = ask_turns(
        &mut packed,
        records,
        numbers,
        accounts,
        maps,
        limits,
        parents,
        highest,
        frame_words,
        free_queue,
        removal_list,
        addresses,
        states,
        owners,
        free_map,
        active,
        updating,
        images,
        chip_words,
        chip_records,
        chip_next,
        line,
        used,
        &mut answers,
        &requests,
        sizes,
        1,
        lent,
        pool,
    );
    let frames = unpack_all(packed);
    let answer = out.answer;
    Applied {
        frames,
        taken: out.taken,
        deposited: out.deposited,
        answer,
    }
}
