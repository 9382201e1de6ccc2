// Requests over frames that are packed: questions 1 and 2 are asked once, then they are carried out in turn.
ghost use Rattle.std.specs.Prelude.{◌≡◌, ◌*◌, ◌≤◌, length};
ghost use Rattle.model.specs.Lent.{all_of};
ghost use Rattle.model.specs.Calls.{frames_of};
ghost use Rattle.model.specs.Pool.{taken, deposited};
ghost use Rattle.model.specs.ApplyAll.{after};
ghost use Rattle.leaves.specs.Packed.{unpacked};

use crate::numbers::refuse_all;
use crate::turn::Last;
use crate::turns::turns;
use calls::common::common;
use model::frame::Pool;
use model::lent::{DiskTables, MemoryTables};
use model::sizes::Sizes;

// The first n of them, each refused by question 1 or 2, or all carried out.
// Shut out: question 2 asked of nothing.
pub fn ask_turns(
    frames: &mut [u64],
    records: &mut [u32],
    numbers: &mut [u32],
    accounts: &mut [u16],
    maps: &mut [u16],
    limits: &mut [u16],
    parents: &[u16],
    highest: &mut [u32],
    frame_words: &mut [u32],
    free_queue: &mut [u16],
    removal_list: &mut [u16],
    addresses: &mut [u16],
    states: &mut [u8],
    owners: &mut [u8],
    free_map: &mut [u32],
    active: &mut [u8],
    updating: &mut [u8],
    images: &mut [u16],
    chip_words: &mut [u32],
    chip_records: &mut [u16],
    chip_next: &mut [u16],
    line: &mut [u16],
    used: &mut [u16],
    answers: &mut [u32],
    requests: &[u32],
    sizes: Sizes,
    n: usize,
    lent: usize,
    pool: Pool,
) -> Last
    requires { (length frames.old ≡ 64) × (5 * n ≤ length requests.now) × (2 * n ≤ length answers.old) }
    ensures listed { record {
      answer = result.answer;
      answers = answers.new;
      left = all_of (frames_of (unpacked frames.new) lent) result.pool records.new numbers.new accounts.new maps.new limits.new parents.now highest.new
          frame_words.new free_queue.new removal_list.new addresses.new states.new owners.new free_map.new active.new updating.new images.new chip_words.new chip_records.new chip_next.new line.new used.new;
    }
        ≡ after sizes requests.now answers.old
        (all_of (frames_of (unpacked frames.old) lent) pool records.old numbers.old accounts.old maps.old limits.old parents.now highest.old
        frame_words.old free_queue.old removal_list.old addresses.old states.old owners.old free_map.old active.old updating.old images.old chip_words.old chip_records.old chip_next.old line.old used.old) n }
    ensures one { n ≡ 1 → result.pool ≡ deposited result.deposited (taken sizes result.taken pool) }
{
    let disk = DiskTables {
        records,
        numbers,
        accounts,
        maps,
        limits,
        parents,
        highest,
    };
    let memory = MemoryTables {
        frame_words,
        free_queue,
        removal_list,
        addresses,
        states,
        owners,
        free_map,
        active,
        updating,
        images,
        chip_words,
        chip_records,
        chip_next,
        line,
        used,
    };
    if let Err(no) = common(sizes, lent, frames, pool, disk, memory) {
        let answer = refuse_all(answers, n, no.number());
        return Last {
            pool,
            taken: 0,
            deposited: 0,
            answer,
        };
    }
    turns(
        sizes,
        n,
        requests,
        answers,
        frames,
        pool,
        records,
        numbers,
        accounts,
        maps,
        limits,
        parents,
        highest,
        frame_words,
        free_queue,
        removal_list,
        addresses,
        states,
        owners,
        free_map,
        active,
        updating,
        images,
        chip_words,
        chip_records,
        chip_next,
        line,
        used,
    )
}
