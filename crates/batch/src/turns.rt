// So many requests of a list in turn, once questions 1 and 2 were answered yes.
ghost use Rattle.std.specs.Prelude.{◌≡◌, ◌*◌, ◌≤◌, length};
ghost use Rattle.model.specs.Lent.{all_of};
ghost use Rattle.model.specs.Pool.{taken, deposited};
ghost use Rattle.model.specs.ApplyAll.{after};
ghost use Rattle.leaves.specs.Packed.{frames_in};
ghost use Rattle.events.specs.Kept.{KeptWhole};

use crate::turn::{Last, turn};
use model::event::Answer;
use model::frame::Pool;
use model::sizes::Sizes;

// The first n requests.
// Shut out: a refused request that ends the list.
pub fn turns(
    sizes: Sizes,
    n: usize,
    requests: &[u32],
    answers: &mut [u32],
    frames: &mut [u64],
    pool: Pool,
    records: &mut [u32],
    numbers: &mut [u32],
    accounts: &mut [u16],
    maps: &mut [u16],
    limits: &mut [u16],
    parents: &[u16],
    highest: &mut [u32],
    frame_words: &mut [u32],
    free_queue: &mut [u16],
    removal_list: &mut [u16],
    addresses: &mut [u16],
    states: &mut [u8],
    owners: &mut [u8],
    free_map: &mut [u32],
    active: &mut [u8],
    updating: &mut [u8],
    images: &mut [u16],
    chip_words: &mut [u32],
    chip_records: &mut [u16],
    chip_next: &mut [u16],
    line: &mut [u16],
    used: &mut [u16],
) -> Last
    requires { (5 * n ≤ length requests.now) × (2 * n ≤ length answers.old) × KeptWhole sizes
        (all_of (frames_in sizes frames.old) pool records.old numbers.old accounts.old maps.old limits.old parents.now highest.old
        frame_words.old free_queue.old removal_list.old addresses.old states.old owners.old free_map.old active.old updating.old images.old chip_words.old chip_records.old chip_next.old line.old used.old) }
    ensures listed { record {
      answer = result.answer;
      answers = answers.new;
      left = all_of (frames_in sizes frames.new) result.pool records.new numbers.new accounts.new maps.new limits.new parents.now highest.new
          frame_words.new free_queue.new removal_list.new addresses.new states.new owners.new free_map.new active.new updating.new images.new chip_words.new chip_records.new chip_next.new line.new used.new;
    }
        ≡ after sizes requests.now answers.old
        (all_of (frames_in sizes frames.old) pool records.old numbers.old accounts.old maps.old limits.old parents.now highest.old
        frame_words.old free_queue.old removal_list.old addresses.old states.old owners.old free_map.old active.old updating.old images.old chip_words.old chip_records.old chip_next.old line.old used.old) n }
    ensures one { n ≡ 1 → result.pool ≡ deposited result.deposited (taken sizes result.taken pool) }
{
    let answer = Answer {
        refusal: 0,
        result: 0,
    };
    let mut last = Last {
        pool,
        taken: 0,
        deposited: 0,
        answer,
    };
    for k in 0..n {
        last = turn(
            sizes,
            requests,
            answers,
            k,
            last,
            frames,
            records,
            numbers,
            accounts,
            maps,
            limits,
            parents,
            highest,
            frame_words,
            free_queue,
            removal_list,
            addresses,
            states,
            owners,
            free_map,
            active,
            updating,
            images,
            chip_words,
            chip_records,
            chip_next,
            line,
            used,
        );
    }
    last
}
