// One request of a list, once questions 1 and 2 were answered yes.
ghost use Rattle.std.specs.Prelude.{◌≡◌, ◌+◌, ◌*◌, ◌<◌, length};
ghost use Rattle.model.specs.Lent.{all_of};
ghost use Rattle.model.specs.Pool.{taken, deposited};
ghost use Rattle.model.specs.ApplyAll.{turned};
ghost use Rattle.leaves.specs.Packed.{frames_in};
ghost use Rattle.events.specs.Kept.{KeptWhole};

use crate::numbers::{put_answer, request_at};
use events::whole::carry_whole;
use model::event::Answer;
use model::frame::Pool;
use model::refusals::Refusal;
use model::request::decode;
use model::sizes::Sizes;

// After a request: the pool, what the request took out of it and deposited in it, and its answer.
#[derive(Drop)]
pub struct Last {
    pub pool: Pool,
    pub taken: u32,
    pub deposited: u32,
    pub answer: Answer,
}

// Request k is answered by its own questions, and its answer put.
// Shut out: a request that is answered by the tables before the last one.
pub fn turn(
    sizes: Sizes,
    requests: &[u32],
    answers: &mut [u32],
    k: usize,
    last: Last,
    frames: &mut [u64],
    records: &mut [u32],
    numbers: &mut [u32],
    accounts: &mut [u16],
    maps: &mut [u16],
    limits: &mut [u16],
    parents: &[u16],
    highest: &mut [u32],
    frame_words: &mut [u32],
    free_queue: &mut [u16],
    removal_list: &mut [u16],
    addresses: &mut [u16],
    states: &mut [u8],
    owners: &mut [u8],
    free_map: &mut [u32],
    active: &mut [u8],
    updating: &mut [u8],
    images: &mut [u16],
    chip_words: &mut [u32],
    chip_records: &mut [u16],
    chip_next: &mut [u16],
    line: &mut [u16],
    used: &mut [u16],
) -> Last
    requires { (5 * k + 4 < length requests.now) × (2 * k + 1 < length answers.old) × KeptWhole sizes
        (all_of (frames_in sizes frames.old) last.pool records.old numbers.old accounts.old maps.old limits.old parents.now highest.old
        frame_words.old free_queue.old removal_list.old addresses.old states.old owners.old free_map.old active.old updating.old images.old chip_words.old chip_records.old chip_next.old line.old used.old) }
    ensures turned { record {
      answer = result.answer;
      answers = answers.new;
      left = all_of (frames_in sizes frames.new) result.pool records.new numbers.new accounts.new maps.new limits.new parents.now highest.new
          frame_words.new free_queue.new removal_list.new addresses.new states.new owners.new free_map.new active.new updating.new images.new chip_words.new chip_records.new chip_next.new line.new used.new;
    }
        ≡ turned sizes requests.now k (record {
          answer = last.answer;
          answers = answers.old;
          left = all_of (frames_in sizes frames.old) last.pool records.old numbers.old accounts.old maps.old limits.old parents.now highest.old
              frame_words.old free_queue.old removal_list.old addresses.old states.old owners.old free_map.old active.old updating.old images.old chip_words.old chip_records.old chip_next.old line.old used.old;
        }) }
    ensures pool { result.pool ≡ deposited result.deposited (taken sizes result.taken last.pool) }
{
    let pool = last.pool;
    let decoded = decode(request_at(requests, k));
    let Some(event) = decoded else {
        let answer = Answer::from(Refusal::NoRange);
        put_answer(answers, k, answer);
        return Last {
            pool,
            taken: 0,
            deposited: 0,
            answer,
        };
    };
    let out = carry_whole(
        sizes,
        event,
        frames,
        pool,
        records,
        numbers,
        accounts,
        maps,
        limits,
        parents,
        highest,
        frame_words,
        free_queue,
        removal_list,
        addresses,
        states,
        owners,
        free_map,
        active,
        updating,
        images,
        chip_words,
        chip_records,
        chip_next,
        line,
        used,
    );
    let answer = out.answer;
    let fewer = leaves::pool::take(sizes, out.taken, pool);
    let pool = leaves::pool::deposit(out.deposited, fewer);
    put_answer(answers, k, answer);
    Last {
        pool,
        taken: out.taken,
        deposited: out.deposited,
        answer,
    }
}
