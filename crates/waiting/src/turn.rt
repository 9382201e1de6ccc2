// Turn: the first request is served, goes to the back, or has its page brought by the fault or the claim that are there.
ghost use Rattle.std.specs.Prelude.{◌≡◌, ℕ, ◌<◌, eqb, length};
ghost use Rattle.tables.specs.Base.{if};
ghost use Rattle.tables.specs.Queue.{queue_of, size, first, pop, push_back};
ghost use Rattle.tables.specs.Rule.{Holds};
ghost use Rattle.model.specs.declared.event.Event.TheVariants as Event;
ghost use Rattle.model.specs.declared.event.Waiting.TheVariants as Waiting;
ghost use Rattle.model.specs.State.{NONE};
ghost use Rattle.model.specs.Lent.{lined_of};
ghost use Rattle.model.specs.Laws.Own.{own, leaves};
ghost use Rattle.model.specs.Laws.Nulled.{nulled_by};
ghost use Rattle.model.specs.Pool.{taken, deposited};
ghost use Rattle.leaves.specs.FrameLaws.{frame_in};
ghost use Rattle.leaves.specs.Packed.{unpacked, frames_in};
ghost use Rattle.dispatch.specs.Kept.{Kept};

use dispatch::handed::told;
use leaves::cells::at;
use leaves::packed::{frame_at, frame_of};
use leaves::queue::{first, pop, rotate};
use model::applied::Worked;
use model::event::Answer;
use model::frame::{Frame, NONE, Pool};
use model::refusals::Refusal;
use model::sizes::Sizes;
use pages::fault::fault;
use writeback::claim::{ClaimDone, claim};

// The first request's page is in this frame. In service: the request is served and leaves, result 1. In transfer: it goes to the back.
fn meet(frame: Frame, line: &mut [u16]) -> u32
    requires { ((m : ℕ) × Holds (queue_of (length line.old) m line.old)) × (0 < size line.old) }
    ensures result { result ≡ if (eqb frame.transfer NONE) 1 0 }
    ensures line { line.new ≡ if (eqb frame.transfer NONE) (pop line.old) (push_back (pop line.old) (first line.old)) }
{
    if frame.transfer == NONE {
        pop(line);
        return 1;
    }
    rotate(line);
    0
}

// Whatever the fault said but 20: accepted, the request stays first; any number sends it away and is the result.
fn settle(done: Worked, waiting: &mut [u16]) -> Worked
    requires { (m : ℕ) × Holds (queue_of (length waiting.old) m waiting.old) }
    ensures done { result ≡ record { taken = done.taken; deposited = done.deposited; nulled = done.nulled; answer = record { refusal = 0; result = done.answer.refusal } } }
    ensures waiting { waiting.new ≡ if (eqb done.answer.refusal 0) waiting.old (pop waiting.old) }
{
    let answer = done.answer;
    let no = answer.refusal;
    if no != 0 {
        pop(waiting);
    }
    Worked {
        taken: done.taken,
        deposited: done.deposited,
        nulled: done.nulled,
        answer: Answer {
            refusal: 0,
            result: no,
        },
    }
}

// A refused claim refuses the turn; the looks of another are not handed on.
fn claimed(done: ClaimDone) -> Worked
    ensures { result ≡ record { taken = 0; deposited = 0; nulled = done.nulled; answer = record { refusal = done.answer.refusal; result = 0 } } }
{
    let nulled = done.nulled;
    let answer = done.answer;
    Worked {
        taken: 0,
        deposited: 0,
        nulled,
        answer: Answer {
            refusal: answer.refusal,
            result: 0,
        },
    }
}

// The first request's page, i, is in no frame: a fault, and where that finds no frame free, a claim.
fn fetch(
    sizes: Sizes,
    i: usize,
    frames: &mut [u64],
    pool: Pool,
    records: &[u32],
    numbers: &[u32],
    accounts: &[u16],
    maps: &[u16],
    limits: &[u16],
    parents: &[u16],
    highest: &[u32],
    frame_words: &mut [u32],
    free_queue: &mut [u16],
    removal_list: &mut [u16],
    addresses: &mut [u16],
    states: &mut [u8],
    owners: &mut [u8],
    free_map: &mut [u32],
    active: &[u8],
    updating: &[u8],
    images: &[u16],
    line: &mut [u16],
    used: &mut [u16],
) -> Worked
    requires { Kept sizes
        (lined_of (frames_in sizes frames.old) pool records.now numbers.now accounts.now maps.now limits.now parents.now highest.now
        frame_words.old free_queue.old removal_list.old addresses.old states.old owners.old free_map.old active.now updating.now images.now line.old used.old)
        × (0 < size line.old) × (i ≡ first line.old) × ¬ (frame_in sizes.frames (unpacked frames.old) i < sizes.frames) }
    ensures left { leaves result.answer
        (lined_of (frames_in sizes frames.new) (deposited result.deposited (taken sizes result.taken pool)) records.now numbers.now accounts.now maps.now limits.now parents.now highest.now
        frame_words.new free_queue.new removal_list.new addresses.new states.new owners.new free_map.new active.now updating.now images.now line.new used.new)
        ≡ own sizes
        (lined_of (frames_in sizes frames.old) pool records.now numbers.now accounts.now maps.now limits.now parents.now highest.now
        frame_words.old free_queue.old removal_list.old addresses.old states.old owners.old free_map.old active.now updating.now images.now line.old used.old)
        (Event.Waiting Waiting.Turn) }
    ensures nulled { result.nulled ≡ nulled_by sizes
        (lined_of (frames_in sizes frames.old) pool records.now numbers.now accounts.now maps.now limits.now parents.now highest.now
        frame_words.old free_queue.old removal_list.old addresses.old states.old owners.old free_map.old active.now updating.now images.now line.old used.old)
        (Event.Waiting Waiting.Turn) }
{
    let done = fault(
        sizes,
        i / sizes.pages,
        i % sizes.pages,
        frames,
        pool,
        numbers,
        frame_words,
        free_queue,
        removal_list,
        addresses,
        states,
        owners,
        free_map,
        active,
    );
    let answer = done.answer;
    let no_frame = Refusal::NoFrame.number();
    if answer.refusal == no_frame {
        return claimed(claim(
            sizes,
            frames,
            accounts,
            limits,
            parents,
            frame_words,
            free_queue,
            removal_list,
            addresses,
            states,
            used,
        ));
    }
    settle(done, line)
}

// With nobody waiting nothing changes.
pub fn turn(
    sizes: Sizes,
    frames: &mut [u64],
    pool: Pool,
    records: &[u32],
    numbers: &[u32],
    accounts: &[u16],
    maps: &[u16],
    limits: &[u16],
    parents: &[u16],
    highest: &[u32],
    frame_words: &mut [u32],
    free_queue: &mut [u16],
    removal_list: &mut [u16],
    addresses: &mut [u16],
    states: &mut [u8],
    owners: &mut [u8],
    free_map: &mut [u32],
    active: &[u8],
    updating: &[u8],
    images: &[u16],
    line: &mut [u16],
    used: &mut [u16],
) -> Worked
    requires { Kept sizes
        (lined_of (frames_in sizes frames.old) pool records.now numbers.now accounts.now maps.now limits.now parents.now highest.now
        frame_words.old free_queue.old removal_list.old addresses.old states.old owners.old free_map.old active.now updating.now images.now line.old used.old) }
    ensures left { leaves result.answer
        (lined_of (frames_in sizes frames.new) (deposited result.deposited (taken sizes result.taken pool)) records.now numbers.now accounts.now maps.now limits.now parents.now highest.now
        frame_words.new free_queue.new removal_list.new addresses.new states.new owners.new free_map.new active.now updating.now images.now line.new used.new)
        ≡ own sizes
        (lined_of (frames_in sizes frames.old) pool records.now numbers.now accounts.now maps.now limits.now parents.now highest.now
        frame_words.old free_queue.old removal_list.old addresses.old states.old owners.old free_map.old active.now updating.now images.now line.old used.old)
        (Event.Waiting Waiting.Turn) }
    ensures nulled { result.nulled ≡ nulled_by sizes
        (lined_of (frames_in sizes frames.old) pool records.now numbers.now accounts.now maps.now limits.now parents.now highest.now
        frame_words.old free_queue.old removal_list.old addresses.old states.old owners.old free_map.old active.now updating.now images.now line.old used.old)
        (Event.Waiting Waiting.Turn) }
{
    if at(line, 0) == 0 {
        return told(Ok(0));
    }
    let i = first(line);
    let f = frame_of(frames, sizes.frames, i);
    if f < sizes.frames {
        let result = meet(frame_at(frames, f), line);
        return told(Ok(result));
    }
    fetch(
        sizes,
        i,
        frames,
        pool,
        records,
        numbers,
        accounts,
        maps,
        limits,
        parents,
        highest,
        frame_words,
        free_queue,
        removal_list,
        addresses,
        states,
        owners,
        free_map,
        active,
        updating,
        images,
        line,
        used,
    )
}
