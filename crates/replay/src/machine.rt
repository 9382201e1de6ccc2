// The tables of the event program's sizes, and one request carried out on them.
ghost use Rattle.std.specs.Prelude.{◌≡◌, replicate};
ghost use Rattle.model.specs.Calls.{frames_of};
ghost use Rattle.model.specs.Lent.{all_of, no_pool};
ghost use Rattle.model.specs.State.{no_frame};
ghost use Rattle.replay.specs.Output.{sizes as Output·sizes, carried, started_from};

use crate::input::cut;
use model::applied::Pooled;
use model::event::Answer;
use model::frame::{Pool, no_frames};
use model::request::Request;
use model::sizes::Sizes;

const CUT: u32 = 16;

// W 2, R 4, F 2, S 2, N 3, Q 1, B 2.
fn sizes() -> Sizes
    ensures { result ≡ Output·sizes }
{
    Sizes {
        words: 2,
        records: 4,
        frames: 2,
        slots: 2,
        pages: 3,
        accounts: 1,
        chip: 2,
    }
}

// Frames and pool before the first restart; what stands in them is never read.
fn blank() -> Pooled
    ensures { result ≡ record { frames = replicate 64 no_frame; pool = no_pool; answer = record { refusal = 0; result = 0 } } }
{
    Pooled {
        frames: no_frames(),
        pool: Pool { hand: 0, free: 0 },
        answer: Answer {
            refusal: 0,
            result: 0,
        },
    }
}

// A request, or a cut with a restart (at its cut no unreported transfer lands, so the restart is all), carried out.
pub fn carry(
    asked: Request,
    held: Pooled,
    records: &mut [u32; 8],
    numbers: &mut [u32; 2],
    accounts: &mut [u16; 2],
    maps: &mut [u16; 6],
    limits: &mut [u16; 1],
    parents: &[u16; 1],
    highest: &mut [u32; 1],
    frame_words: &mut [u32; 4],
    free_queue: &mut [u16; 2],
    removal_list: &mut [u16; 2],
    addresses: &mut [u16; 6],
    states: &mut [u8; 4],
    owners: &mut [u8; 4],
    free_map: &mut [u32; 1],
    active: &mut [u8; 2],
    updating: &mut [u8; 2],
    images: &mut [u16; 6],
    chip_words: &mut [u32; 4],
    chip_records: &mut [u16; 2],
    chip_next: &mut [u16; 1],
    line: &mut [u16; 32],
    used: &mut [u16; 1],
) -> Pooled
    ensures { record { answer = result.answer; left = all_of (frames_of result.frames 2) result.pool records.new numbers.new accounts.new maps.new limits.new parents.now highest.new frame_words.new free_queue.new removal_list.new addresses.new states.new owners.new free_map.new active.new updating.new images.new chip_words.new chip_records.new chip_next.new line.new used.new }
        ≡ carried (all_of (frames_of held.frames 2) held.pool records.old numbers.old accounts.old maps.old limits.old parents.now highest.old frame_words.old free_queue.old removal_list.old addresses.old states.old owners.old free_map.old active.old updating.old images.old chip_words.old chip_records.old chip_next.old line.old used.old) asked }
{
    let frames = held.frames;
    let pool = held.pool;
    if asked.kind == CUT {
        return calls::restart_core(
            sizes(),
            2,
            frames,
            pool,
            records,
            numbers,
            accounts,
            maps,
            limits,
            parents,
            highest,
            frame_words,
            free_queue,
            removal_list,
            addresses,
            states,
            owners,
            free_map,
            active,
            updating,
            images,
            chip_words,
            chip_records,
            chip_next,
            line,
            used,
        );
    }
    let out = batch::apply_one::apply_one(
        sizes(),
        asked,
        2,
        frames,
        pool,
        records,
        numbers,
        accounts,
        maps,
        limits,
        parents,
        highest,
        frame_words,
        free_queue,
        removal_list,
        addresses,
        states,
        owners,
        free_map,
        active,
        updating,
        images,
        chip_words,
        chip_records,
        chip_next,
        line,
        used,
    );
    let frames = out.frames;
    let answer = out.answer;
    let fewer = leaves::pool::take(sizes(), out.taken, pool);
    let pool = leaves::pool::deposit(out.deposited, fewer);
    Pooled {
        frames,
        pool,
        answer,
    }
}

// Formats, which is never refused at these sizes, and restarts. The one account has no parent.
pub fn start(
    records: &mut [u32; 8],
    numbers: &mut [u32; 2],
    accounts: &mut [u16; 2],
    maps: &mut [u16; 6],
    limits: &mut [u16; 1],
    parents: &mut [u16; 1],
    highest: &mut [u32; 1],
    frame_words: &mut [u32; 4],
    free_queue: &mut [u16; 2],
    removal_list: &mut [u16; 2],
    addresses: &mut [u16; 6],
    states: &mut [u8; 4],
    owners: &mut [u8; 4],
    free_map: &mut [u32; 1],
    active: &mut [u8; 2],
    updating: &mut [u8; 2],
    images: &mut [u16; 6],
    chip_words: &mut [u32; 4],
    chip_records: &mut [u16; 2],
    chip_next: &mut [u16; 1],
    line: &mut [u16; 32],
    used: &mut [u16; 1],
) -> Pooled
    ensures { record { answer = result.answer; left = all_of (frames_of result.frames 2) result.pool records.new numbers.new accounts.new maps.new limits.new parents.new highest.new frame_words.new free_queue.new removal_list.new addresses.new states.new owners.new free_map.new active.new updating.new images.new chip_words.new chip_records.new chip_next.new line.new used.new }
        ≡ started_from (all_of (frames_of (replicate 64 no_frame) 2) no_pool records.old numbers.old accounts.old maps.old limits.old parents.old highest.old frame_words.old free_queue.old removal_list.old addresses.old states.old owners.old free_map.old active.old updating.old images.old chip_words.old chip_records.old chip_next.old line.old used.old) }
{
    let wanted = [0u16; 1];
    let _ = calls::format(
        sizes(),
        &wanted,
        records,
        numbers,
        accounts,
        maps,
        limits,
        parents,
        highest,
    );
    carry(
        cut(),
        blank(),
        records,
        numbers,
        accounts,
        maps,
        limits,
        parents,
        highest,
        frame_words,
        free_queue,
        removal_list,
        addresses,
        states,
        owners,
        free_map,
        active,
        updating,
        images,
        chip_words,
        chip_records,
        chip_next,
        line,
        used,
    )
}
