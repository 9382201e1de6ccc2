// The calls, over everything that is lent: questions 1 and 2 are asked once, then the work is done.
#![tactic(auto)]

ghost use Rattle.std.specs.Prelude.{◌≡◌, length, replicate};
ghost use Rattle.model.specs.Lent.{disk_of, all_of};
ghost use Rattle.model.specs.Calls.{frames_of};
ghost use Rattle.model.specs.Step.{restart, format};
ghost use Rattle.model.specs.Refusals.{answered};
ghost use Rattle.model.specs.Laws.Own.{leaves};

use crate::common::common;
use crate::lent::lent_fit;
use model::applied::Pooled;
use model::event::Answer;
use model::frame::{Frame, Pool};
use model::lent::{DiskTables, MemoryTables};
use model::refusals::Refusal;
use model::sizes::Sizes;
use questions::question1::disk_fit;
use questions::question2::disk_rules;
use restarts::format::format_tables;
use restarts::numbers::raise_highest;
use restarts::restart::restart_tables;
use rules::slots::parents_ok;

pub mod lent; // questions 1 and 2 with the line and the chip
pub mod common; // questions 1 and 2 of every event and a look
pub mod looks; // a page look
pub mod packing; // the frames, packed and back

// No copy in the chip, place 0 next, and nobody waits.
fn empty_beside(
    chip_words: &mut [u32],
    chip_records: &mut [u16],
    chip_next: &mut [u16],
    line: &mut [u16],
)
    ensures words { chip_words.new ≡ replicate (length chip_words.old) 0 }
    ensures copies { chip_records.new ≡ replicate (length chip_records.old) 0 }
    ensures next { chip_next.new ≡ replicate (length chip_next.old) 0 }
    ensures line { line.new ≡ replicate (length line.old) 0 }
{
    chip_words.fill(0);
    chip_records.fill(0);
    chip_next.fill(0);
    line.fill(0);
}

// Questions 1 and 2 (the disk rules only), then the highest number raised, its own one store, and every table of the memory part set anew.
pub fn restart_core(
    sizes: Sizes,
    lent: usize,
    frames: [Frame; 64],
    pool: Pool,
    records: &[u32],
    numbers: &[u32],
    accounts: &[u16],
    maps: &[u16],
    limits: &[u16],
    parents: &[u16],
    highest: &mut [u32],
    frame_words: &mut [u32],
    free_queue: &mut [u16],
    removal_list: &mut [u16],
    addresses: &mut [u16],
    states: &mut [u8],
    owners: &mut [u8],
    free_map: &mut [u32],
    active: &mut [u8],
    updating: &mut [u8],
    images: &mut [u16],
    chip_words: &mut [u32],
    chip_records: &mut [u16],
    chip_next: &mut [u16],
    line: &mut [u16],
    used: &mut [u16],
) -> Pooled
    ensures { leaves result.answer
        (all_of (frames_of result.frames lent) result.pool records.now numbers.now accounts.now maps.now limits.now parents.now highest.new
        frame_words.new free_queue.new removal_list.new addresses.new states.new owners.new free_map.new active.new updating.new images.new chip_words.new chip_records.new chip_next.new line.new used.new)
        ≡ restart sizes
        (all_of (frames_of frames lent) pool records.now numbers.now accounts.now maps.now limits.now parents.now highest.old
        frame_words.old free_queue.old removal_list.old addresses.old states.old owners.old free_map.old active.old updating.old images.old chip_words.old chip_records.old chip_next.old line.old used.old) }
{
    let disk = DiskTables {
        records,
        numbers,
        accounts,
        maps,
        limits,
        parents,
        highest,
    };
    let memory = MemoryTables {
        frame_words,
        free_queue,
        removal_list,
        addresses,
        states,
        owners,
        free_map,
        active,
        updating,
        images,
        chip_words,
        chip_records,
        chip_next,
        line,
        used,
    };
    if !lent_fit(sizes, lent, disk, memory) {
        return Pooled {
            frames,
            pool,
            answer: Answer::from(Refusal::NoFit),
        };
    }
    if !disk_rules(sizes, disk) {
        return Pooled {
            frames,
            pool,
            answer: Answer::from(Refusal::NoRule),
        };
    }
    raise_highest(sizes, numbers, highest);
    empty_beside(chip_words, chip_records, chip_next, line);
    restart_tables(
        sizes,
        accounts,
        maps,
        limits,
        parents,
        frame_words,
        free_queue,
        removal_list,
        addresses,
        states,
        owners,
        free_map,
        active,
        updating,
        images,
        used,
    )
}

// Question 1, then 3 of the wanted parents; then all of the disk part zeroed but the parents, and these stored.
pub fn format(
    sizes: Sizes,
    wanted: &[u16],
    records: &mut [u32],
    numbers: &mut [u32],
    accounts: &mut [u16],
    maps: &mut [u16],
    limits: &mut [u16],
    parents: &mut [u16],
    highest: &mut [u32],
) -> Result<u32, Refusal>
    ensures { record { answer = answered result; left = disk_of records.new numbers.new accounts.new maps.new limits.new parents.new highest.new }
        ≡ format sizes wanted.now (disk_of records.old numbers.old accounts.old maps.old limits.old parents.old highest.old) }
{
    let disk = DiskTables {
        records,
        numbers,
        accounts,
        maps,
        limits,
        parents,
        highest,
    };
    if !(disk_fit(sizes, disk) & (wanted.len() == sizes.accounts)) {
        return Err(Refusal::NoFit);
    }
    if !parents_ok(sizes.accounts, wanted) {
        return Err(Refusal::NoRange);
    }
    format_tables(
        records, numbers, accounts, maps, limits, wanted, parents, highest,
    );
    Ok(0)
}
