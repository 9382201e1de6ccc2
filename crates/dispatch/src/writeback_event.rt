// The events that free frames and records, or that move pages and maps to the disk.
ghost use Rattle.std.specs.Prelude.{◌≡◌};
ghost use Rattle.model.specs.declared.event.Event.TheVariants as Event;
ghost use Rattle.model.specs.Lent.{state_of};
ghost use Rattle.model.specs.Laws.Own.{own, leaves};
ghost use Rattle.model.specs.Laws.Nulled.{nulled_by};
ghost use Rattle.model.specs.Pool.{taken, deposited};
ghost use Rattle.leaves.specs.Packed.{frames_in};
ghost use Rattle.dispatch.specs.Kept.{Kept};

use crate::handed::{claimed, freed, told};
use model::applied::Worked;
use model::event::Writeback;
use model::frame::Pool;
use model::sizes::Sizes;
use writeback::claim::claim;
use writeback::map_done::map_done;
use writeback::page_done::page_done;
use writeback::truncate::truncate;
use writeback::update::update;

pub fn writeback_event(
    sizes: Sizes,
    event: Writeback,
    frames: &mut [u64],
    pool: Pool,
    records: &mut [u32],
    numbers: &[u32],
    accounts: &[u16],
    maps: &mut [u16],
    limits: &[u16],
    parents: &[u16],
    highest: &[u32],
    frame_words: &mut [u32],
    free_queue: &mut [u16],
    removal_list: &mut [u16],
    addresses: &mut [u16],
    states: &mut [u8],
    owners: &mut [u8],
    free_map: &mut [u32],
    active: &[u8],
    updating: &mut [u8],
    images: &mut [u16],
    used: &mut [u16],
) -> Worked
    requires { Kept sizes
        (state_of (frames_in sizes frames.old) pool records.old numbers.now accounts.now maps.old limits.now parents.now highest.now
        frame_words.old free_queue.old removal_list.old addresses.old states.old owners.old free_map.old active.now updating.old images.old used.old) }
    ensures left { leaves result.answer
        (state_of (frames_in sizes frames.new) (deposited result.deposited (taken sizes result.taken pool)) records.new numbers.now accounts.now maps.new limits.now parents.now highest.now
        frame_words.new free_queue.new removal_list.new addresses.new states.new owners.new free_map.new active.now updating.new images.new used.new)
        ≡ own sizes
        (state_of (frames_in sizes frames.old) pool records.old numbers.now accounts.now maps.old limits.now parents.now highest.now
        frame_words.old free_queue.old removal_list.old addresses.old states.old owners.old free_map.old active.now updating.old images.old used.old)
        (Event.Writeback event) }
    ensures nulled { result.nulled ≡ nulled_by sizes
        (state_of (frames_in sizes frames.old) pool records.old numbers.now accounts.now maps.old limits.now parents.now highest.now
        frame_words.old free_queue.old removal_list.old addresses.old states.old owners.old free_map.old active.now updating.old images.old used.old)
        (Event.Writeback event) }
{
    match event {
        Writeback::Claim => claimed(claim(
            sizes,
            frames,
            accounts,
            limits,
            parents,
            frame_words,
            free_queue,
            removal_list,
            addresses,
            states,
            used,
        )),
        Writeback::Truncate { slot, count } => told(truncate(
            sizes,
            slot,
            count,
            frames,
            numbers,
            accounts,
            limits,
            parents,
            free_queue,
            removal_list,
            addresses,
            states,
            active,
            used,
        )),
        Writeback::Update { slot } => told(update(
            sizes, slot, frames, numbers, addresses, states, owners, active, updating, images,
        )),
        Writeback::PageDone { frame, good } => told(page_done(
            sizes,
            frame,
            good,
            frames,
            records,
            frame_words,
            free_queue,
            removal_list,
            addresses,
            states,
        )),
        Writeback::MapDone { slot, good } => freed(map_done(
            sizes, slot, good, numbers, maps, states, owners, free_map, active, updating, images,
        )),
    }
}
