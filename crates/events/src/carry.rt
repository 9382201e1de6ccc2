// An event handed on to its family.
ghost use Rattle.std.specs.Prelude.{◌≡◌};
ghost use Rattle.model.specs.Lent.{lined_of};
ghost use Rattle.model.specs.Laws.Own.{own, leaves};
ghost use Rattle.model.specs.Laws.Nulled.{nulled_by};
ghost use Rattle.model.specs.Pool.{taken, deposited};
ghost use Rattle.leaves.specs.Packed.{frames_in};
ghost use Rattle.dispatch.specs.Kept.{Kept};

use dispatch::account_event::account_event;
use dispatch::design_event::design_event;
use dispatch::handed::told;
use dispatch::page_event::page_event;
use dispatch::writeback_event::writeback_event;
use model::applied::Worked;
use model::event::Event;
use model::frame::Pool;
use model::sizes::Sizes;
use waiting::waiting_event;

// Once questions 1 and 2 are answered yes.
pub fn carry(
    sizes: Sizes,
    event: Event,
    frames: &mut [u64],
    pool: Pool,
    records: &mut [u32],
    numbers: &mut [u32],
    accounts: &mut [u16],
    maps: &mut [u16],
    limits: &mut [u16],
    parents: &[u16],
    highest: &mut [u32],
    frame_words: &mut [u32],
    free_queue: &mut [u16],
    removal_list: &mut [u16],
    addresses: &mut [u16],
    states: &mut [u8],
    owners: &mut [u8],
    free_map: &mut [u32],
    active: &mut [u8],
    updating: &mut [u8],
    images: &mut [u16],
    line: &mut [u16],
    used: &mut [u16],
) -> Worked
    requires { Kept sizes
        (lined_of (frames_in sizes frames.old) pool records.old numbers.old accounts.old maps.old limits.old parents.now highest.old
        frame_words.old free_queue.old removal_list.old addresses.old states.old owners.old free_map.old active.old updating.old images.old line.old used.old) }
    ensures left { leaves result.answer
        (lined_of (frames_in sizes frames.new) (deposited result.deposited (taken sizes result.taken pool)) records.new numbers.new accounts.new maps.new limits.new parents.now highest.new
        frame_words.new free_queue.new removal_list.new addresses.new states.new owners.new free_map.new active.new updating.new images.new line.new used.new)
        ≡ own sizes
        (lined_of (frames_in sizes frames.old) pool records.old numbers.old accounts.old maps.old limits.old parents.now highest.old
        frame_words.old free_queue.old removal_list.old addresses.old states.old owners.old free_map.old active.old updating.old images.old line.old used.old) event }
    ensures nulled { result.nulled ≡ nulled_by sizes
        (lined_of (frames_in sizes frames.old) pool records.old numbers.old accounts.old maps.old limits.old parents.now highest.old
        frame_words.old free_queue.old removal_list.old addresses.old states.old owners.old free_map.old active.old updating.old images.old line.old used.old) event }
{
    match event {
        Event::Design(e) => told(design_event(
            sizes,
            e,
            frames,
            pool,
            records,
            numbers,
            accounts,
            maps,
            limits,
            parents,
            highest,
            frame_words,
            free_queue,
            removal_list,
            addresses,
            states,
            owners,
            free_map,
            active,
            updating,
            images,
            used,
        )),
        Event::Account(e) => told(account_event(
            sizes,
            e,
            frames,
            pool,
            records,
            numbers,
            accounts,
            maps,
            limits,
            parents,
            highest,
            frame_words,
            free_queue,
            removal_list,
            addresses,
            states,
            owners,
            free_map,
            active,
            updating,
            images,
            used,
        )),
        Event::Page(e) => page_event(
            sizes,
            e,
            frames,
            pool,
            records,
            numbers,
            accounts,
            maps,
            limits,
            parents,
            highest,
            frame_words,
            free_queue,
            removal_list,
            addresses,
            states,
            owners,
            free_map,
            active,
            updating,
            images,
            used,
        ),
        Event::Writeback(e) => writeback_event(
            sizes,
            e,
            frames,
            pool,
            records,
            numbers,
            accounts,
            maps,
            limits,
            parents,
            highest,
            frame_words,
            free_queue,
            removal_list,
            addresses,
            states,
            owners,
            free_map,
            active,
            updating,
            images,
            used,
        ),
        Event::Waiting(e) => waiting_event(
            sizes,
            e,
            frames,
            pool,
            records,
            numbers,
            accounts,
            maps,
            limits,
            parents,
            highest,
            frame_words,
            free_queue,
            removal_list,
            addresses,
            states,
            owners,
            free_map,
            active,
            updating,
            images,
            line,
            used,
        ),
    }
}
