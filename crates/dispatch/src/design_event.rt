// The events about a design.
ghost use Rattle.std.specs.Prelude.{◌≡◌};
ghost use Rattle.model.specs.declared.event.Event.TheVariants as Event;
ghost use Rattle.model.specs.Lent.{state_of};
ghost use Rattle.model.specs.Laws.Own.{own, leaves};
ghost use Rattle.model.specs.Refusals.{answered};
ghost use Rattle.leaves.specs.Packed.{frames_in};
ghost use Rattle.dispatch.specs.Kept.{Kept};

use designs::activate::activate;
use designs::create::create;
use designs::deactivate::deactivate;
use designs::delete::delete;
use model::event::Design;
use model::frame::Pool;
use model::refusals::Refusal;
use model::sizes::Sizes;

// Frames and pool stay as they were.
pub fn design_event(
    sizes: Sizes,
    event: Design,
    frames: &[u64],
    pool: Pool,
    records: &[u32],
    numbers: &mut [u32],
    accounts: &mut [u16],
    maps: &[u16],
    limits: &[u16],
    parents: &[u16],
    highest: &mut [u32],
    frame_words: &[u32],
    free_queue: &[u16],
    removal_list: &[u16],
    addresses: &mut [u16],
    states: &mut [u8],
    owners: &[u8],
    free_map: &[u32],
    active: &mut [u8],
    updating: &[u8],
    images: &[u16],
    used: &[u16],
) -> Result<u32, Refusal>
    requires { Kept sizes
        (state_of (frames_in sizes frames.now) pool records.now numbers.old accounts.old maps.now limits.now parents.now highest.old
        frame_words.now free_queue.now removal_list.now addresses.old states.old owners.now free_map.now active.old updating.now images.now used.now) }
    ensures { leaves (answered result)
        (state_of (frames_in sizes frames.now) pool records.now numbers.new accounts.new maps.now limits.now parents.now highest.new
        frame_words.now free_queue.now removal_list.now addresses.new states.new owners.now free_map.now active.new updating.now images.now used.now)
        ≡ own sizes
        (state_of (frames_in sizes frames.now) pool records.now numbers.old accounts.old maps.now limits.now parents.now highest.old
        frame_words.now free_queue.now removal_list.now addresses.old states.old owners.now free_map.now active.old updating.now images.now used.now)
        (Event.Design event) }
{
    match event {
        Design::Create {
            slot,
            account,
            number,
        } => create(sizes, slot, account, number, numbers, accounts, highest),
        Design::Delete { slot } => delete(sizes, slot, numbers, accounts, maps, active),
        Design::Activate { slot } => activate(
            sizes, slot, numbers, maps, addresses, states, owners, active,
        ),
        Design::Deactivate { slot } => deactivate(
            sizes, slot, frames, numbers, maps, addresses, states, owners, active, updating,
        ),
    }
}
