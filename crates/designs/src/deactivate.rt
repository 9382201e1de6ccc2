// Deactivate: a design's pages have no address, and its live records are filed.
ghost use Rattle.std.specs.Prelude.{◌≡◌};
ghost use Rattle.model.specs.declared.event.Design.TheVariants as Design;
ghost use Rattle.model.specs.declared.event.Event.TheVariants as Event;
ghost use Rattle.model.specs.Laws.Own.{own};
ghost use Rattle.model.specs.Refusals.{answered};
ghost use Rattle.leaves.specs.Packed.{frames_entered};
ghost use Rattle.designs.specs.Needs.{Turning};
ghost use Rattle.designs.specs.Seen.{entered_deactivate};

use crate::asks::ask_deactivate;
use leaves::cells::put;
use leaves::slots::clear_slot;
use leaves::states::move_all;
use model::lines::{FILED, LIVE};
use model::refusals::Refusal;
use model::sizes::Sizes;

pub fn deactivate(
    sizes: Sizes,
    slot: usize,
    frames: &[u64],
    numbers: &[u32],
    maps: &[u16],
    addresses: &mut [u16],
    states: &mut [u8],
    owners: &[u8],
    active: &mut [u8],
    updating: &[u8],
) -> Result<u32, Refusal>
    requires { Turning sizes maps.now addresses.old states.old owners.now }
    ensures answer { answered result ≡ (own sizes (entered_deactivate (frames_entered sizes frames) numbers.now maps.now addresses.old states.old owners.now active.old updating.now) (Event.Design (Design.Deactivate slot))).answer }
    ensures addresses { addresses.new ≡ (own sizes (entered_deactivate (frames_entered sizes frames) numbers.now maps.now addresses.old states.old owners.now active.old updating.now) (Event.Design (Design.Deactivate slot))).left.memory.held.addresses }
    ensures states { states.new ≡ (own sizes (entered_deactivate (frames_entered sizes frames) numbers.now maps.now addresses.old states.old owners.now active.old updating.now) (Event.Design (Design.Deactivate slot))).left.memory.held.states }
    ensures active { active.new ≡ (own sizes (entered_deactivate (frames_entered sizes frames) numbers.now maps.now addresses.old states.old owners.now active.old updating.now) (Event.Design (Design.Deactivate slot))).left.memory.slots.active }
{
    ask_deactivate(
        sizes, slot, frames, numbers, maps, addresses, states, owners, active, updating,
    )?;
    clear_slot(addresses, sizes.pages, slot);
    move_all(states, owners, slot, LIVE, FILED);
    put(active, slot, 0);
    Ok(0)
}
