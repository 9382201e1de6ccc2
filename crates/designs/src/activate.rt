// Activate: a design's pages take their addresses from its map, and its filed records are live.
ghost use Rattle.std.specs.Prelude.{◌≡◌};
ghost use Rattle.model.specs.declared.event.Design.TheVariants as Design;
ghost use Rattle.model.specs.declared.event.Event.TheVariants as Event;
ghost use Rattle.model.specs.Laws.Own.{own};
ghost use Rattle.model.specs.Refusals.{answered};
ghost use Rattle.designs.specs.Needs.{Turning};
ghost use Rattle.designs.specs.Seen.{entered_activate};

use crate::asks::ask_activate;
use leaves::cells::put;
use leaves::slots::copy_slot;
use leaves::states::move_all;
use model::lines::{FILED, LIVE};
use model::refusals::Refusal;
use model::sizes::Sizes;

pub fn activate(
    sizes: Sizes,
    slot: usize,
    numbers: &[u32],
    maps: &[u16],
    addresses: &mut [u16],
    states: &mut [u8],
    owners: &[u8],
    active: &mut [u8],
) -> Result<u32, Refusal>
    requires { Turning sizes maps.now addresses.old states.old owners.now }
    ensures answer { answered result ≡ (own sizes (entered_activate numbers.now maps.now addresses.old states.old owners.now active.old) (Event.Design (Design.Activate slot))).answer }
    ensures addresses { addresses.new ≡ (own sizes (entered_activate numbers.now maps.now addresses.old states.old owners.now active.old) (Event.Design (Design.Activate slot))).left.memory.held.addresses }
    ensures states { states.new ≡ (own sizes (entered_activate numbers.now maps.now addresses.old states.old owners.now active.old) (Event.Design (Design.Activate slot))).left.memory.held.states }
    ensures active { active.new ≡ (own sizes (entered_activate numbers.now maps.now addresses.old states.old owners.now active.old) (Event.Design (Design.Activate slot))).left.memory.slots.active }
{
    ask_activate(sizes, slot, numbers, active)?;
    copy_slot(maps, addresses, sizes.pages, slot);
    move_all(states, owners, slot, FILED, LIVE);
    put(active, slot, 1);
    Ok(0)
}
