// Delete: a slot is emptied, one store to the disk part.
ghost use Rattle.std.specs.Prelude.{◌≡◌};
ghost use Rattle.model.specs.declared.event.Design.TheVariants as Design;
ghost use Rattle.model.specs.declared.event.Event.TheVariants as Event;
ghost use Rattle.model.specs.Laws.Fit.{Within};
ghost use Rattle.model.specs.Laws.Own.{own};
ghost use Rattle.model.specs.Refusals.{answered};
ghost use Rattle.designs.specs.Seen.{entered_delete};

use crate::asks::ask_delete;
use leaves::numbers::fill_slot;
use model::refusals::Refusal;
use model::sizes::Sizes;

pub fn delete(
    sizes: Sizes,
    slot: usize,
    numbers: &mut [u32],
    accounts: &mut [u16],
    maps: &[u16],
    active: &[u8],
) -> Result<u32, Refusal>
    requires { Within sizes }
    ensures answer { answered result ≡ (own sizes (entered_delete numbers.old accounts.old maps.now active.now) (Event.Design (Design.Delete slot))).answer }
    ensures numbers { numbers.new ≡ (own sizes (entered_delete numbers.old accounts.old maps.now active.now) (Event.Design (Design.Delete slot))).left.disk.numbers }
    ensures accounts { accounts.new ≡ (own sizes (entered_delete numbers.old accounts.old maps.now active.now) (Event.Design (Design.Delete slot))).left.disk.accounts }
{
    ask_delete(sizes, slot, numbers, maps, active)?;
    fill_slot(slot, 0, 0, numbers, accounts);
    Ok(0)
}
