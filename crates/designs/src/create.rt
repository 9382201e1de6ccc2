// Create: the new highest number is stored, then an empty slot takes number and account; each is one store to the disk part, in this order.
ghost use Rattle.std.specs.Prelude.{◌≡◌};
ghost use Rattle.model.specs.declared.event.Design.TheVariants as Design;
ghost use Rattle.model.specs.declared.event.Event.TheVariants as Event;
ghost use Rattle.model.specs.Laws.Fit.{Within};
ghost use Rattle.model.specs.Laws.Own.{own};
ghost use Rattle.model.specs.Refusals.{answered};
ghost use Rattle.designs.specs.Seen.{entered_create};

use crate::asks::ask_create;
use leaves::numbers::{fill_slot, store_highest};
use model::refusals::Refusal;
use model::sizes::Sizes;

pub fn create(
    sizes: Sizes,
    slot: usize,
    account: usize,
    number: u32,
    numbers: &mut [u32],
    accounts: &mut [u16],
    highest: &mut [u32],
) -> Result<u32, Refusal>
    requires { Within sizes }
    ensures answer { answered result ≡ (own sizes (entered_create numbers.old accounts.old highest.old) (Event.Design (Design.Create slot account number))).answer }
    ensures numbers { numbers.new ≡ (own sizes (entered_create numbers.old accounts.old highest.old) (Event.Design (Design.Create slot account number))).left.disk.numbers }
    ensures accounts { accounts.new ≡ (own sizes (entered_create numbers.old accounts.old highest.old) (Event.Design (Design.Create slot account number))).left.disk.accounts }
    ensures highest { highest.new ≡ (own sizes (entered_create numbers.old accounts.old highest.old) (Event.Design (Design.Create slot account number))).left.disk.highest }
{
    ask_create(sizes, slot, account, number, numbers, highest)?;
    store_highest(highest, number);
    fill_slot(slot, account as u16, number, numbers, accounts);
    Ok(0)
}
