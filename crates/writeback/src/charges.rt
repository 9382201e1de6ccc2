// What is paid for a slot.
ghost use Rattle.std.specs.Prelude.{◌≡◌, ◌-◌, ◌≤◌, set};
ghost use Rattle.tables.specs.Base.{at};
ghost use Rattle.leaves.specs.Payers.{who_pays};

use leaves::cells::{at, put};
use leaves::payer::slot_payer;

// So many charges less for who pays for the slot.
pub fn uncharge(
    used: &mut [u16],
    accounts: &[u16],
    limits: &[u16],
    parents: &[u16],
    slot: usize,
    n: usize,
)
    requires { n ≤ at used.old (who_pays accounts.now limits.now parents.now slot) }
    ensures { used.new ≡ set used.old (who_pays accounts.now limits.now parents.now slot) (at used.old (who_pays accounts.now limits.now parents.now slot) - n) }
{
    if n == 0 {
        return;
    }
    let q = slot_payer(parents, limits, accounts, slot);
    let less = at(used, q) as usize - n;
    put(used, q, less as u16);
}
