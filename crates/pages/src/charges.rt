// What a write asks of the account that pays, and charges to it.
ghost use Rattle.std.specs.Prelude.{◌≡◌, true, not, ◌&&◌, ltb};
ghost use Rattle.tables.specs.Base.{if, at};
ghost use Rattle.tables.specs.Rule.{test};
ghost use Rattle.leaves.specs.Payers.{who_pays};
ghost use Rattle.pages.specs.Writes.{is_charged, charged1};

use crate::supply::{Way, way_of};
use leaves::cells::{at, put};
use leaves::payer::slot_payer;

// Whether a page in a frame is charged: its frame is modified, or its address is live.
pub fn is_charged(page: usize, modified: u8, addresses: &[u16], states: &[u8]) -> bool
    ensures { result ≡ test (is_charged modified addresses.now states.now page) }
{
    modified == 1 || matches!(way_of(page, addresses, states), Way::Live)
}

// Question 18: whether the page is charged, or the slot's payer has used below limit. The payer's used count goes up by one where it is the first.
pub fn pay(
    charged: bool,
    slot: usize,
    accounts: &[u16],
    limits: &[u16],
    parents: &[u16],
    used: &mut [u16],
) -> bool
    ensures told { result ≡ if charged true
        (ltb (at used.old (who_pays accounts.now limits.now parents.now slot))
        (at limits.now (who_pays accounts.now limits.now parents.now slot))) }
    ensures used { used.new ≡ if (result && not charged)
        (charged1 used.old (who_pays accounts.now limits.now parents.now slot)) used.old }
{
    if charged {
        return true;
    }
    let payer = slot_payer(parents, limits, accounts, slot);
    let count = at(used, payer);
    if count < at(limits, payer) {
        put(used, payer, count + 1);
        return true;
    }
    false
}
