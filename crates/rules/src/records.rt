// The rules of a record's state and slot, one function a rule.
ghost use Rattle.std.specs.Prelude.{◌≡◌, ◌*◌, ◌/◌, ◌≤◌, ◌<◌, length};
ghost use Rattle.tables.specs.Base.{at};
ghost use Rattle.tables.specs.Marks.{bit_of};
ghost use Rattle.tables.specs.Rule.{same, below, ◌or◌, ◌then◌, test};
ghost use Rattle.model.specs.Lines.{FILED, NULLED, LIVE, LEAVING};
ghost use Rattle.rules.specs.Passes.{record_row, record_rows};

use leaves::marks::is_marked;
use model::lines::{FILED, LEAVING, LIVE, NULLED};

// A state is one of six,
fn state_fit(state: u8) -> bool
    ensures { result ≡ test (below state 6) }
{
    state < 6
}

// an owner is below S.
fn owner_fit(slots: usize, owner: u8) -> bool
    ensures { result ≡ test (below owner slots) }
{
    (owner as usize) < slots
}

// What is nulled or live is held by a page;
fn held_by(r: usize, state: u8, held: &[u32]) -> bool
    requires { r / 32 < length held.now }
    ensures { result ≡ test ((same state NULLED or same state LIVE) then same (bit_of held.now r) 1) }
{
    if (state == NULLED) | (state == LIVE) {
        return is_marked(held, r);
    }
    true
}

// what is filed is listed by an inactive design (by a design: that it is inactive follows from the rules of its page).
fn filed_by(r: usize, state: u8, listed: &[u32]) -> bool
    requires { r / 32 < length listed.now }
    ensures { result ≡ test (same state FILED then same (bit_of listed.now r) 1) }
{
    if state == FILED {
        return is_marked(listed, r);
    }
    true
}

// No record of a slot is leaving unless its update is under way.
fn leaving_begun(state: u8, owner: usize, updating: &[u8]) -> bool
    requires { owner < length updating.now }
    ensures { result ≡ test (same state LEAVING then same (at updating.now owner) 1) }
{
    if state == LEAVING {
        return updating[owner] == 1;
    }
    true
}

fn record_ok(
    slots: usize,
    r: usize,
    state: u8,
    owner: u8,
    held: &[u32],
    listed: &[u32],
    updating: &[u8],
) -> bool
    requires { (slots ≤ length updating.now) × (r / 32 < length held.now) × (r / 32 < length listed.now) }
    ensures { result ≡ test (record_row slots (bit_of held.now r) (bit_of listed.now r) state owner (at updating.now)) }
{
    if !owner_fit(slots, owner) {
        return false;
    }
    state_fit(state)
        & held_by(r, state, held)
        & filed_by(r, state, listed)
        & leaving_begun(state, owner as usize, updating)
}

pub fn records_ok(
    records: usize,
    slots: usize,
    held: &[u32],
    listed: &[u32],
    states: &[u8],
    owners: &[u8],
    updating: &[u8],
) -> bool
    requires { (records ≤ 32 * length held.now) × (records ≤ 32 * length listed.now) × (records ≤ length states.now) × (records ≤ length owners.now) × (slots ≤ length updating.now) }
    ensures { result ≡ test (record_rows records slots (bit_of held.now) (bit_of listed.now) states.now owners.now updating.now) }
{
    (0..records).all(|r| record_ok(slots, r, states[r], owners[r], held, listed, updating))
}
