// The rules of slots, one function a rule: on the disk, and in memory.
ghost use Rattle.std.specs.Prelude.{◌≡◌, ◌≤◌, ◌<◌, length};
ghost use Rattle.tables.specs.Base.{at};
ghost use Rattle.tables.specs.Rule.{same, below, ◌then◌, each, test};
ghost use Rattle.model.specs.Rules.{lower};
ghost use Rattle.rules.specs.Passes.{disk_slot, memory_slot, new_number, new_numbers};

// An empty slot has account 0;
fn empty_account(number: u32, account: u16) -> bool
    ensures { result ≡ test (same number 0 then same account 0) }
{
    (number != 0) | (account == 0)
}

// an account is below Q.
fn account_fit(accounts: usize, account: u16) -> bool
    ensures { result ≡ test (below account accounts) }
{
    (account as usize) < accounts
}

fn disk_slot_ok(accounts: usize, number: u32, account: u16) -> bool
    ensures { result ≡ test (disk_slot accounts number account) }
{
    empty_account(number, account) & account_fit(accounts, account)
}

pub fn disk_slots_ok(slots: usize, accounts: usize, numbers: &[u32], account: &[u16]) -> bool
    requires { (slots ≤ length numbers.now) × (slots ≤ length account.now) }
    ensures { result ≡ test (each slots (λ s. disk_slot accounts (at numbers.now s) (at account.now s))) }
{
    (0..slots).all(|s| disk_slot_ok(accounts, numbers[s], account[s]))
}

// A parent is lower than its account; account 0's is never looked at.
fn is_lower(account: usize, parent: u16) -> bool
    ensures { result ≡ test (below 0 account then below parent account) }
{
    !(0 < account) | ((parent as usize) < account)
}

// Each account but 0 has a parent with a lower number.
pub fn parents_ok(accounts: usize, parents: &[u16]) -> bool
    requires { accounts ≤ length parents.now }
    ensures { result ≡ test (lower accounts (at parents.now)) }
{
    (0..accounts).all(|a| is_lower(a, parents[a]))
}

// No number stands in two filled slots: a slot is empty, or its number stands in none before it.
fn number_once(numbers: &[u32], s: usize) -> bool
    requires { s < length numbers.now }
    ensures { result ≡ test (new_number numbers.now s) }
{
    let number = numbers[s];
    if number == 0 {
        return true;
    }
    (0..s).all(|t| numbers[t] != number)
}

pub fn numbers_ok(slots: usize, numbers: &[u32]) -> bool
    requires { slots ≤ length numbers.now }
    ensures { result ≡ test (new_numbers slots numbers.now) }
{
    (0..slots).all(|s| number_once(numbers, s))
}

// A switch is 0 or 1;
fn switch_fit(switch: u8) -> bool
    ensures { result ≡ test (below switch 2) }
{
    switch < 2
}

// an active slot is filled,
fn active_filled(number: u32, active: u8) -> bool
    ensures { result ≡ test (same active 1 then below 0 number) }
{
    (active != 1) | (0 < number)
}

// an inactive one has no update.
fn update_active(active: u8, updating: u8) -> bool
    ensures { result ≡ test (same updating 1 then same active 1) }
{
    (updating != 1) | (active == 1)
}

fn memory_slot_ok(number: u32, active: u8, updating: u8) -> bool
    ensures { result ≡ test (memory_slot number active updating) }
{
    switch_fit(active)
        & switch_fit(updating)
        & active_filled(number, active)
        & update_active(active, updating)
}

pub fn memory_slots_ok(slots: usize, numbers: &[u32], active: &[u8], updating: &[u8]) -> bool
    requires { (slots ≤ length numbers.now) × (slots ≤ length active.now) × (slots ≤ length updating.now) }
    ensures { result ≡ test (each slots (λ s. memory_slot (at numbers.now s) (at active.now s) (at updating.now s))) }
{
    (0..slots).all(|s| memory_slot_ok(numbers[s], active[s], updating[s]))
}
