// Who pays for an account's pages: found by recursion, the account number falling at each call; for many slots, once an account.
ghost use Rattle.std.specs.Prelude.{◌≡◌, ◌<◌, ◌≤◌, length};
ghost use Rattle.tables.specs.Base.{at, tab};
ghost use Rattle.tables.specs.Rule.{same, each, Holds};
ghost use Rattle.model.specs.Payer.{payer};

use crate::cells::at;
use model::sizes::Sizes;

// The account that pays. On tables that break the disk rule too: one whose parent is not lower pays itself.
pub fn payer_of(parents: &[u16], limits: &[u16], account: usize) -> usize
    ensures { result ≡ payer (at parents.now) (at limits.now) account }
{
    if account == 0 {
        return account;
    }
    if 0 < at(limits, account) {
        return account;
    }
    let parent = usize::from(at(parents, account));
    if parent < account {
        return payer_of(parents, limits, parent);
    }
    account
}

// The payer of a slot's account.
pub fn slot_payer(parents: &[u16], limits: &[u16], accounts: &[u16], slot: usize) -> usize
    ensures { result ≡ payer (at parents.now) (at limits.now) (at accounts.now slot) }
{
    payer_of(parents, limits, usize::from(at(accounts, slot)))
}

// Who pays for the next account, where those who pay for the lower ones stand in a table.
fn payer_next(parents: &[u16], limits: &[u16], payers: &[u16], next: usize) -> usize
    requires { Holds (each next (λ q. same (at payers.now q) (payer (at parents.now) (at limits.now) q))) }
    ensures { result ≡ payer (at parents.now) (at limits.now) next }
{
    if next == 0 {
        return next;
    }
    if 0 < at(limits, next) {
        return next;
    }
    let parent = usize::from(at(parents, next));
    if parent < next {
        return usize::from(at(payers, parent));
    }
    next
}

// Who pays for each account below `count`: none is walked up from, since its parent's payer stands in the table already.
fn account_payers(parents: &[u16], limits: &[u16], count: usize, payers: &mut [u16])
    requires { (count ≤ length payers.old) × (count < 65536) }
    ensures { Holds (each count (λ q. same (at payers.new q) (payer (at parents.now) (at limits.now) q))) }
{
    for q in 0..count {
        let payer = payer_next(parents, limits, payers, q);
        payers[q] = payer as u16;
    }
}

// Who pays for an account: looked up below `count`, found anew above.
fn payer_in(parents: &[u16], limits: &[u16], count: usize, payers: &[u16], account: usize) -> usize
    requires { Holds (each count (λ q. same (at payers.now q) (payer (at parents.now) (at limits.now) q))) }
    ensures { result ≡ payer (at parents.now) (at limits.now) account }
{
    if account < count {
        return usize::from(at(payers, account));
    }
    payer_of(parents, limits, account)
}

// The payer of each account of a list, by those of the accounts below `count`, in a table of zeros.
fn list_payers(
    parents: &[u16],
    limits: &[u16],
    count: usize,
    payers: &[u16],
    accounts: &[u16],
    table: &mut [u16],
)
    requires { (length accounts.now ≤ length table.old) × Holds (each (length table.old) (λ s. same (at table.old s) 0)) × Holds (each count (λ q. same (at payers.now q) (payer (at parents.now) (at limits.now) q))) }
    ensures { table.new ≡ tab (length table.old) (λ s. payer (at parents.now) (at limits.now) (at accounts.now s)) 0 }
{
    for (s, account) in accounts.iter().enumerate() {
        table[s] = payer_in(parents, limits, count, payers, usize::from(*account)) as u16;
    }
}

// The payer of each account of a list, in a table of zeros: past the list's end these are account 0's payer already. Each account's payer is found once.
pub fn fill_payers(parents: &[u16], limits: &[u16], accounts: &[u16], table: &mut [u16])
    requires { (length accounts.now ≤ length table.old) × Holds (each (length table.old) (λ s. same (at table.old s) 0)) }
    ensures { table.new ≡ tab (length table.old) (λ s. payer (at parents.now) (at limits.now) (at accounts.now s)) 0 }
{
    let mut payers: [u16; Sizes::MOST_ACCOUNTS] = [0; Sizes::MOST_ACCOUNTS];
    let count = parents.len().min(Sizes::MOST_ACCOUNTS);
    account_payers(parents, limits, count, &mut payers);
    list_payers(parents, limits, count, &payers, accounts, table);
}
