// Move: pages of limit shift between an account and its parent, a store of the limits table, and the used counts are worked out
// afresh. What would be is worked out beside the tables, so that a refusal has touched nothing.
ghost use Rattle.std.specs.Prelude.{◌≡◌, ◌+◌, ◌≤◌, ◌<◌, length};
ghost use Rattle.tables.specs.Base.{at, tab};
ghost use Rattle.tables.specs.Questions.{first_no};
ghost use Rattle.tables.specs.Rule.{same, below, non, ◌and◌, ◌or◌, test};
ghost use Rattle.model.specs.declared.event.Account.TheVariants as Account;
ghost use Rattle.model.specs.declared.event.Event.TheVariants as Event;
ghost use Rattle.model.specs.Accounts.{shifted};
ghost use Rattle.model.specs.Refusals.{said, answered};
ghost use Rattle.model.specs.Laws.Own.{own};
ghost use Rattle.accounts.specs.Asks.{is_parent, kin, first_asked, enough};
ghost use Rattle.leaves.specs.Packed.{frames_entered};
ghost use Rattle.accounts.specs.Seen.{entered_account};
ghost use Rattle.accounts.specs.Promises.{ReadyGiven};

use crate::copies::{copy16, put_counts};
use crate::count::count_used;
use leaves::cells::{at, put};
use model::refusals::Refusal;
use model::sizes::Sizes;

// Account a is b's parent.
fn is_parent(a: usize, b: usize, parents: &[u16]) -> bool
    ensures { result ≡ test (is_parent (at parents.now) a b) }
{
    (0 < b) & (usize::from(at(parents, b)) == a)
}

// The two are parent and child, m is above 0, the giver has m, the taker stays at 65,535 or below.
fn can_move(giver: usize, taker: usize, pages: usize, limits: &[u16], parents: &[u16]) -> bool
    ensures { result ≡ test (kin (at limits.now) (at parents.now) giver taker pages) }
{
    if !(is_parent(giver, taker, parents) | is_parent(taker, giver, parents)) {
        return false;
    }
    if (pages == 0) | (usize::from(at(limits, giver)) < pages) {
        return false;
    }
    usize::from(at(limits, taker)) + pages < 65536
}

// Questions 3 and 25.
fn ask_move(
    accounts: usize,
    giver: usize,
    taker: usize,
    pages: usize,
    limits: &[u16],
    parents: &[u16],
) -> Result<(), Refusal>
    ensures { said result ≡ first_no (first_asked accounts (at limits.now) (at parents.now) giver taker pages) }
{
    if !((giver < accounts) & (taker < accounts)) {
        return Err(Refusal::NoRange);
    }
    if !can_move(giver, taker, pages, limits, parents) {
        return Err(Refusal::NoMove);
    }
    Ok(())
}

// An account whose limit or count changes has used at most its limit.
fn has_enough(limit: u16, used: u16, wanted: u16, total: usize) -> bool
    ensures { result ≡ test ((same wanted limit and same total used) or non (below wanted total)) }
{
    let same = (wanted == limit) & (total == usize::from(used));
    same | (total <= usize::from(wanted))
}

// Question 26: each account has enough.
fn within(accounts: usize, limits: &[u16], used: &[u16], wanted: &[u16], totals: &[usize]) -> bool
    requires { (accounts ≤ length limits.now) × (accounts ≤ length used.now) × (accounts ≤ length wanted.now) × (accounts ≤ length totals.now) }
    ensures { result ≡ test (enough accounts (at limits.now) (at used.now) (at wanted.now) (at totals.now)) }
{
    (0..accounts).all(|a| has_enough(limits[a], used[a], wanted[a], totals[a]))
}

// The limits that there would be, past the accounts 0.
fn shift_limits(limits: &[u16], giver: usize, taker: usize, pages: usize, wanted: &mut [u16])
    requires { (length limits.now ≤ length wanted.old) × (pages ≤ at limits.now giver) × (at limits.now taker + pages < 65536) }
    ensures { wanted.new ≡ shifted (tab (length wanted.old) (at limits.now) 0) giver taker pages }
{
    copy16(limits, wanted);
    let less = usize::from(at(wanted, giver)) - pages;
    let more = usize::from(at(wanted, taker)) + pages;
    put(wanted, giver, less as u16);
    put(wanted, taker, more as u16);
}

pub fn move_pages(
    sizes: Sizes,
    giver: usize,
    taker: usize,
    pages: usize,
    frames: &[u64],
    accounts: &[u16],
    maps: &[u16],
    limits: &mut [u16],
    parents: &[u16],
    addresses: &[u16],
    states: &[u8],
    active: &[u8],
    used: &mut [u16],
) -> Result<u32, Refusal>
    requires { ReadyGiven sizes frames accounts maps limits addresses states active used }
    ensures answer { answered result ≡ (own sizes (entered_account (frames_entered sizes frames) accounts maps limits parents addresses states active used) (Event.Account (Account.Move giver taker pages))).answer }
    ensures limits { limits.new ≡ (own sizes (entered_account (frames_entered sizes frames) accounts maps limits parents addresses states active used) (Event.Account (Account.Move giver taker pages))).left.disk.limits }
    ensures used { used.new ≡ (own sizes (entered_account (frames_entered sizes frames) accounts maps limits parents addresses states active used) (Event.Account (Account.Move giver taker pages))).left.memory.used }
{
    ask_move(sizes.accounts, giver, taker, pages, limits, parents)?;
    let mut wanted: [u16; Sizes::MOST_ACCOUNTS] = [0; Sizes::MOST_ACCOUNTS];
    shift_limits(limits, giver, taker, pages, &mut wanted);
    let mut totals: [usize; Sizes::MOST_ACCOUNTS] = [0; Sizes::MOST_ACCOUNTS];
    count_used(
        sizes,
        frames,
        &mut totals,
        accounts,
        maps,
        &wanted,
        parents,
        addresses,
        states,
        active,
    );
    if !within(sizes.accounts, limits, used, &wanted, &totals) {
        return Err(Refusal::OverLimit);
    }
    copy16(&wanted, limits);
    put_counts(&totals, used);
    Ok(0)
}
