// Limit: an account's limit is set, a store to the disk part alone; where it may change who pays, the used counts are worked out afresh.
ghost use Rattle.std.specs.Prelude.{◌≡◌};
ghost use Rattle.tables.specs.Rule.{test};
ghost use Rattle.model.specs.declared.event.Account.TheVariants as Account;
ghost use Rattle.model.specs.declared.event.Event.TheVariants as Event;
ghost use Rattle.model.specs.Refusals.{answered};
ghost use Rattle.model.specs.Laws.Own.{own};
ghost use Rattle.leaves.specs.Packed.{frames_entered};
ghost use Rattle.accounts.specs.Asks.{stays_payer};
ghost use Rattle.accounts.specs.Seen.{entered_account};
ghost use Rattle.accounts.specs.Promises.{LimitGiven};

use crate::copies::put_counts;
use crate::count::count_used;
use leaves::cells::{at, put};
use model::refusals::Refusal;
use model::sizes::Sizes;

// Who pays stays as it is: the account is 0, or its limit is above 0 before and after.
fn stays_payer(account: usize, before: usize, after: usize) -> bool
    ensures { result ≡ test (stays_payer account before after) }
{
    (account == 0) | ((0 < before) & (0 < after))
}

pub fn limit(
    sizes: Sizes,
    account: usize,
    pages: usize,
    frames: &[u64],
    accounts: &[u16],
    maps: &[u16],
    limits: &mut [u16],
    parents: &[u16],
    addresses: &[u16],
    states: &[u8],
    active: &[u8],
    used: &mut [u16],
) -> Result<u32, Refusal>
    requires { LimitGiven sizes frames accounts maps limits parents addresses states active used }
    ensures answer { answered result ≡ (own sizes (entered_account (frames_entered sizes frames) accounts maps limits parents addresses states active used) (Event.Account (Account.Limit account pages))).answer }
    ensures limits { limits.new ≡ (own sizes (entered_account (frames_entered sizes frames) accounts maps limits parents addresses states active used) (Event.Account (Account.Limit account pages))).left.disk.limits }
    ensures used { used.new ≡ (own sizes (entered_account (frames_entered sizes frames) accounts maps limits parents addresses states active used) (Event.Account (Account.Limit account pages))).left.memory.used }
{
    let in_range = (account < sizes.accounts) & (pages < 65536);
    if !in_range {
        return Err(Refusal::NoRange);
    }
    let stays = stays_payer(account, usize::from(at(limits, account)), pages);
    put(limits, account, pages as u16);
    if stays {
        return Ok(0);
    }
    let mut totals: [usize; Sizes::MOST_ACCOUNTS] = [0; Sizes::MOST_ACCOUNTS];
    count_used(
        sizes,
        frames,
        &mut totals,
        accounts,
        maps,
        limits,
        parents,
        addresses,
        states,
        active,
    );
    put_counts(&totals, used);
    Ok(0)
}
