// The questions of an import and of an export, in parts.
ghost use Rattle.std.specs.Prelude.{◌≡◌, [], suc, ◌+◌, IfOk};
ghost use Rattle.tables.specs.Questions.{first_no};
ghost use Rattle.tables.specs.Rule.{below, test};
ghost use Rattle.sheets.specs.Sheet.{number_in, count_in};
ghost use Rattle.model.specs.Questions.{sheet_questions, import_questions};
ghost use Rattle.model.specs.Refusals.{said};
ghost use Rattle.carrying.specs.Seen.{seen_asked};
ghost use Rattle.carrying.specs.Asks.{pages_asked};

use designs::asks::ask_create;
use leaves::cells::at;
use leaves::payer::payer_of;
use model::refusals::Refusal;
use model::sizes::Sizes;
use sheets::read::{Sheet, parse};

// So many pages more for an account that has a limit and uses some: at most its limit.
fn affords(limit: u16, used: u16, count: usize) -> bool
    ensures { result ≡ test (below (used + count) (suc limit)) }
{
    let most = usize::from(limit);
    let in_use = usize::from(used);
    in_use <= most && count <= most - in_use
}

// 30, then, if the sheet has pages, 18 and 19 for all together.
fn ask_pages(
    sizes: Sizes,
    account: usize,
    words: u32,
    pages: u32,
    count: usize,
    free: u32,
    limits: &[u16],
    parents: &[u16],
    used: &[u16],
) -> Result<(), Refusal>
    ensures { said result ≡ first_no (pages_asked sizes account words pages count free limits.now parents.now used.now) }
{
    if words as usize != sizes.words || pages as usize != sizes.pages {
        return Err(Refusal::SheetOther);
    }
    if count == 0 {
        return Ok(());
    }
    let payer = payer_of(parents, limits, account);
    if !affords(at(limits, payer), at(used, payer), count) {
        return Err(Refusal::AtLimit);
    }
    if (free as usize) < count {
        return Err(Refusal::NoRecord);
    }
    Ok(())
}

// 29, then the others about the sheet. Where all say yes: what the sheet says of itself.
fn ask_sheet(
    sizes: Sizes,
    account: usize,
    sheet: &[u8],
    free: u32,
    limits: &[u16],
    parents: &[u16],
    used: &[u16],
) -> Result<Sheet, Refusal>
    ensures asked { said result ≡ first_no (sheet_questions sizes (seen_asked free [] limits.now parents.now [] used.now) account sheet.now) }
    ensures told { IfOk result (λ s. (s.number ≡ number_in sheet.now) × (s.count ≡ count_in sheet.now)) }
{
    let Some(told) = parse(sheet) else {
        return Err(Refusal::SheetWrong);
    };
    ask_pages(
        sizes, account, told.words, told.pages, told.count, free, limits, parents, used,
    )?;
    Ok(told)
}

// Import's, in order: 3, 32, 5, 6 and 33, as create asks them, then those about the sheet.
pub fn ask_import(
    sizes: Sizes,
    slot: usize,
    account: usize,
    number: u32,
    sheet: &[u8],
    free: u32,
    numbers: &[u32],
    limits: &[u16],
    parents: &[u16],
    highest: &[u32],
    used: &[u16],
) -> Result<Sheet, Refusal>
    ensures asked { said result ≡ first_no (import_questions sizes (seen_asked free numbers.now limits.now parents.now highest.now used.now) slot account number sheet.now) }
    ensures told { IfOk result (λ s. (s.number ≡ number_in sheet.now) × (s.count ≡ count_in sheet.now)) }
{
    ask_create(sizes, slot, account, number, numbers, highest)?;
    ask_sheet(sizes, account, sheet, free, limits, parents, used)
}
