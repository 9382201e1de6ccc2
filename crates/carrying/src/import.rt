// Import: its questions, then its stores in order, then the records, the used counts and the pool.
ghost use Rattle.std.specs.Prelude.{◌≡◌, ◌-◌, ◌%◌, ◌<◌, ◌≤◌, set};
ghost use Rattle.tables.specs.Base.{at};
ghost use Rattle.tables.specs.Store.{store};
ghost use Rattle.model.specs.Parts.{of_slot};
ghost use Rattle.model.specs.Payer.{payer};
ghost use Rattle.model.specs.Pool.{taken};
ghost use Rattle.model.specs.Import.{sheet_of, taking, entry};
ghost use Rattle.leaves.specs.FreeMap.{free_map_table};
ghost use Rattle.carrying.specs.Seen.{seen, records_after, Carrying, Sheeted};
ghost use Rattle.carrying.specs.Imports.{Importing, Affords, used_more, answered, entered_tables, left_tables, import_of};

use crate::asks::ask_import;
use crate::pages::carry_pages;
use crate::steps::store_slot;
use leaves::cells::{at, put};
use leaves::numbers::store_highest;
use leaves::payer::payer_of;
use leaves::pool::take;
use model::event::Answer;
use model::frame::Pool;
use model::sizes::Sizes;

// The most pages that a design has.
const PAGES: usize = 256;

// The stores, in order: the highest number first of all, then the records', pages rising, then the slot's, the last. The result is the last record taken + 1.
fn import_design(
    sizes: Sizes,
    slot: usize,
    account: u16,
    number: u32,
    hand: usize,
    sheet: &[u8],
    count: usize,
    records: &mut [u32],
    numbers: &mut [u32],
    accounts: &mut [u16],
    maps: &mut [u16],
    highest: &mut [u32],
    states: &mut [u8],
    owners: &mut [u8],
    map: &mut [u32],
) -> u32
    requires { (slot < sizes.slots) × Carrying sizes hand sheet.now count records.old states.old owners.old map.old × Sheeted sizes sheet.now count maps.old }
    ensures last { result ≡ (taking sizes (seen hand states.old owners.old) slot count).last }
    ensures records { records.new ≡ records_after sizes (seen hand states.old owners.old) slot (sheet_of sheet.now) count records.old }
    ensures numbers { numbers.new ≡ set numbers.old slot number }
    ensures accounts { accounts.new ≡ set accounts.old slot account }
    ensures maps { maps.new ≡ store maps.old (of_slot sizes slot) (λ i. entry sizes (seen hand states.old owners.old) slot account number (sheet_of sheet.now) (i % sizes.pages)) }
    ensures highest { highest.new ≡ set highest.old 0 number }
    ensures states { states.new ≡ (taking sizes (seen hand states.old owners.old) slot count).states }
    ensures owners { owners.new ≡ (taking sizes (seen hand states.old owners.old) slot count).owners }
    ensures map { map.new ≡ free_map_table sizes (at (taking sizes (seen hand states.old owners.old) slot count).states) }
{
    store_highest(highest, number);
    let mut entries: [u16; PAGES] = [0; PAGES];
    let last = carry_pages(
        sizes,
        slot,
        hand,
        sheet,
        count,
        records,
        states,
        owners,
        map,
        &mut entries,
    );
    store_slot(
        sizes.pages,
        slot,
        account,
        number,
        &entries,
        numbers,
        accounts,
        maps,
    );
    last
}

// So many pages more are used, of who pays for an account.
fn charge(used: &mut [u16], limits: &[u16], parents: &[u16], account: usize, count: usize)
    requires { Affords used.old limits.now (payer (at parents.now) (at limits.now) account) count }
    ensures { used.new ≡ used_more used.old (payer (at parents.now) (at limits.now) account) count }
{
    if count == 0 {
        return;
    }
    let payer = payer_of(parents, limits, account);
    let pages = usize::from(at(used, payer)) + count;
    put(used, payer, pages as u16);
}

// The hand just past the last record taken (record + 1; 0 for none); so many records are free less.
fn take_all(sizes: Sizes, last: u32, count: usize, pool: Pool) -> Pool
    requires { count ≤ pool.free }
    ensures { result ≡ record { hand = (taken sizes last pool).hand; free = pool.free - count } }
{
    let moved = take(sizes, last, pool);
    Pool {
        hand: moved.hand,
        free: pool.free - (count as u32),
    }
}

// The pool and the answer.
#[derive(Drop)]
pub struct Imported {
    pub pool: Pool,
    pub answer: Answer,
}

// The event, once questions 1 and 2 are asked.
pub fn import(
    sizes: Sizes,
    slot: usize,
    account: usize,
    number: u32,
    sheet: &[u8],
    pool: Pool,
    records: &mut [u32],
    numbers: &mut [u32],
    accounts: &mut [u16],
    maps: &mut [u16],
    limits: &[u16],
    parents: &[u16],
    highest: &mut [u32],
    states: &mut [u8],
    owners: &mut [u8],
    free_map: &mut [u32],
    used: &mut [u16],
) -> Imported
    requires { Importing sizes pool records.old maps.old states.old owners.old free_map.old }
    ensures { answered result.answer (left_tables result.pool records.new numbers.new accounts.new maps.new highest.new states.new owners.new free_map.new used.new)
        ≡ import_of sizes slot account number sheet.now limits.now parents.now
        (entered_tables pool records.old numbers.old accounts.old maps.old highest.old states.old owners.old free_map.old used.old) }
{
    let told = match ask_import(
        sizes, slot, account, number, sheet, pool.free, numbers, limits, parents, highest, used,
    ) {
        Ok(told) => told,
        Err(no) => {
            let answer = Answer::from(no);
            return Imported { pool, answer };
        }
    };
    let last = import_design(
        sizes,
        slot,
        account as u16,
        number,
        pool.hand as usize,
        sheet,
        told.count,
        records,
        numbers,
        accounts,
        maps,
        highest,
        states,
        owners,
        free_map,
    );
    charge(used, limits, parents, account, told.count);
    Imported {
        pool: take_all(sizes, last, told.count, pool),
        answer: Answer::from(Ok(told.number)),
    }
}
