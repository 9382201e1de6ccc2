// The pages of a sheet: each takes a record, which is stored by a step of its own.
ghost use Rattle.std.specs.Prelude.{◌≡◌, suc, ◌-◌, ◌/◌, ◌%◌, ◌<◌, set};
ghost use Rattle.tables.specs.Base.{at};
ghost use Rattle.tables.specs.Rule.{same};
ghost use Rattle.tables.specs.Store.{store};
ghost use Rattle.model.specs.Lines.{FILED};
ghost use Rattle.model.specs.Parts.{picked};
ghost use Rattle.model.specs.Import.{sheet_of, taking};
ghost use Rattle.leaves.specs.FreeMap.{free_map_table};
ghost use Rattle.sheets.specs.Sheet.{page_in, word_in};
ghost use Rattle.carrying.specs.Seen.{seen, records_after, entries_after, Carrying, Page};

use crate::steps::store_record;
use crate::take::take_record;
use leaves::cells::put;
use model::sizes::Sizes;
use sheets::read::page_in;

// The k-th page of a sheet takes a record, which is stored by a step of its own; `entries` gets what will list it. The result is that record + 1.
fn carry_page(
    sizes: Sizes,
    slot: usize,
    hand: usize,
    last: u32,
    sheet: &[u8],
    k: usize,
    records: &mut [u32],
    states: &mut [u8],
    owners: &mut [u8],
    map: &mut [u32],
    entries: &mut [u16],
) -> u32
    requires { (slot < 256) × Page sizes hand sheet.now k last records.old states.old map.old }
    ensures taken { result ≡ suc (picked sizes (at states.old) hand last) }
    ensures states { states.new ≡ set states.old (picked sizes (at states.old) hand last) FILED }
    ensures owners { owners.new ≡ set owners.old (picked sizes (at states.old) hand last) slot }
    ensures map { map.new ≡ free_map_table sizes (at states.new) }
    ensures entries { entries.new ≡ set entries.old (page_in sheet.now k) result }
    ensures records { records.new ≡ store records.old (λ i. same (i / sizes.words) (result - 1)) (λ i. word_in sheet.now k (i % sizes.words)) }
{
    let w = sizes.words;
    let taken = take_record(sizes, slot, hand, last, states, owners, map);
    let page = page_in(sheet, w, k) as usize;
    put(entries, page, taken as u16);
    let target = taken as usize - 1;
    store_record(records, w, target, sheet, k);
    taken
}

// The pages of a sheet, rising: each takes a record, which is stored by a step of its own; `entries` gets what will list it. The result is the last record taken + 1.
pub fn carry_pages(
    sizes: Sizes,
    slot: usize,
    hand: usize,
    sheet: &[u8],
    count: usize,
    records: &mut [u32],
    states: &mut [u8],
    owners: &mut [u8],
    map: &mut [u32],
    entries: &mut [u16],
) -> u32
    requires { (slot < 256) × Carrying sizes hand sheet.now count records.old states.old owners.old map.old }
    ensures last { result ≡ (taking sizes (seen hand states.old owners.old) slot count).last }
    ensures records { records.new ≡ records_after sizes (seen hand states.old owners.old) slot (sheet_of sheet.now) count records.old }
    ensures states { states.new ≡ (taking sizes (seen hand states.old owners.old) slot count).states }
    ensures owners { owners.new ≡ (taking sizes (seen hand states.old owners.old) slot count).owners }
    ensures map { map.new ≡ free_map_table sizes (at (taking sizes (seen hand states.old owners.old) slot count).states) }
    ensures entries { entries.new ≡ entries_after sizes (seen hand states.old owners.old) slot (sheet_of sheet.now) count entries.old }
{
    let mut last: u32 = 0;
    for k in 0..count {
        last = carry_page(
            sizes, slot, hand, last, sheet, k, records, states, owners, map, entries,
        );
    }
    last
}
