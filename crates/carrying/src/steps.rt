// The stores of an import, each a function of its own.
ghost use Rattle.std.specs.Prelude.{◌≡◌, ◌+◌, ◌*◌, ◌/◌, ◌%◌, ◌≤◌, ◌<◌, length, set};
ghost use Rattle.tables.specs.Base.{at};
ghost use Rattle.tables.specs.Rule.{same};
ghost use Rattle.tables.specs.Store.{store};
ghost use Rattle.tables.specs.StoreLoops.{between};
ghost use Rattle.sheets.specs.Sheet.{words_in, place_of, word_in};

use leaves::cells::put;
use sheets::read::word_in;

// So many words of the k-th page of a sheet, from the first one named on, go to their places in a record.
fn store_words(
    records: &mut [u32],
    w: usize,
    target: usize,
    sheet: &[u8],
    k: usize,
    first: usize,
    n: usize,
)
    requires { (first + n ≤ w) × (w < 65536) × (k < 65536) × (w ≡ words_in sheet.now) × (place_of sheet.now k + (5 + 4 * w) ≤ length sheet.now) × (target * w + w ≤ length records.old) }
    ensures { records.new ≡ store records.old (between (target * w + first) (target * w + first + n)) (λ i. word_in sheet.now k (i % w)) }
{
    let start = target * w + first;
    for j in 0..n {
        records[start + j] = word_in(sheet, w, k, first + j);
    }
}

// One store: a record takes the words of the k-th page of a sheet, eight a turn.
pub fn store_record(records: &mut [u32], w: usize, target: usize, sheet: &[u8], k: usize)
    requires { (0 < w) × (w < 65536) × (k < 65536) × (w ≡ words_in sheet.now) × (place_of sheet.now k + (5 + 4 * w) ≤ length sheet.now) × (target * w + w ≤ length records.old) }
    ensures { records.new ≡ store records.old (λ i. same (i / w) target) (λ i. word_in sheet.now k (i % w)) }
{
    let mut j = 0;
    // No `for`: a step takes eight words.
    while w - j >= 8 {
        store_words(records, w, target, sheet, k, j, 8);
        j += 8;
    }
    store_words(records, w, target, sheet, k, j, w - j);
}

// The slot's entries of the map, from a table of one design's.
fn store_map(maps: &mut [u16], pages: usize, slot: usize, entries: &[u16])
    requires { (0 < pages) × (slot * pages + pages ≤ length maps.old) × (pages ≤ length entries.now) }
    ensures { maps.new ≡ store maps.old (λ i. same (i / pages) slot) (λ i. at entries.now (i % pages)) }
{
    let start = slot * pages;
    // No std copy: it asks how far addresses are apart, which is another number on another processor.
    for p in 0..pages {
        maps[start + p] = entries[p];
    }
}

// One store, the last: number, account and whole map.
pub fn store_slot(
    pages: usize,
    slot: usize,
    account: u16,
    number: u32,
    entries: &[u16],
    numbers: &mut [u32],
    accounts: &mut [u16],
    maps: &mut [u16],
)
    requires { (0 < pages) × (slot * pages + pages ≤ length maps.old) × (pages ≤ length entries.now) }
    ensures numbers { numbers.new ≡ set numbers.old slot number }
    ensures accounts { accounts.new ≡ set accounts.old slot account }
    ensures maps { maps.new ≡ store maps.old (λ i. same (i / pages) slot) (λ i. at entries.now (i % pages)) }
{
    put(numbers, slot, number);
    put(accounts, slot, account);
    store_map(maps, pages, slot, entries);
}
