// What question 2 asks of the chip: the next place is below B, no record twice, empty places hold zeros, each copy is equal to its live record.
ghost use Rattle.std.specs.Prelude.{◌≡◌, ◌+◌, ◌*◌, ◌<◌, ◌≤◌, length, replicate};
ghost use Rattle.tables.specs.Base.{at};
ghost use Rattle.tables.specs.Rule.{same, below, ◌and◌, each, named, test, Holds};
ghost use Rattle.model.specs.Lines.{LIVE};
ghost use Rattle.model.specs.Rules.{fit, next_fit, copy_once, copy_empty, copy_live};
ghost use Rattle.model.specs.Laws.Fit.{Within, ChipFit};
ghost use Rattle.rules.specs.Passes.{distinct};
ghost use Rattle.chips.specs.Seen.{Places, Kept, place_kept, chip_given, chip_entered};

use leaves::cells::at;
use leaves::words::all_zero;
use model::lines::LIVE;
use model::sizes::Sizes;
use rules::clean::equal;

// Whether no two places have copies of one record, and each of a record that there is: one mark a record.
fn named_once(sizes: Sizes, chip_records: &[u16]) -> bool
    requires { Within sizes }
    ensures { result ≡ test (distinct (length chip_records.now) sizes.records (at chip_records.now)) }
{
    let mut marks: [u32; 128] = [0; 128];
    rules::marks::mark_all(chip_records, sizes.records, &mut marks)
}

// A place: zeros where it is empty, else the words of a live record.
fn place_ok(
    sizes: Sizes,
    place: usize,
    entry: u16,
    records: &[u32],
    states: &[u8],
    chip_words: &[u32],
) -> bool
    requires { Kept sizes records.now states.now chip_words.now × (place < sizes.chip) × Holds (named entry (λ r. below r sizes.records)) }
    ensures { result ≡ test (place_kept sizes (at states.now) (at records.now) (at chip_words.now) place entry) }
{
    let w = sizes.words;
    if entry == 0 {
        return all_zero(chip_words, w, place);
    }
    let r = entry as usize - 1;
    if states[r] != LIVE {
        return false;
    }
    equal(chip_words, place * w, records, r * w, w)
}

// All places, once each entry is known to name a record that there is.
fn places_ok(
    sizes: Sizes,
    records: &[u32],
    states: &[u8],
    chip_words: &[u32],
    chip_records: &[u16],
) -> bool
    requires { Kept sizes records.now states.now chip_words.now × (length chip_records.now ≡ sizes.chip) × Holds (fit sizes.chip sizes.records (at chip_records.now)) }
    ensures { result ≡ test (each sizes.chip (λ b. place_kept sizes (at states.now) (at records.now) (at chip_words.now) b (at chip_records.now b))) }
{
    for (place, entry) in chip_records.iter().enumerate() {
        if !place_ok(sizes, place, *entry, records, states, chip_words) {
            return false;
        }
    }
    true
}

pub fn chip_ruled(
    sizes: Sizes,
    records: &[u32],
    states: &[u8],
    chip_words: &[u32],
    chip_records: &[u16],
    chip_next: &[u16],
) -> bool
    requires { Within sizes × (length records.now ≡ sizes.records * sizes.words) × (length states.now ≡ sizes.records) × ChipFit sizes (chip_given chip_words.now chip_records.now chip_next.now) }
    ensures { result ≡ test (next_fit sizes (at states.now) (at records.now) (chip_entered chip_words.now chip_records.now chip_next.now)
        and copy_once sizes (at states.now) (at records.now) (chip_entered chip_words.now chip_records.now chip_next.now)
        and copy_empty sizes (at states.now) (at records.now) (chip_entered chip_words.now chip_records.now chip_next.now)
        and copy_live sizes (at states.now) (at records.now) (chip_entered chip_words.now chip_records.now chip_next.now)) }
{
    let next = at(chip_next, 0);
    if next as usize >= sizes.chip {
        return false;
    }
    if !named_once(sizes, chip_records) {
        return false;
    }
    places_ok(sizes, records, states, chip_words, chip_records)
}
