// What is dropped from the chip: a copy goes as soon as its record stops being live, and empty places hold zeros.
ghost use Rattle.std.specs.Prelude.{◌≡◌, List, ℕ, ◌<◌, set};
ghost use Rattle.tables.specs.Base.{at};
ghost use Rattle.tables.specs.Rule.{same, non, names, test};
ghost use Rattle.model.specs.Lines.{LIVE};
ghost use Rattle.model.specs.Lent.{chip_of};
ghost use Rattle.model.specs.Parts.{set_part};
ghost use Rattle.model.specs.Chip.{only_live};
ghost use Rattle.model.specs.Laws.Fit.{Within};
ghost use Rattle.chips.specs.Seen.{Places, dropped};

use crate::place::place_of;
use leaves::cells::at;
use leaves::words::clear_part;
use model::lines::LIVE;
use model::sizes::Sizes;

// A place becomes empty.
fn empty_place(sizes: Sizes, place: usize, chip_words: &mut [u32], chip_records: &mut [u16])
    requires { Within sizes × (place < sizes.chip) × Places sizes chip_words.old chip_records.old }
    ensures words { chip_words.new ≡ set_part sizes place (λ w. 0) chip_words.old }
    ensures copies { chip_records.new ≡ set chip_records.old place 0 }
{
    clear_part(chip_words, sizes.words, place);
    chip_records[place] = 0;
}

// The copy of one record goes, if it has one.
pub fn drop_one(sizes: Sizes, r: usize, chip_words: &mut [u32], chip_records: &mut [u16])
    requires { Within sizes × (r < 65535) × Places sizes chip_words.old chip_records.old }
    ensures { (next : List ℕ) → chip_of chip_words.new chip_records.new next ≡ dropped sizes r (chip_of chip_words.old chip_records.old next) }
{
    let place = place_of(chip_records, r);
    if place < sizes.chip {
        empty_place(sizes, place, chip_words, chip_records);
    }
}

// Whether an entry names a record that is not live.
fn is_stale(entry: u16, states: &[u8]) -> bool
    ensures { result ≡ test (names entry (λ r. non (same (at states.now r) LIVE))) }
{
    entry != 0 && at(states, entry as usize - 1) != LIVE
}

// The copies of all records that are not live go.
pub fn drop_stale(sizes: Sizes, states: &[u8], chip_words: &mut [u32], chip_records: &mut [u16])
    requires { Within sizes × Places sizes chip_words.old chip_records.old }
    ensures { (next : List ℕ) → chip_of chip_words.new chip_records.new next ≡ only_live sizes (at states.now) (chip_of chip_words.old chip_records.old next) }
{
    for place in 0..sizes.chip {
        if is_stale(chip_records[place], states) {
            empty_place(sizes, place, chip_words, chip_records);
        }
    }
}
