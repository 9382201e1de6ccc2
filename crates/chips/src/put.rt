// What goes into the chip: the words of a record, at the place of its own copy, or at the next one.
ghost use Rattle.std.specs.Prelude.{◌≡◌, suc, ◌*◌, ◌%◌, ◌<◌, length, set};
ghost use Rattle.tables.specs.Base.{at};
ghost use Rattle.model.specs.Parts.{set_part, word_at};
ghost use Rattle.model.specs.Chip.{copied};
ghost use Rattle.model.specs.Laws.Fit.{Within, ChipFit};
ghost use Rattle.chips.specs.Seen.{Places, chip_given, chip_entered, chip_left};

use crate::place::place_of;
use leaves::words::copy_part;
use model::sizes::Sizes;

// The place after one; after the last comes 0.
fn after(place: usize, places: usize) -> usize
    requires { place < places }
    ensures { result ≡ suc place % places }
{
    (place + 1) % places
}

// The record's words at a place.
fn fill(
    sizes: Sizes,
    r: usize,
    place: usize,
    records: &[u32],
    chip_words: &mut [u32],
    chip_records: &mut [u16],
)
    requires { Within sizes × (r < sizes.records) × (place < sizes.chip) × (length records.now ≡ sizes.records * sizes.words) × Places sizes chip_words.old chip_records.old }
    ensures words { chip_words.new ≡ set_part sizes place (word_at sizes records.now r) chip_words.old }
    ensures copies { chip_records.new ≡ set chip_records.old place (suc r) }
{
    copy_part(records, r, chip_words, place, sizes.words);
    chip_records[place] = (r + 1) as u16;
}

// A page already there replaces its own copy; otherwise places are filled in turn.
pub fn put(
    sizes: Sizes,
    r: usize,
    records: &[u32],
    chip_words: &mut [u32],
    chip_records: &mut [u16],
    chip_next: &mut [u16],
)
    requires { Within sizes × (r < sizes.records) × (length records.now ≡ sizes.records * sizes.words) × ChipFit sizes (chip_given chip_words.old chip_records.old chip_next.old) × (at chip_next.old 0 < sizes.chip) }
    ensures { chip_left chip_words.new chip_records.new chip_next.new ≡ copied sizes r (word_at sizes records.now r) (chip_entered chip_words.old chip_records.old chip_next.old) }
{
    let own = place_of(chip_records, r);
    if own < sizes.chip {
        fill(sizes, r, own, records, chip_words, chip_records);
        return;
    }
    let next = chip_next[0] as usize;
    fill(sizes, r, next, records, chip_words, chip_records);
    chip_next[0] = after(next, sizes.chip) as u16;
}
