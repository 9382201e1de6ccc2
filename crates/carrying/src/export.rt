// Export: its questions, then the sheet of the design in a slot, laid over a buffer.
ghost use Rattle.std.specs.Prelude.{◌≡◌, not, ℕ, ◌+◌, ◌*◌, ◌≤◌, ◌<◌, length};
ghost use Rattle.tables.specs.Rule.{test};
ghost use Rattle.model.specs.Refusals.{answered};
ghost use Rattle.sheets.specs.Sheet.{blank, laid, printed};
ghost use Rattle.carrying.specs.Texts.{text_of, Listed, shown_text, slot_text, Printing};
ghost use Rattle.carrying.specs.Exports.{Exporting, entered_export, handed, export_of};

use designs::asks::ask_activate;
use leaves::cells::at;
use leaves::words::all_zero;
use model::refusals::Refusal;
use model::sizes::Sizes;
use sheets::print::{put_end, put_page, put_start};

// The page that an entry lists is not all zeros.
fn is_shown(records: &[u32], w: usize, entry: u16) -> bool
    requires { (0 < w) × Listed w entry records.now }
    ensures { result ≡ not (test (blank w (text_of w records.now entry))) }
{
    entry != 0 && !all_zero(records, w, usize::from(entry) - 1)
}

// The field of a page that is not all zeros; nothing of one that is. The result is where the next one starts.
fn put_shown(
    buffer: &mut [u8],
    from: usize,
    page: u32,
    w: usize,
    entry: u16,
    records: &[u32],
) -> usize
    requires { (0 < w) × (w < 16384) × Listed w entry records.now × (from + length (shown_text w page (text_of w records.now entry)) ≤ length buffer.old) }
    ensures next { result ≡ from + length (shown_text w page (text_of w records.now entry)) }
    ensures buffer { buffer.new ≡ laid buffer.old from (shown_text w page (text_of w records.now entry)) }
{
    if is_shown(records, w, entry) {
        let start = (usize::from(entry) - 1) * w;
        put_page(buffer, from, page, w, records, start);
        return from + (5 + 4 * w);
    }
    from
}

// How many bytes that field takes.
fn shown_bytes(w: usize, entry: u16, records: &[u32]) -> usize
    requires { (0 < w) × (w < 16384) × Listed w entry records.now }
    ensures bytes { (page : ℕ) → result ≡ length (shown_text w page (text_of w records.now entry)) }
    ensures most { result ≤ 5 + 4 * w }
{
    if is_shown(records, w, entry) {
        5 + 4 * w
    } else {
        0
    }
}

// How many bytes the sheet takes, whatever its number is.
fn sheet_bytes(pages: usize, w: usize, slot: usize, records: &[u32], maps: &[u16]) -> usize
    requires { Printing pages w slot records.now maps.now }
    ensures bytes { (number : ℕ) → result ≡ length (printed w pages number (slot_text pages w slot records.now maps.now)) }
    ensures most { result < 4294967296 }
{
    let start = slot * pages;
    let mut bytes = 17;
    for entry in &maps[start..start + pages] {
        bytes += shown_bytes(w, *entry, records);
    }
    bytes
}

// The sheet of the design in a slot, into a buffer that has room for it. The result is its length.
fn put_sheet(
    buffer: &mut [u8],
    pages: usize,
    w: usize,
    slot: usize,
    number: u32,
    records: &[u32],
    maps: &[u16],
) -> usize
    requires { Printing pages w slot records.now maps.now × (length (printed w pages number (slot_text pages w slot records.now maps.now)) ≤ length buffer.old) }
    ensures length { result ≡ length (printed w pages number (slot_text pages w slot records.now maps.now)) }
    ensures buffer { buffer.new ≡ laid buffer.old 0 (printed w pages number (slot_text pages w slot records.now maps.now)) }
{
    put_start(buffer, w as u32, pages as u32, number);
    let start = slot * pages;
    let mut from = 14;
    for (p, entry) in maps[start..start + pages].iter().enumerate() {
        from = put_shown(buffer, from, p as u32, w, *entry, records);
    }
    put_end(buffer, from);
    from + 3
}

// The event, once questions 1 and 2 are asked: it asks 3, 4 and 9, as activate does, and 31 last.
pub fn export(
    sizes: Sizes,
    slot: usize,
    sheet: &mut [u8],
    records: &[u32],
    numbers: &[u32],
    maps: &[u16],
    active: &[u8],
) -> Result<u32, Refusal>
    requires { Exporting sizes records.now maps.now }
    ensures { handed (answered result) sheet.new ≡ export_of sizes (entered_export records numbers maps active) slot sheet.old }
{
    ask_activate(sizes, slot, numbers, active)?;
    let bytes = sheet_bytes(sizes.pages, sizes.words, slot, records, maps);
    if sheet.len() < bytes {
        return Err(Refusal::SheetShort);
    }
    let number = at(numbers, slot);
    let length = put_sheet(sheet, sizes.pages, sizes.words, slot, number, records, maps);
    Ok(length as u32)
}
