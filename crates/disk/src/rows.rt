// A table's rows in home sectors: a sector filled from a lent table, and its entries put into one. Tables of u32 and of u16 entries.
ghost use Rattle.std.specs.Prelude.{◌≡◌, ℕ, ◌+◌, ◌-◌, ◌<◌, ◌≤◌, length, ltb};
ghost use Rattle.tables.specs.Base.{at, if, tab};
ghost use Rattle.tables.specs.Rule.{test, Holds};
ghost use Rattle.tables.specs.Store.{store};
ghost use Rattle.tables.specs.StoreLoops.{between};
ghost use Rattle.layout.specs.Rows.{row_sector};
ghost use Rattle.disk.specs.Taken.{taken, taken_halves, halves, halves_answer};
ghost use Rattle.disk.specs.Laws.Rows.{Cut, End};

// Which entries of a table stand in a sector: `count` of them, from `start` on.
#[derive(Drop)]
pub struct Piece {
    pub start: usize,
    pub count: usize,
}

// The piece of a table with rows of `width` entries that its sector holds.
fn cut_out(width: u32, sector: u32) -> Piece
    ensures { Cut width sector result.start result.count }
{
    let n = width as usize;
    let y = sector as usize;
    if n == 0 {
        return Piece { start: 0, count: 0 };
    }
    let per_row = (n + 127) / 128;
    let first = y % per_row * 128;
    let start = y / per_row * n + first;
    let rest = n - first;
    if rest < 128 {
        return Piece { start, count: rest };
    }
    Piece { start, count: 128 }
}

// Word j of a sector that holds `count` entries from `start` on.
fn word_of_u32(table: &[u32], start: usize, count: usize, j: usize) -> u32
    requires { start + j < 18446744073709551616 }
    ensures { result ≡ if (ltb j count) (at table.now (start + j)) 0 }
{
    if j < count {
        let i = start + j;
        if i < table.len() {
            return table[i];
        }
        return 0;
    }
    0
}

// .. of a table of u16 entries.
fn word_of_u16(table: &[u16], start: usize, count: usize, j: usize) -> u32
    requires { start + j < 18446744073709551616 }
    ensures { result ≡ if (ltb j count) (at table.now (start + j)) 0 }
{
    if j < count {
        let i = start + j;
        if i < table.len() {
            return table[i] as u32;
        }
        return 0;
    }
    0
}

// The whole sector.
fn fill_u32(words: &mut [u32], table: &[u32], start: usize, count: usize)
    requires { (length words.old ≡ 128) × (start + 128 < 18446744073709551616) }
    ensures { words.new ≡ tab 128 (λ j. if (ltb j count) (at table.now (start + j)) 0) 0 }
{
    for j in 0..128 {
        words[j] = word_of_u32(table, start, count, j);
    }
}

fn fill_u16(words: &mut [u32], table: &[u16], start: usize, count: usize)
    requires { (length words.old ≡ 128) × (start + 128 < 18446744073709551616) }
    ensures { words.new ≡ tab 128 (λ j. if (ltb j count) (at table.now (start + j)) 0) 0 }
{
    for j in 0..128 {
        words[j] = word_of_u16(table, start, count, j);
    }
}

// A sector of a lent table, from sector 0, its first, on; zeros past the row's end and past the table's.
// Shut out: one word past the row; the wrong piece of a long row.
#[unsafe(no_mangle)]
pub extern "C" fn disk_fill_u32(width: u32, table: &[u32], sector: u32, words: &mut [u32; 128])
    ensures { words.new ≡ row_sector width table.now sector }
{
    let at = cut_out(width, sector);
    fill_u32(words, table, at.start, at.count);
}

#[unsafe(no_mangle)]
pub extern "C" fn disk_fill_u16(width: u32, table: &[u16], sector: u32, words: &mut [u32; 128])
    ensures { words.new ≡ row_sector width table.now sector }
{
    let at = cut_out(width, sector);
    fill_u16(words, table, at.start, at.count);
}

// Where to stop: at the piece's end, or at the table's where that comes first.
fn end_of(start: usize, count: usize, len: usize) -> usize
    requires { start + count < 18446744073709551616 }
    ensures { End start count len result }
{
    len.min(start + count)
}

// The entries from `start` up to `end`.
fn take_u32(table: &mut [u32], words: &[u32], start: usize, end: usize)
    requires { (end ≤ length table.old) × (end ≤ start + length words.now) }
    ensures { table.new ≡ store table.old (between start end) (λ i. at words.now (i - start)) }
{
    for i in start..end {
        table[i] = words[i - start];
    }
}

fn take_u16(table: &mut [u16], words: &[u32], start: usize, end: usize)
    requires { (end ≤ length table.old) × (end ≤ start + length words.now) × ((j : ℕ) → j < length words.now → at words.now j < 65536) }
    ensures { table.new ≡ store table.old (between start end) (λ i. at words.now (i - start)) }
{
    for i in start..end {
        table[i] = words[i - start] as u16;
    }
}

// Every word fits an entry of 16 bits.
fn all_halves(words: &[u32]) -> bool
    requires { length words.now ≡ 128 }
    ensures { result ≡ test (halves words.now) }
{
    words.iter().all(|word| *word < 65536)
}

// A sector's entries put into the table; its other entries stay.
// Shut out: the entries of another sector; one past the row's end.
#[unsafe(no_mangle)]
pub extern "C" fn disk_take_u32(width: u32, sector: u32, words: &[u32; 128], table: &mut [u32])
    ensures { table.new ≡ taken width sector words.now table.old }
{
    let at = cut_out(width, sector);
    let end = end_of(at.start, at.count, table.len());
    take_u32(table, words, at.start, end);
}

// .. of a table of u16 entries: 1, and nothing is taken, where a word of the sector does not fit one.
#[unsafe(no_mangle)]
pub extern "C" fn disk_take_u16(
    width: u32,
    sector: u32,
    words: &[u32; 128],
    table: &mut [u16],
) -> u32
    ensures { (result ≡ halves_answer words.now) × (table.new ≡ taken_halves width sector words.now table.old) }
{
    if all_halves(words) {
        let at = cut_out(width, sector);
        let end = end_of(at.start, at.count, table.len());
        take_u16(table, words, at.start, end);
        return 0;
    }
    1
}
