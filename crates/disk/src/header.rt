// The header sector: filled for given sizes, looked at, and the sizes that it says.
ghost use Rattle.std.specs.Prelude.{◌≡◌, ◌≤◌, length};
ghost use Rattle.tables.specs.Base.{if};
ghost use Rattle.tables.specs.Rule.{test, Holds};
ghost use Rattle.layout.specs.Laid.{header};
ghost use Rattle.disk.specs.Header.{disk_fits, fit_answer, zeros_from, sizes_in, sizes_said, looked_at, header_number, said_none, said};

use model::sizes::Sizes;

const MAGIC1: u32 = 0x5045454B;

const MAGIC2: u32 = 0x4B534944;

const VERSION: u32 = 5;

// What a look at the header sector finds, for given sizes. All that is read of it is its number for C: so it is no Result.
#[derive(Drop)]
pub enum Header {
    // the header of a disk of these sizes
    Ours,
    // zeros: never formatted
    Blank,
    // no header, or a damaged one
    Foreign,
    // the header of another version
    OtherVersion,
    // the header of a disk of other sizes
    OtherSizes,
}

// The sizes that a header says. Refused: zeros.
#[repr(C)]
#[derive(Drop)]
pub struct Said {
    pub refusal: u32,
    pub words: u32,
    pub records: u32,
    pub slots: u32,
    pub pages: u32,
    pub accounts: u32,
}

// The sizes that belong to a disk are within their limits. F and B are not asked.
pub fn sizes_fit(sizes: Sizes) -> bool
    ensures { result ≡ test (disk_fits sizes) }
{
    let disk = Sizes {
        words: sizes.words,
        records: sizes.records,
        frames: 1,
        slots: sizes.slots,
        pages: sizes.pages,
        accounts: sizes.accounts,
        chip: 1,
    };
    disk.within()
}

// The header of these sizes.
fn fill(words: &mut [u32], sizes: Sizes)
    requires { (length words.old ≡ 128) × Holds (disk_fits sizes) }
    ensures { words.new ≡ header sizes }
{
    words.fill(0);
    words[0] = MAGIC1;
    words[1] = MAGIC2;
    words[2] = VERSION;
    words[3] = sizes.words as u32;
    words[4] = sizes.records as u32;
    words[5] = sizes.slots as u32;
    words[6] = sizes.pages as u32;
    words[7] = sizes.accounts as u32;
}

// The header of these sizes; 1, and nothing is written, where they are out of limits.
// Shut out: two sizes in each other's place.
#[unsafe(no_mangle)]
pub extern "C" fn disk_fill_header(sizes: Sizes, words: &mut [u32; 128]) -> u32
    ensures { (result ≡ fit_answer sizes) × (words.new ≡ if (test (disk_fits sizes)) (header sizes) words.old) }
{
    if sizes_fit(sizes) {
        fill(words, sizes);
        return 0;
    }
    1
}

// Every word from a place on is zero.
fn zeros_from(words: &[u32], from: usize) -> bool
    requires { (length words.now ≡ 128) × (from ≤ 128) }
    ensures { result ≡ test (zeros_from from words.now) }
{
    words[from..].iter().all(|word| *word == 0)
}

// The sizes in the header are these.
fn sizes_in(words: &[u32], sizes: Sizes) -> bool
    requires { length words.now ≡ 128 }
    ensures { result ≡ test (sizes_in sizes words.now) }
{
    (words[3] as usize == sizes.words)
        & ((words[4] as usize == sizes.records)
            & ((words[5] as usize == sizes.slots)
                & ((words[6] as usize == sizes.pages) & (words[7] as usize == sizes.accounts))))
}

// The look, whatever stands there.
fn look(words: &[u32], sizes: Sizes) -> Header
    requires { length words.now ≡ 128 }
    ensures { result ≡ looked_at sizes words.now }
{
    if zeros_from(words, 0) {
        return Header::Blank;
    }
    if words[0] != MAGIC1 {
        return Header::Foreign;
    }
    if words[1] != MAGIC2 {
        return Header::Foreign;
    }
    if words[2] != VERSION {
        return Header::OtherVersion;
    }
    if !zeros_from(words, 8) {
        return Header::Foreign;
    }
    if !sizes_in(words, sizes) {
        return Header::OtherSizes;
    }
    Header::Ours
}

// The number of what a look found.
pub fn number(h: Header) -> u32
    ensures { result ≡ header_number h }
{
    match h {
        Header::Ours => 0,
        Header::Blank => 1,
        Header::Foreign => 2,
        Header::OtherVersion => 3,
        Header::OtherSizes => 4,
    }
}

// The look at the header sector: 0 where it is, to the last word, the header of these sizes, else the first reason.
// Shut out: the last word unseen; another version taken.
#[unsafe(no_mangle)]
pub extern "C" fn disk_look_header(sizes: Sizes, words: &[u32; 128]) -> u32
    ensures { result ≡ header_number (looked_at sizes words.now) }
{
    number(look(words, sizes))
}

// The sizes in a header's words, and nothing of F and B.
fn sizes_of(words: &[u32]) -> Sizes
    requires { length words.now ≡ 128 }
    ensures { result ≡ sizes_said words.now }
{
    let w = words[3] as usize;
    let r = words[4] as usize;
    let s = words[5] as usize;
    let n = words[6] as usize;
    let q = words[7] as usize;
    Sizes {
        words: w,
        records: r,
        frames: 0,
        slots: s,
        pages: n,
        accounts: q,
        chip: 0,
    }
}

fn refused(refusal: u32) -> Said
    ensures { result ≡ said_none refusal }
{
    Said {
        refusal,
        words: 0,
        records: 0,
        slots: 0,
        pages: 0,
        accounts: 0,
    }
}

// The sizes that the header says, to those who do not know them.
fn say(words: &[u32]) -> Said
    requires { length words.now ≡ 128 }
    ensures { result ≡ said words.now }
{
    let sizes = sizes_of(words);
    let refusal = number(look(words, sizes));
    if refusal != 0 {
        return refused(refusal);
    }
    if sizes_fit(sizes) {
        return Said {
            refusal: 0,
            words: words[3],
            records: words[4],
            slots: words[5],
            pages: words[6],
            accounts: words[7],
        };
    }
    refused(5)
}

// The sizes that the header says: refused where it is no header of this version, or they are out of limits.
#[unsafe(no_mangle)]
pub extern "C" fn disk_header_sizes(words: &[u32; 128]) -> Said
    ensures { result ≡ said words.now }
{
    say(words)
}
