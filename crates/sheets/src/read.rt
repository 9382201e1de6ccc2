// Reading a sheet: whether a byte string is of the form, in one pass, and what stands in it. No length that it names is trusted.
ghost use Rattle.std.specs.Prelude.{◌≡◌, ◌+◌, ◌*◌, ◌≤◌, ◌<◌, length};
ghost use Rattle.tables.specs.Base.{at};
ghost use Rattle.tables.specs.Rule.{each, same, test};
ghost use Rattle.sheets.specs.Sheet.{number, words_in, pages_in, place_of, page_in, word_in, page_fits, field_fits, headed, parsed};

// What a sheet that is of the form says of itself: its W and N, its number, how many pages it has.
#[derive(Drop)]
pub struct Sheet {
    pub words: u32,
    pub pages: u32,
    pub number: u32,
    pub count: usize,
}

// The number of n bytes from a place on, high byte first.
fn number_at(s: &[u8], from: usize, n: usize) -> u32
    requires { (n ≤ 4) × (from + n ≤ length s.now) }
    ensures { result ≡ number n 0 s.now from }
{
    let mut value = 0;
    for byte in &s[from..from + n] {
        value = value * 256 + u32::from(*byte);
    }
    value
}

// A field of this tag and length starts at a place.
fn is_headed(s: &[u8], from: usize, tag: u8, size: u32) -> bool
    requires { from + 3 ≤ length s.now }
    ensures { result ≡ test (headed s.now from tag size) }
{
    s[from] == tag && number_at(s, from + 1, 2) == size
}

// Whether so many bytes from a place on are 0: all are looked at, so that many are compared at once.
fn zeros(s: &[u8], from: usize, n: usize) -> bool
    requires { from + n ≤ length s.now }
    ensures { result ≡ test (each n (λ k. same (at s.now (from + k)) 0)) }
{
    let mut ok = true;
    for byte in &s[from..from + n] {
        ok &= *byte == 0;
    }
    ok
}

// Whether so many bytes from a place on are 0: 32 are compared at once, and the first 32 that are not all 0 decide.
fn all_zero(s: &[u8], from: usize, n: usize) -> bool
    requires { from + n ≤ length s.now }
    ensures { result ≡ test (each n (λ k. same (at s.now (from + k)) 0)) }
{
    let mut k = 0;
    // No `for`: a step takes 32 bytes and a test ends it.
    while n - k >= 32 {
        if !zeros(s, from + k, 32) {
            return false;
        }
        k += 32;
    }
    zeros(s, from + k, n - k)
}

// The w words from a place on are all zeros: so are their bytes.
fn is_blank(s: &[u8], from: usize, w: usize) -> bool
    requires { from + 4 * w ≤ length s.now }
    ensures { result ≡ test (each w (λ j. same (number 4 0 s.now (from + 4 * j)) 0)) }
{
    all_zero(s, from, 4 * w)
}

// A page's field starts at a place: its length, a page below n, none below the least, not all zeros.
fn field_fits(s: &[u8], from: usize, w: usize, n: u32, least: u32) -> bool
    requires { (w < 65536) × (from + (5 + 4 * w) ≤ length s.now) }
    ensures { result ≡ test (field_fits s.now w n least from) }
{
    let size = (2 + 4 * w) as u32;
    if !is_headed(s, from, 2, size) {
        return false;
    }
    let page = number_at(s, from + 3, 2);
    if page >= n {
        return false;
    }
    if page < least {
        return false;
    }
    !is_blank(s, from + 5, w)
}

// Every page's field is of the form.
fn pages_fit(s: &[u8], w: usize, n: u32, count: usize) -> bool
    requires { (w ≡ words_in s.now) × (n ≡ pages_in s.now) × (w < 65536) × (place_of s.now count ≤ length s.now) }
    ensures { result ≡ test (each count (page_fits s.now)) }
{
    let size = 5 + 4 * w;
    let mut from = 14;
    let mut least: u32 = 0;
    for _ in 0..count {
        if !field_fits(s, from, w, n, least) {
            return false;
        }
        least = number_at(s, from + 3, 2) + 1;
        from += size;
    }
    true
}

// What a byte string says as a sheet, whatever it is: None where it is not of the form, 29.
pub fn parse(s: &[u8]) -> Option<Sheet>
    ensures { result ≡ parsed s.now }
{
    let long = s.len();
    if long < 17 {
        return None;
    }
    if !is_headed(s, 0, 3, 4) {
        return None;
    }
    if !is_headed(s, 7, 1, 4) {
        return None;
    }
    let words = number_at(s, 3, 2);
    let pages = number_at(s, 5, 2);
    let number = number_at(s, 10, 4);
    if number == 0 {
        return None;
    }
    let w = words as usize;
    let size = 5 + 4 * w;
    let rest = long - 17;
    let count = rest / size;
    let taken = count * size;
    if taken != rest {
        return None;
    }
    if !pages_fit(s, w, pages, count) {
        return None;
    }
    if !is_headed(s, 14 + taken, 4, 0) {
        return None;
    }
    Some(Sheet {
        words,
        pages,
        number,
        count,
    })
}

// The page of the k-th field of a sheet that is of the form.
pub fn page_in(s: &[u8], w: usize, k: usize) -> u32
    requires { (w ≡ words_in s.now) × (k < 65536) × (w < 65536) × (place_of s.now k + (5 + 4 * w) ≤ length s.now) }
    ensures { result ≡ page_in s.now k }
{
    let from = 14 + k * (5 + 4 * w);
    number_at(s, from + 3, 2)
}

// One of its words.
pub fn word_in(s: &[u8], w: usize, k: usize, j: usize) -> u32
    requires { (w ≡ words_in s.now) × (k < 65536) × (w < 65536) × (j < w) × (place_of s.now k + (5 + 4 * w) ≤ length s.now) }
    ensures { result ≡ word_in s.now k j }
{
    let from = 14 + k * (5 + 4 * w);
    number_at(s, from + 5 + 4 * j, 4)
}
