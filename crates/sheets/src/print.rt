// Printing a sheet: each function lays one piece over a buffer from a place on, and leaves the rest as it was.
ghost use Rattle.std.specs.Prelude.{◌≡◌, ◌+◌, ◌*◌, ◌≤◌, ◌<◌, [], ◌∷◌, length};
ghost use Rattle.tables.specs.Base.{at};
ghost use Rattle.sheets.specs.Sheet.{bytes, runs, head, page_field, field, laid};

// Two bytes of a number, high byte first.
fn put_two(b: &mut [u8], from: usize, v: u32)
    requires { from + 2 ≤ length b.old }
    ensures { b.new ≡ laid b.old from (bytes 2 v) }
{
    // No std copy: it asks how far addresses are apart, which is another number on another processor.
    let bytes = v.to_be_bytes();
    b[from] = bytes[2];
    b[from + 1] = bytes[3];
}

// Four bytes of a number, high byte first.
fn put_four(b: &mut [u8], from: usize, v: u32)
    requires { from + 4 ≤ length b.old }
    ensures { b.new ≡ laid b.old from (bytes 4 v) }
{
    let bytes = v.to_be_bytes();
    b[from] = bytes[0];
    b[from + 1] = bytes[1];
    b[from + 2] = bytes[2];
    b[from + 3] = bytes[3];
}

// A field's tag and length.
fn put_head(b: &mut [u8], from: usize, tag: u8, size: u32)
    requires { from + 3 ≤ length b.old }
    ensures { b.new ≡ laid b.old from (tag ∷ bytes 2 size) }
{
    b[from] = tag;
    put_two(b, from + 1, size);
}

// The words of a page, 4 bytes each.
fn put_words(b: &mut [u8], from: usize, w: usize, words: &[u32], base: usize)
    requires { (from + 4 * w ≤ length b.old) × (base + w ≤ length words.now) }
    ensures { b.new ≡ laid b.old from (runs w (λ j. bytes 4 (at words.now (base + j)))) }
{
    for (j, word) in words[base..base + w].iter().enumerate() {
        put_four(b, from + 4 * j, *word);
    }
}

// The field of a page.
pub fn put_page(b: &mut [u8], from: usize, page: u32, w: usize, words: &[u32], base: usize)
    requires { (w < 16384) × (from + (5 + 4 * w) ≤ length b.old) × (base + w ≤ length words.now) }
    ensures { b.new ≡ laid b.old from (page_field w page (λ j. at words.now (base + j))) }
{
    let size = (2 + 4 * w) as u32;
    put_head(b, from, 2, size);
    put_two(b, from + 3, page);
    put_words(b, from + 5, w, words, base);
}

// The fields that begin a sheet.
pub fn put_start(b: &mut [u8], w: u32, n: u32, number: u32)
    requires { 14 ≤ length b.old }
    ensures { b.new ≡ laid b.old 0 (head w n number) }
{
    put_head(b, 0, 3, 4);
    put_two(b, 3, w);
    put_two(b, 5, n);
    put_head(b, 7, 1, 4);
    put_four(b, 10, number);
}

// The field that ends a sheet.
pub fn put_end(b: &mut [u8], from: usize)
    requires { from + 3 ≤ length b.old }
    ensures { b.new ≡ laid b.old from (field 4 []) }
{
    put_head(b, from, 4, 0);
}
