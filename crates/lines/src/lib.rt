// The lines that the event program prints, made in a buffer.
#![tactic(auto)]

ghost use Rattle.std.specs.Prelude.{[], ◌∷◌, ◌≡◌, ◌+◌, ◌≤◌, ◌<◌, ◌%◌, length};
ghost use Rattle.lines.specs.Decimal.{decimal as Decimal·decimal};
ghost use Rattle.lines.specs.Lines.{Wrote, hex_digit, header as Lines·header, between, answers, line_of, bad_field};

// One byte at a place; the place after it.
fn put(out: &mut [u8], place: usize, byte: u8) -> usize
    requires { place < length out.old }
    ensures { Wrote out.old out.new place (byte ∷ []) result }
{
    out[place] = byte;
    place + 1
}

// A number in decimal: what stands before its last digit, then that digit.
fn decimal(out: &mut [u8], place: usize, n: u64) -> usize
    requires { place + length (Decimal·decimal n) ≤ length out.old }
    ensures { Wrote out.old out.new place (Decimal·decimal n) result }
{
    if n < 10 {
        return put(out, place, b'0' + (n as u8));
    }
    let last = decimal(out, place, n / 10);
    put(out, last, b'0' + ((n % 10) as u8))
}

// The last digit in hexadecimal.
fn hex_digit(n: u32) -> u8
    ensures { result ≡ hex_digit (n % 16) }
{
    let d = (n % 16) as u8;
    if d < 10 { b'0' + d } else { b'A' + (d - 10) }
}

// A text from a place on; the place after it.
fn text(out: &mut [u8], place: usize, bytes: &[u8]) -> usize
    requires { place + length bytes.now ≤ length out.old }
    ensures { Wrote out.old out.new place bytes.now result }
{
    let end = place + bytes.len();
    out[place..end].copy_from_slice(bytes);
    end
}

// A tag in hexadecimal, with a space before and after it.
fn tag_between(out: &mut [u8], place: usize, tag: u32) -> usize
    requires { place + 4 ≤ length out.old }
    ensures { Wrote out.old out.new place (between tag) result }
{
    let bytes = [b' ', hex_digit(tag / 16), hex_digit(tag), b' '];
    text(out, place, &bytes)
}

// The first line.
pub fn header(out: &mut [u8], place: usize) -> usize
    requires { place + 20 ≤ length out.old }
    ensures { Wrote out.old out.new place Lines·header result }
{
    text(out, place, b"n tag answer result\n")
}

// An event's answer and result, and the line's end.
fn answered(out: &mut [u8], place: usize, answer: u32, res: u32) -> usize
    requires { place + 22 ≤ length out.old }
    ensures { Wrote out.old out.new place (answers answer res) result }
{
    let after_answer = decimal(out, place, answer as u64);
    let from = put(out, after_answer, b' ');
    let after_result = decimal(out, from, res as u64);
    put(out, after_result, b'\n')
}

// The line of an event, the n-th from 1: its tag in hexadecimal, the other numbers in decimal.
pub fn event(out: &mut [u8], place: usize, n: u64, tag: u32, answer: u32, res: u32) -> usize
    requires { place + 46 ≤ length out.old }
    ensures { Wrote out.old out.new place (line_of n tag answer res) result }
{
    let counted = decimal(out, place, n);
    let tagged = tag_between(out, counted, tag);
    answered(out, tagged, answer, res)
}

// The line of a field that cannot be read, with the place of its tag in the input.
pub fn bad_field(out: &mut [u8], place: usize, offset: u64) -> usize
    requires { place + 34 ≤ length out.old }
    ensures { Wrote out.old out.new place (bad_field offset) result }
{
    let from = text(out, place, b"bad field at ");
    let ended = decimal(out, from, offset);
    put(out, ended, b'\n')
}
