// The fields of the event program's input: a tag, a length and values, all high byte first.
#![tactic(auto)]

ghost use Rattle.std.specs.Prelude.{◌≡◌, ◌+◌, ◌≤◌, ◌<◌, length};
ghost use Rattle.fields.specs.Fields.{number, width, total, is_tag, request_at, field_at};

use model::request::Request;

// How many tags there are, 0 with them.
const TAGS: usize = 17;

// The widths in bytes of each tag's four values, 0 for none.
const WIDTHS: [[usize; 4]; TAGS] = [
    [0, 0, 0, 0],
    [2, 2, 4, 0],
    [2, 0, 0, 0],
    [2, 0, 0, 0],
    [2, 0, 0, 0],
    [2, 2, 0, 0],
    [2, 2, 2, 0],
    [2, 2, 2, 4],
    [0, 0, 0, 0],
    [2, 2, 0, 0],
    [2, 2, 0, 0],
    [2, 2, 0, 0],
    [2, 0, 0, 0],
    [2, 2, 0, 0],
    [2, 2, 0, 0],
    [2, 2, 0, 0],
    [0, 0, 0, 0],
];

// What stands at a place of the input. Two cases are good, and the end is no refusal: so it is no Result.
#[derive(Drop)]
pub enum Field {
    // Nothing: the input ends here.
    End,
    // A whole field that asks for an event; the next field starts at next.
    Whole { request: Request, next: usize },
    // A whole field that asks for a cut and a restart.
    Cut { next: usize },
    // Part of a field.
    Short,
    // An unknown tag or a wrong length.
    Wrong,
}

// The width of a tag's k-th value, from 0.
fn width_of(tag: usize, k: usize) -> usize
    requires { (tag < 17) × (k < 4) }
    ensures { (result ≡ width tag k) × (result ≤ 4) }
{
    WIDTHS[tag][k]
}

// The number of n bytes from a place on, high byte first.
fn number_at(s: &[u8], from: usize, n: usize) -> u32
    requires { (n ≤ 4) × (from + n ≤ length s.now) }
    ensures { result ≡ number n 0 s.now from }
{
    let mut value: u64 = 0;
    for byte in &s[from..from + n] {
        value = value * 256 + (*byte as u64);
    }
    value as u32
}

// Tags run from 1 to 16.
fn is_tag(tag: usize) -> bool
    ensures { result ≡ is_tag tag }
{
    (0 < tag) & (tag < TAGS)
}

// The length that a tag's field must give.
fn total_of(tag: usize) -> usize
    requires { tag < 17 }
    ensures { (result ≡ total tag) × (result ≤ 16) }
{
    width_of(tag, 0) + width_of(tag, 1) + width_of(tag, 2) + width_of(tag, 3)
}

// The request of a field whose values start at a place and end within the input.
fn request_at(s: &[u8], tag: usize, from: usize) -> Request
    requires { (tag < 17) × (from + total tag ≤ length s.now) }
    ensures { result ≡ request_at s.now tag from }
{
    let a = width_of(tag, 0);
    let b = width_of(tag, 1);
    let c = width_of(tag, 2);
    let d = width_of(tag, 3);
    Request {
        kind: tag as u32,
        first: number_at(s, from, a),
        second: number_at(s, from + a, b),
        third: number_at(s, from + a + b, c),
        fourth: number_at(s, from + a + b + c, d),
    }
}

// What stands at a place of the input.
pub fn field_at(s: &[u8], place: usize) -> Field
    ensures { result ≡ field_at s.now place }
{
    if s.len() <= place {
        return Field::End;
    }
    let tag = s[place] as usize;
    if !is_tag(tag) {
        return Field::Wrong;
    }
    let left = s.len() - place;
    if left < 3 {
        return Field::Short;
    }
    let size = total_of(tag);
    if (number_at(s, place + 1, 2) as usize) != size {
        return Field::Wrong;
    }
    if left < 3 + size {
        return Field::Short;
    }
    let from = place + 3;
    if tag == 16 {
        return Field::Cut { next: from };
    }
    let request = request_at(s, tag, from);
    Field::Whole {
        request,
        next: from + size,
    }
}
