// The input in pieces: what has come and is not used yet stands in a buffer.
ghost use Rattle.std.specs.Prelude.{◌≡◌, ◌-◌, ◌≤◌, false, ◌++◌, length, take, drop, Ok, Err, IfOk, OnErr};
ghost use Rattle.tables.specs.Base.{if};
ghost use Rattle.fields.specs.Fields.{field_at};
ghost use Rattle.replay.specs.Input.{past as Input·past, unread, Refilled, cut as Input·cut, room, step_of, follows};

use fields::Field;
use model::request::Request;
use std::io;
use std::io::Read;

const CUT: u32 = 16;

// Where the reader stands: the next field at `place` of the buffer's first `filled` bytes, and at `offset` of the whole input.
#[derive(Drop)]
pub struct Reader {
    pub place: usize,
    pub filled: usize,
    pub offset: u64,
    pub ended: bool,
}

impl Reader {
    // At the start of the input, nothing read yet.
    pub fn new() -> Self
        ensures { result ≡ record { place = 0; filled = 0; offset = 0; ended = false } }
    {
        Self {
            place: 0,
            filled: 0,
            offset: 0,
            ended: false,
        }
    }

    // Past what ends at `to`.
    pub fn past(self, to: usize) -> Self
        requires { self.place ≤ to }
        ensures { result ≡ Input·past self to }
    {
        Self {
            place: to,
            filled: self.filled,
            offset: std::num::wrapping_add_u64(self.offset, (to - self.place) as u64),
            ended: self.ended,
        }
    }
}

// The bytes from `from` up to `end` go to the front.
fn shift(buffer: &mut [u8], from: usize, end: usize)
    requires { (from ≤ end) × (end ≤ length buffer.old) }
    ensures { buffer.new ≡ take (end - from) (drop from buffer.old) ++ drop (end - from) buffer.old }
{
    buffer.copy_within(from..end, 0);
}

// Reads once behind what is left. After a failed read the unread bytes are first.
pub fn refill<R: Read>(source: &mut R, buffer: &mut [u8], reader: Reader) -> io::Result<Reader>
    requires { (reader.place ≤ reader.filled) × (reader.filled ≤ length buffer.old) }
    ensures ok { IfOk result (λ fresh. Refilled buffer.old buffer.new reader fresh) }
    ensures err { OnErr result (take (reader.filled - reader.place) buffer.new ≡ unread reader buffer.old) }
{
    let from = reader.place;
    let end = reader.filled;
    shift(buffer, from, end);
    let left = end - from;
    let n = source.read(&mut buffer[left..])?;
    Ok(Reader {
        place: 0,
        filled: left + n,
        offset: reader.offset,
        ended: n == 0,
    })
}

// The request that stands for a cut and a restart; it has no values.
pub fn cut() -> Request
    ensures { result ≡ Input·cut }
{
    Request {
        kind: CUT,
        first: 0,
        second: 0,
        third: 0,
        fourth: 0,
    }
}

// What a field asks for, and where the next one starts; of one that is not whole a cut, and 0.
#[derive(Drop)]
pub struct Step {
    pub asked: Request,
    pub next: usize,
}

// A whole field's step, if its line has room.
fn roomy(room: bool, step: Step) -> Result<Step, Step>
    ensures { result ≡ if room (Ok step) (Err step) }
{
    if room { Ok(step) } else { Err(step) }
}

// The field at a place, Ok if it is whole and its line has room: n events are done and their lines take `size` bytes.
pub fn step_at(input: &[u8], place: usize, size: usize, n: u64) -> Result<Step, Step>
    ensures { result ≡ step_of (field_at input.now place) (room size n) }
{
    let room = (size <= 4050) & (n < u64::MAX);
    match fields::field_at(input, place) {
        Field::Whole { request, next } => roomy(
            room,
            Step {
                asked: request,
                next,
            },
        ),
        Field::Cut { next } => roomy(room, Step { asked: cut(), next }),
        Field::End | Field::Short | Field::Wrong => Err(Step {
            asked: cut(),
            next: 0,
        }),
    }
}

// What comes next: a whole field, or more input, or the end, or a bad field.
#[derive(Drop)]
pub enum Next {
    Again,
    More,
    Stop,
    Bad,
}

// By the field at a place, where the input may have ended.
pub fn next_at(input: &[u8], place: usize, ended: bool) -> Next
    ensures { result ≡ follows ended (field_at input.now place) }
{
    match fields::field_at(input, place) {
        Field::End => if ended { Next::Stop } else { Next::More },
        Field::Whole { .. } | Field::Cut { .. } => Next::Again,
        Field::Short => if ended { Next::Bad } else { Next::More },
        Field::Wrong => Next::Bad,
    }
}
