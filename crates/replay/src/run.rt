// The event program: reads, carries out what has come, prints, until the input ends or a field is bad.
ghost use Rattle.std.specs.Prelude.{◌≡◌, ◌-◌, ◌<◌, ◌≤◌, ◌⊎◌, length, take, IfOk, IfSome, OnErr};
ghost use Rattle.replay.specs.Input.{unread};

use crate::input::{Next, Reader, next_at, refill};
use crate::machine::start;
use crate::whole::whole_fields;
use std::io;
use std::io::{Print, Read};

// So many bytes go out.
fn print<P: Print>(to: &P, out: &[u8], size: usize) -> io::Result<()>
    requires { size ≤ length out.now }
{
    to.write_all(&out[..size])
}

// The header goes out.
fn begin<P: Print>(to: &P, out: &mut [u8]) -> io::Result<()>
    requires { 20 ≤ length out.old }
{
    let size = lines::header(out, 0);
    print(to, out, size)
}

// A bad field is told.
fn complain<P: Print>(to: &P, out: &mut [u8], offset: u64) -> io::Result<()>
    requires { 34 ≤ length out.old }
{
    let size = lines::bad_field(out, 0, offset);
    print(to, out, size)
}

// After the whole fields that have come: more input, and where the reader stands then; or the end, or a bad field, which is told.
fn follow<P: Print, R: Read>(
    to: &P,
    source: &mut R,
    buffer: &mut [u8],
    out: &mut [u8],
    reader: Reader,
) -> io::Result<Option<Reader>>
    requires { (reader.place ≤ reader.filled) × (reader.filled ≤ length buffer.old) × (34 ≤ length out.old) }
    ensures ok { IfOk result (λ next. IfSome next (λ fresh. (fresh.place ≤ fresh.filled) × (fresh.filled ≤ length buffer.new))) }
    ensures err { OnErr result ((buffer.new ≡ buffer.old) ⊎ (take (reader.filled - reader.place) buffer.new ≡ unread reader buffer.old)) }
{
    let filled = reader.filled;
    let place = reader.place;
    let ended = reader.ended;
    match next_at(&buffer[..filled], place, ended) {
        Next::Again => Ok(Some(reader)),
        Next::More => Ok(Some(refill(source, buffer, reader)?)),
        Next::Stop => Ok(None),
        Next::Bad => {
            complain(to, out, reader.offset)?;
            Ok(None)
        }
    }
}

// The loop counts its turns, since a proved loop has to end. A failed read or write ends it.
pub fn run<P: Print, R: Read>(to: &P, source: &mut R) -> io::Result<()> {
    let mut records = [0u32; 8];
    let mut numbers = [0u32; 2];
    let mut accounts = [0u16; 2];
    let mut maps = [0u16; 6];
    let mut limits = [0u16; 1];
    let mut parents = [0u16; 1];
    let mut highest = [0u32; 1];
    let mut frame_words = [0u32; 4];
    let mut free_queue = [0u16; 2];
    let mut removal_list = [0u16; 2];
    let mut addresses = [0u16; 6];
    let mut states = [0u8; 4];
    let mut owners = [0u8; 4];
    let mut free_map = [0u32; 1];
    let mut active = [0u8; 2];
    let mut updating = [0u8; 2];
    let mut images = [0u16; 6];
    let mut chip_words = [0u32; 4];
    let mut chip_records = [0u16; 2];
    let mut chip_next = [0u16; 1];
    let mut line = [0u16; 32];
    let mut used = [0u16; 1];
    let mut held = start(
        &mut records,
        &mut numbers,
        &mut accounts,
        &mut maps,
        &mut limits,
        &mut parents,
        &mut highest,
        &mut frame_words,
        &mut free_queue,
        &mut removal_list,
        &mut addresses,
        &mut states,
        &mut owners,
        &mut free_map,
        &mut active,
        &mut updating,
        &mut images,
        &mut chip_words,
        &mut chip_records,
        &mut chip_next,
        &mut line,
        &mut used,
    );
    let mut buffer = [0u8; 4096];
    let mut out = [0u8; 4096];
    begin(to, &mut out)?;
    let mut reader = Reader::new();
    let mut n: u64 = 0;
    for _ in 0..u64::MAX {
        let filled = reader.filled;
        let place = reader.place;
        let done = whole_fields(
            &buffer[..filled],
            place,
            &mut out,
            n,
            held,
            &mut records,
            &mut numbers,
            &mut accounts,
            &mut maps,
            &mut limits,
            &parents,
            &mut highest,
            &mut frame_words,
            &mut free_queue,
            &mut removal_list,
            &mut addresses,
            &mut states,
            &mut owners,
            &mut free_map,
            &mut active,
            &mut updating,
            &mut images,
            &mut chip_words,
            &mut chip_records,
            &mut chip_next,
            &mut line,
            &mut used,
        );
        let size = done.size;
        print(to, &out, size)?;
        held = done.held;
        n = done.n;
        match follow(to, source, &mut buffer, &mut out, reader.past(done.place))? {
            Some(fresh) => reader = fresh,
            None => return Ok(()),
        }
    }
    Ok(())
}
