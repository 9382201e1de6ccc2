// The frames packed, a number each: 64 of them, lent as one table, of which the first F are in use.
ghost use Rattle.std.specs.Prelude.{◌≡◌, ℕ, ◌+◌, ◌%◌, ◌<◌, ◌≤◌, length, set};
ghost use Rattle.tables.specs.Base.{at};
ghost use Rattle.tables.specs.Rule.{same, test};
ghost use Rattle.model.specs.State.{frame_at};
ghost use Rattle.leaves.specs.FrameLaws.{frame_in};
ghost use Rattle.leaves.specs.Packed.{unpack, unpacked, in_four};

use crate::cells::at;
use model::frame::Frame;

// A frame as a number.
fn pack(frame: Frame) -> u64
    ensures { unpack result ≡ frame }
{
    let late = frame.initial as u64 + 256 * frame.transfer as u64;
    let switches = frame.used as u64
        + 256 * (frame.modified as u64 + 256 * (frame.wired as u64 + 256 * late));
    frame.page as u64 + 65536 * switches
}

// A number as a frame.
fn unpack(number: u64) -> Frame
    ensures { result ≡ unpack number }
{
    let used = number / 65536;
    let modified = used / 256;
    let wired = modified / 256;
    let initial = wired / 256;
    let transfer = initial / 256;
    Frame {
        page: (number % 65536) as u16,
        used: (used % 256) as u8,
        modified: (modified % 256) as u8,
        wired: (wired % 256) as u8,
        initial: (initial % 256) as u8,
        transfer: (transfer % 256) as u8,
    }
}

// A frame, empty past the end.
pub fn frame_at(frames: &[u64], f: usize) -> Frame
    ensures { result ≡ frame_at (unpacked frames.now) f }
{
    unpack(at(frames, f))
}

// A frame stored anew; none past the end.
pub fn put_frame(frames: &mut [u64], f: usize, frame: Frame)
    ensures { unpacked frames.new ≡ set (unpacked frames.old) f frame }
{
    if f < frames.len() {
        frames[f] = pack(frame);
    }
}

// Whether a frame's number has the page's entry.
fn has_page(number: u64, entry: u64) -> bool
    ensures { result ≡ test (same (number % 65536) entry) }
{
    number % 65536 == entry
}

// Whether one of the four frames from f on has the page.
fn in_four(frames: &[u64], f: usize, entry: u64) -> bool
    requires { f + 3 < length frames.now }
    ensures { result ≡ test (in_four frames.now entry f) }
{
    let low = has_page(frames[f], entry) | has_page(frames[f + 1], entry);
    let high = has_page(frames[f + 2], entry) | has_page(frames[f + 3], entry);
    low | high
}

// So many of the frames, passed four at a time, that none of them has the page.
fn pass_fours(frames: &[u64], count: usize, entry: u64) -> usize
    ensures within { result ≤ count }
    ensures before { (k : ℕ) → k < result → at frames.now k % 65536 ≡ entry → ⊥ }
{
    let most = count.min(frames.len());
    let mut f = 0;
    // No `for`: a step takes four frames and a test ends it: one by one is slower (docs/BENCHMARKS.md, what was tried).
    while 4 <= most - f {
        if in_four(frames, f, entry) {
            return f;
        }
        f += 4;
    }
    f
}

// The first frame that the page is in, or the count of frames where it is in none.
pub fn frame_of(frames: &[u64], count: usize, page: usize) -> usize
    requires { page < 65535 }
    ensures { result ≡ frame_in count (unpacked frames.now) page }
{
    let entry = (page + 1) as u64;
    let start = pass_fours(frames, count, entry);
    for f in start..count {
        if has_page(at(frames, f), entry) {
            return f;
        }
    }
    count
}
