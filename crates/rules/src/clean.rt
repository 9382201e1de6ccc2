// The words of clean frames.
ghost use Rattle.std.specs.Prelude.{◌≡◌, ◌+◌, ◌*◌, ◌≤◌, ◌<◌, length};
ghost use Rattle.tables.specs.Base.{at};
ghost use Rattle.tables.specs.Rule.{same, each, test, Holds};
ghost use Rattle.model.specs.Rules.{fit};
ghost use Rattle.rules.specs.Passes.{content, clean_frame};

use leaves::words::all_zero;
use model::frame::{Frame, NONE};
use model::lines::LIVE;

// w words of a from i up, and of b from j up: all are looked at, so that many are compared at once.
pub fn equal(a: &[u32], i: usize, b: &[u32], j: usize, w: usize) -> bool
    requires { (i + w ≤ length a.now) × (j + w ≤ length b.now) }
    ensures { result ≡ test (each w (λ k. same (at a.now (i + k)) (at b.now (j + k)))) }
{
    let mut ok = true;
    for k in 0..w {
        ok &= a[i + k] == b[j + k];
    }
    ok
}

fn content_ok(w: usize, f: usize, r: usize, state: u8, words: &[u32], records: &[u32]) -> bool
    requires { (f * w + w ≤ length words.now) × (r * w + w ≤ length records.now) }
    ensures { result ≡ test (content w f r state words.now records.now) }
{
    if state == LIVE {
        return equal(words, f * w, records, r * w, w);
    }
    all_zero(words, w, f)
}

// An unmodified frame in service equals its live record, or is zeros if its address is nulled.
pub fn clean(
    w: usize,
    x: Frame,
    f: usize,
    words: &[u32],
    records: &[u32],
    addresses: &[u16],
    states: &[u8],
) -> bool
    requires { (f * w + w ≤ length words.now) × (length states.now * w ≤ length records.now) × (x.page ≤ length addresses.now) × Holds (fit (length addresses.now) (length states.now) (at addresses.now)) }
    ensures { result ≡ test (clean_frame w x f words.now records.now addresses.now states.now) }
{
    if x.page == 0 {
        return true;
    }
    if x.transfer != NONE {
        return true;
    }
    if x.modified != 0 {
        return true;
    }
    let i = x.page as usize - 1;
    let a = addresses[i] as usize;
    if a == 0 {
        return true;
    }
    let r = a - 1;
    content_ok(w, f, r, states[r], words, records)
}
