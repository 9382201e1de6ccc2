// The free queue, the removal list and the waiting line.
ghost use Rattle.std.specs.Prelude.{◌≡◌, ◌+◌, ◌≤◌, ◌<◌, length};
ghost use Rattle.tables.specs.Base.{at};
ghost use Rattle.tables.specs.Queue.{queue, queue_of};
ghost use Rattle.tables.specs.Rule.{same, each, test, Holds};
ghost use Rattle.model.specs.Sizes.{most_frames};
ghost use Rattle.rules.specs.Passes.{queue_entry, counted};

use leaves::cells::at;
use model::sizes::Sizes;

fn entry_ok(bound: u16, entry: u16, next: u16) -> bool
    ensures { result ≡ test (queue_entry bound entry next) }
{
    (entry <= bound) & ((entry != 0) | (next == 0))
}

// The first `count` entries name numbers below the bound, and after a 0 there are only zeros: all are looked at, so that many are
// compared at once.
pub fn queue(count: usize, bound: usize, entries: &[u16]) -> bool
    requires { (count ≤ length entries.now) × (bound < 65536) }
    ensures { result ≡ test (queue_of count bound entries.now) }
{
    if count == 0 {
        return true;
    }
    let most = bound as u16;
    let last = count - 1;
    let mut ok = true;
    for k in 0..last {
        ok &= entry_ok(most, entries[k], entries[k + 1]);
    }
    ok & entry_ok(most, entries[last], at(entries, count))
}

// How often each frame is in the queue, from a table of zeros.
pub fn places(entries: &[u16], none: [u8; Sizes::MOST_FRAMES]) -> [u8; Sizes::MOST_FRAMES]
    requires { (length entries.now ≤ most_frames) × (length none ≡ most_frames) × Holds (each most_frames (λ f. same (at none f) 0)) × Holds (queue (length entries.now) entries.now) }
    ensures { Holds (counted most_frames entries.now result) }
{
    let mut t = none;
    for entry in entries {
        let e = *entry as usize;
        if e == 0 {
            return t;
        }
        t[e - 1] += 1;
    }
    t
}
