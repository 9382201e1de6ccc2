// Question 11: no page of a slot in a frame.
ghost use Rattle.std.specs.Prelude.{◌≡◌, ◌+◌, ◌*◌, ◌<◌};
ghost use Rattle.tables.specs.Rule.{test};
ghost use Rattle.leaves.specs.Packed.{unpacked};
ghost use Rattle.designs.specs.Asks.{unframed};

use leaves::packed::frame_at;

// The slot's pages are those above `start`, as a frame names them, and below `end`.
pub fn none_framed(frames: &[u64], count: usize, pages: usize, slot: usize) -> bool
    requires { slot * pages + pages < 65535 }
    ensures { result ≡ test (unframed count (unpacked frames.now) pages slot) }
{
    let start = slot * pages;
    let end = start + pages + 1;
    for f in 0..count {
        let frame = frame_at(frames, f);
        let page = frame.page as usize;
        if (start < page) & (page < end) {
            return false;
        }
    }
    true
}
