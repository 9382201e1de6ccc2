// The lent frames as values: they are copied to an array of 64, and back from it.
ghost use Rattle.std.specs.Prelude.{◌≡◌};
ghost use Rattle.keeper.specs.Copies.{capped, loaded, saved};

use model::frame::{Frame, no_frames};

// How many frames are copied, of n.
pub fn capped(n: usize) -> usize
    ensures { result ≡ capped n }
{
    n.min(64)
}

// The first frames of the slice, 64 at most; past its end the array has empty frames.
// Shut out: one frame too few; used frames past the end.
pub fn load(frames: &[Frame]) -> [Frame; 64]
    ensures { result ≡ loaded frames.now }
{
    let mut a = no_frames();
    let n = capped(frames.len());
    // No std copy: it asks how far addresses are apart, which is another number on another processor.
    for i in 0..n {
        a[i] = frames[i];
    }
    a
}

// The front of the array goes to the slice, 64 frames at most; what the slice has past them stays.
// Shut out: one frame too few; one frame past the 64 cleared.
pub fn save(frames: &mut [Frame], values: [Frame; 64])
    ensures { frames.new ≡ saved frames.old values }
{
    let n = capped(frames.len());
    for i in 0..n {
        frames[i] = values[i];
    }
}
