// The frames, from values to packed ones and back: once a call, whatever it carries out.
ghost use Rattle.std.specs.Prelude.{◌≡◌};
ghost use Rattle.leaves.specs.Packed.{unpacked};

use leaves::packed::{frame_at, put_frame};
use model::frame::{Frame, no_frame};

// The frames that a call is handed by value, packed for its questions and its work.
pub fn pack_all(frames: [Frame; 64]) -> [u64; 64]
    ensures { unpacked result ≡ frames }
{
    let mut packed: [u64; 64] = [0; 64];
    for f in 0..64 {
        put_frame(&mut packed, f, frames[f]);
    }
    packed
}

// .. and back.
pub fn unpack_all(packed: [u64; 64]) -> [Frame; 64]
    ensures { result ≡ unpacked packed }
{
    let none = no_frame();
    let mut frames = [none; 64];
    for f in 0..64 {
        frames[f] = frame_at(&packed, f);
    }
    frames
}
