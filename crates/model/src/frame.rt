// What memory keeps as records of numbers. Any bytes may stand there after a cut, so there is no bool and no enum.
ghost use Rattle.std.specs.Prelude.{◌≡◌, replicate};
ghost use Rattle.model.specs.State.{no_frame};

// The transfers of a frame.
pub const NONE: u8 = 0;

pub const READING: u8 = 1;

pub const WRITING: u8 = 2;

// A memory frame. page: 0 for none, else the flat page number + 1. Switches: 0 or 1. transfer: one of the three.
#[repr(C)]
#[derive(Clone, Copy)]
pub struct Frame {
    pub page: u16,
    pub used: u8,
    pub modified: u8,
    pub wired: u8,
    pub initial: u8,
    pub transfer: u8,
}

// A frame with no page and no switch on.
pub fn no_frame() -> Frame
    ensures { result ≡ no_frame }
{
    Frame {
        page: 0,
        used: 0,
        modified: 0,
        wired: 0,
        initial: 0,
        transfer: NONE,
    }
}

// 64 such frames.
pub fn no_frames() -> [Frame; 64]
    ensures { result ≡ replicate 64 no_frame }
{
    let none = no_frame();
    [none; 64]
}

// The hand, where the search for a free record starts for a page without a neighbour, and the count of free records.
#[repr(C)]
#[derive(Clone, Copy)]
pub struct Pool {
    pub hand: u32,
    pub free: u32,
}
