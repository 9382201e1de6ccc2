// One frame as an event leaves it.
ghost use Rattle.std.specs.Prelude.{◌≡◌, ◌<◌, pred};
ghost use Rattle.model.specs.State.{NONE, WRITING};
ghost use Rattle.model.specs.Setters.{set_modified, set_initial, set_transfer};
ghost use Rattle.model.specs.Pages.{fresh};
ghost use Rattle.model.specs.Writeback.{cooled};

use model::frame::{Frame, NONE, WRITING};

// The page is newly in service: initial on, used and modified off.
pub fn served(frame: Frame) -> Frame
    requires { 0 < frame.page }
    ensures { result ≡ fresh (pred frame.page) }
{
    Frame {
        page: frame.page,
        used: 0,
        modified: 0,
        wired: 0,
        initial: 1,
        transfer: NONE,
    }
}

// Used and initial go off.
pub fn cool(frame: Frame) -> Frame
    ensures { result ≡ cooled frame }
{
    Frame {
        page: frame.page,
        used: 0,
        modified: frame.modified,
        wired: frame.wired,
        initial: 0,
        transfer: frame.transfer,
    }
}

// The write has failed: modified on, initial off; used is as the reads since left it.
pub fn unwritten(frame: Frame) -> Frame
    ensures { result ≡ set_transfer NONE (set_modified 1 (set_initial 0 frame)) }
{
    Frame {
        page: frame.page,
        used: frame.used,
        modified: 1,
        wired: frame.wired,
        initial: 0,
        transfer: NONE,
    }
}

// A write begins.
pub fn writing(frame: Frame) -> Frame
    ensures { result ≡ set_transfer WRITING frame }
{
    Frame {
        page: frame.page,
        used: frame.used,
        modified: frame.modified,
        wired: frame.wired,
        initial: frame.initial,
        transfer: WRITING,
    }
}
