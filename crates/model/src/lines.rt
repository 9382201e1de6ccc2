// The lines along which a record moves from state to state.
ghost use Rattle.std.specs.Prelude.{◌≡◌};
ghost use Rattle.model.specs.Lines.{allowed};

// The states of a record.
pub const FREE: u8 = 0;

pub const FILED: u8 = 1;

pub const NULLED: u8 = 2;

pub const LIVE: u8 = 3;

pub const RELEASED: u8 = 4;

pub const LEAVING: u8 = 5;

const STATES: usize = 6;

// A row for each state that a record leaves, a cell for each that it enters.
const LINES: [[bool; STATES]; STATES] = [
    [false, true, true, false, false, false],
    [false, false, false, true, false, false],
    [false, false, false, true, true, true],
    [false, true, true, false, true, false],
    [false, false, false, false, false, true],
    [true, false, false, false, true, false],
];

// Whether a record may move from one state to another. A number that is no state leads nowhere.
pub fn may_move(from: u8, to: u8) -> bool
    ensures { result ≡ allowed from to }
{
    let i = from as usize;
    let j = to as usize;
    if i < STATES && j < STATES {
        LINES[i][j]
    } else {
        false
    }
}
