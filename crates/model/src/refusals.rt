// The refusals: each stands under the question that says no. include/keeper.h has their numbers for C.
ghost use Rattle.std.specs.Prelude.{◌≡◌};
ghost use Rattle.model.specs.Refusals.{number, refused, answered};

use crate::applied::Worked;
use crate::event::Answer;

#[derive(Clone, Copy)]
pub enum Refusal {
    // Sizes within limits, every slice of its exact length?
    NoFit,
    // Both sets of rules kept?
    NoRule,
    // Slot, page, word, frame, account below their sizes, k at most N, good 0 or 1, number above 0?
    NoRange,
    // All slot events but create: slot filled?
    NoDesign,
    // Create: slot empty?
    SlotFilled,
    // Create: number in no slot?
    NumberTaken,
    // Delete: map all 0?
    MapNotEmpty,
    // Slot events but create, delete, activate: active?
    NotActive,
    // Activate, delete: inactive?
    Active,
    // Update, deactivate: no update of it under way?
    Updating,
    // Deactivate: no page of it in a frame?
    PagesIn,
    // Deactivate: map equals what an update now would store, no record of it nulled or released?
    MapOld,
    // Read, write, wire, unwire: page in a frame?
    PageOut,
    // These, fault, truncate: no page concerned (truncate: from k up) in transfer?
    // (Read and page look: no read of the page under way? Its write may be.)
    InTransfer,
    // Fault: page in no frame?
    PageIn,
    // Wire, truncate: no page concerned wired?
    Wired,
    // Unwire: wired?
    NotWired,
    // Write to an uncharged page: used below limit?
    AtLimit,
    // Fault without address: a record free?
    NoRecord,
    // Fault: a frame free?
    NoFrame,
    // Claim: list not empty?
    NothingToClaim,
    // Done: such a transfer under way?
    NoTransfer,
    // Mend: the list of S × (N + 2) places or more?
    ListShort,
    // Move: the two are parent and child, m above 0, the giver has m, the taker stays at 65,535 or below?
    NoMove,
    // Move: each account whose limit or count it changes has used at most its limit?
    OverLimit,
    // Join: fewer than 32 waiting?
    LineFull,
    // Import: the sheet of the form?
    SheetWrong,
    // Import: the sheet's W and N this board's?
    SheetOther,
    // Export: the buffer long enough?
    SheetShort,
    // Create, import: number below 2,147,483,648?
    NumberHigh,
    // Create, import: number above the highest ever given?
    NumberGiven,
}

impl Refusal {
    // The number of the question. Number 23 stays unused; 28 is asked by the look-ups of the 600-record pack alone.
    pub fn number(self) -> u32
        ensures { result ≡ number self }
    {
        match self {
            Refusal::NoFit => 1,
            Refusal::NoRule => 2,
            Refusal::NoRange => 3,
            Refusal::NoDesign => 4,
            Refusal::SlotFilled => 5,
            Refusal::NumberTaken => 6,
            Refusal::MapNotEmpty => 7,
            Refusal::NotActive => 8,
            Refusal::Active => 9,
            Refusal::Updating => 10,
            Refusal::PagesIn => 11,
            Refusal::MapOld => 12,
            Refusal::PageOut => 13,
            Refusal::InTransfer => 14,
            Refusal::PageIn => 15,
            Refusal::Wired => 16,
            Refusal::NotWired => 17,
            Refusal::AtLimit => 18,
            Refusal::NoRecord => 19,
            Refusal::NoFrame => 20,
            Refusal::NothingToClaim => 21,
            Refusal::NoTransfer => 22,
            Refusal::ListShort => 24,
            Refusal::NoMove => 25,
            Refusal::OverLimit => 26,
            Refusal::LineFull => 27,
            Refusal::SheetWrong => 29,
            Refusal::SheetOther => 30,
            Refusal::SheetShort => 31,
            Refusal::NumberHigh => 32,
            Refusal::NumberGiven => 33,
        }
    }
}

impl From<Refusal> for Answer {
    ghost from_gives = { λ no answer. answer ≡ refused no };

    fn from(no: Refusal) -> Answer {
        Answer {
            refusal: no.number(),
            result: 0,
        }
    }
}

impl From<Result<u32, Refusal>> for Answer {
    ghost from_gives = { λ found answer. answer ≡ answered found };

    fn from(found: Result<u32, Refusal>) -> Answer {
        match found {
            Ok(result) => Answer { refusal: 0, result },
            Err(no) => Answer::from(no),
        }
    }
}

// A refused event takes nothing and gives nothing back.
impl From<Refusal> for Worked {
    ghost from_gives = { λ no worked. worked ≡ record { taken = 0; deposited = 0; nulled = 0; answer = refused no } };

    fn from(no: Refusal) -> Worked {
        Worked {
            taken: 0,
            deposited: 0,
            nulled: 0,
            answer: Answer::from(no),
        }
    }
}
