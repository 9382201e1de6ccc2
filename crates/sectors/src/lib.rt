// The 600-record pack: where each record starts, and which record a sector is in. Each look-up asks question 28 alone; its answer is C's, which crate sectors_c hands on.
#![tactic(auto)]

ghost use Rattle.std.specs.Prelude.{◌≡◌};
ghost use Rattle.tables.specs.Base.{tab};
ghost use Rattle.sectors.specs.Pack.{pack_records, start, start_of, record_of};

use crate::table::STARTS;
use model::event::Answer;

pub mod table; // the 600 starts

// The whole table, each record's first sector at its place.
// Shut out: an entry that no look-up of the tests asks for wrong.
pub fn starts() -> [u16; 600]
    ensures { result ≡ tab pack_records start 0 }
{
    STARTS
}

// The first sector of a record.
// Shut out: an entry of the table wrong by one; 28 for record 599.
pub fn sectors_start_of(record: u32) -> Answer
    ensures { result ≡ start_of «record» }
{
    let at = record as usize;
    if at < 600 {
        return Answer {
            refusal: 0,
            result: u32::from(STARTS[at]),
        };
    }
    Answer {
        refusal: 28,
        result: 0,
    }
}

// The record that a sector is in.
// Shut out: records of 17 sectors on the way back; the last sectors of a cylinder taken for a record's.
pub fn sectors_record_of(sector: u32) -> Answer
    ensures { result ≡ record_of sector }
{
    if (sector < 10000) & (sector % 100 < 96) {
        return Answer {
            refusal: 0,
            result: sector / 100 * 6 + sector % 100 / 16,
        };
    }
    Answer {
        refusal: 28,
        result: 0,
    }
}
