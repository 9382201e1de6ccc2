// The parts that the events of the keeper are built from: each changes or reads one table, by one definition.
#![tactic(auto)]

pub mod addresses; // the address of a page
pub mod asks; // the questions that begin every event about a slot
pub mod cells; // one entry
pub mod close; // the marks close to a number
pub mod marks; // one bit a number
pub mod near; // the choice of a record near another
pub mod numbers; // the stores that give a unique number
pub mod packed; // frames, packed in a lent table
pub mod payer; // who pays
pub mod pool; // the choice of a free record
pub mod queue; // the free queue and the removal list
pub mod records; // leaving records become free
pub mod search; // the search of a map, word by word
pub mod slots; // the entries of one slot
pub mod states; // records move along the lines
pub mod words; // the words of frames and records
