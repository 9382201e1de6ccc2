// What a driver in C calls between the keeper's tables and a device's sectors: bytes, header, places, rows. No call has a precondition.
#![tactic(auto)]

pub mod bytes; // a sector as bytes
pub mod header; // the header sector
pub mod rows; // a table in home sectors
pub mod places; // where things are
pub mod stores; // the journal for C
