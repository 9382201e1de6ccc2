// Design sheets: a run of fields with a one-byte tag and a two-byte length, every number high byte first.
#![tactic(auto)]

pub mod read; // what a byte string says as a sheet
pub mod print; // the fields of a sheet, laid over a buffer
