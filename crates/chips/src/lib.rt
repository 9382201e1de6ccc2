// The chip in between, in code: where a record's copy is, what goes in, what a fault finds, what is dropped, and what question 2 asks of it.
#![tactic(auto)]

pub mod drop; // what is dropped
pub mod place; // where a record's copy is
pub mod put; // what goes in
pub mod ruled; // what question 2 asks
pub mod take; // what a fault finds
