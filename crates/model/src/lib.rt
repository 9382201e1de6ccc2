// The types that the definitions share with all code, a module for each subject. The definitions of paper 01 stand in specs/.
#![tactic(auto)]

pub mod sizes; // the sizes and their limits
pub mod frame; // a memory frame; the pool: the hand and the count of free records
pub mod event; // the events and their answer
pub mod applied; // what the work of an event hands back by value
pub mod lines; // the states of a record and the lines between them
pub mod refusals; // the refusals, each by the question that says no
pub mod lent; // the lent tables, to be read
pub mod request; // a request as numbers, and its event
