// The events about a design: each asks its own questions, in number order, and then works on the tables that it needs.
#![tactic(auto)]

pub mod asks; // the questions of each event
pub mod frames; // no page of a slot in a frame
pub mod maps; // the questions about a slot's map and records
// the events
pub mod activate;
pub mod create;
pub mod deactivate;
pub mod delete;
