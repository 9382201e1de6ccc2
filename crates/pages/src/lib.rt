// The events about one page: each asks its own questions, in number order, and then works on the tables that it needs.
#![tactic(auto)]

pub mod asks; // the questions about a slot and a page
pub mod supply; // what a fault asks and takes
pub mod charges; // what a write asks of the account that pays, and charges to it
// the events
pub mod fault;
pub mod look;
pub mod read;
pub mod unwire;
pub mod wire;
pub mod write;
