// An event over everything that is lent: handed on to its family, and what the chip does with it.
#![tactic(auto)]

pub mod carry; // an event handed on to its family
pub mod chore; // what the chip has to do with an event
pub mod tend; // the chip does it
pub mod whole; // both
