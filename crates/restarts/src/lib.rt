// Format and restart: the tables set anew, each from the disk part alone.
#![tactic(auto)]

pub mod format; // the disk part
pub mod filed; // the states and owners of the records
pub mod counts; // used counts, free map, count of free records
pub mod numbers; // the highest number
pub mod queue; // the free queue
pub mod restart; // the memory part
