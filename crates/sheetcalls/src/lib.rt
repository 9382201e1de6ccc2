// The calls about design sheets, over everything that is lent: questions 1 and 2 are asked once, then the work is done.
#![tactic(auto)]

pub mod import; // a sheet into an empty slot
pub mod export; // a design as a sheet
