// The page keeper's calls, for firmware to link: all tables are lent by the caller, and no call has a precondition.
// Each does its work on values, in crate `calls`, a list of requests in crate `batch`, design sheets in crate `sheetcalls`; here stands what is lent. A name with the prefix is a C symbol (include/keeper.h).
#![tactic(auto)]

pub mod apply; // every event, asked for by a request
pub mod apply_all; // a list of requests
pub mod restart; // restart, from the disk part alone
pub mod format; // a new disk part
pub mod mend; // a disk part that restart turns away
pub mod export; // a design as a sheet
pub mod import; // a sheet into an empty slot
pub mod looks; // the page looks, for Rattle and for C
pub mod frames; // the lent frames as an array, and back
pub mod pool; // a record taken, records deposited
