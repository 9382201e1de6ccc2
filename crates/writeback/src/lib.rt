// The events that free frames and records, or move pages and maps to the disk: one function for each.
#![tactic(auto)]

mod by_page; // the frames of one slot's pages, as a table
mod charges; // what a slot's account pays
pub mod claim; // the removal list is looked through for a frame to free or to write
mod cut_pages; // the pages of a slot from k up lose their records
pub mod map_done; // a map update is over
mod names; // what entries name
pub mod page_done; // a transfer is over
mod switches; // one frame as an event leaves it
pub mod truncate; // the pages from k up become zeros
pub mod update; // a map update begins
