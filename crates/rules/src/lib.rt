// The rules of question 2, one function a rule, and the passes over the tables that ask them.
#![tactic(auto)]

pub mod marks; // nothing named twice, and whether it is named
pub mod slots; // slots on the disk and in memory
pub mod pages; // a page's entries in the stored map, held, and in the image
pub mod rows; // the pass over all pages
pub mod records; // states and slots of records
pub mod queues; // the free queue and the removal list
pub mod frames; // frames: switches, places, pages; the pass over all of them
pub mod clean; // the words of clean frames
pub mod counts; // the hand, the free count, the free map, the used counts
