// Design sheets on the board: import and export, over the tables that they need.
#![tactic(auto)]

pub mod asks; // the questions
pub mod take; // the records that an import takes
pub mod steps; // the stores of an import, each a function of its own
pub mod pages; // the pages of a sheet, each stored by such a step
pub mod import; // import
pub mod export; // export
