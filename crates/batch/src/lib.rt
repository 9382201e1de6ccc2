// One request, or a list of them, in one call: questions 1 and 2 are asked once, since every event leaves the tables as they want them.
#![tactic(auto)]

pub mod apply_all; // a list
pub mod apply_one; // one
pub mod asked; // .. both, over frames that are packed
pub mod numbers; // requests and answers as numbers
pub mod turn; // one request
pub mod turns; // so many, once questions 1 and 2 were answered yes
