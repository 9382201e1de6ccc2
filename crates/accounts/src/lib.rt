// The events about an account: limit and move. Where one may change who pays, all that is used is counted anew.
#![tactic(auto)]

pub mod copies; // whole tables copied
pub mod count; // each account's used count, worked out afresh
pub mod limit; // an account's limit is set
pub mod shift; // pages of limit move between an account and its parent
