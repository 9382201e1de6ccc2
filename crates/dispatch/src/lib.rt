// The events in their four families, over all tables: each is handed on to its own function with the tables that it needs.
#![tactic(auto)]

pub mod account_event; // limit, move
pub mod design_event; // create, delete, activate, deactivate
pub mod handed; // what an event hands back, put together
pub mod page_event; // fault, read, write, wire, unwire
pub mod writeback_event; // claims, truncates, updates and dones
