//! The object table: an entry for each pointer in use, and the least pointer that is free.
#![tactic(auto)]

mod entry;
mod free_map;
mod table;

pub use entry::Entry;
pub use table::Table;
