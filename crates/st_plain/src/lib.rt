//! An object memory that keeps its objects in plain lists: fields and units as runs of two of them, and marks of their names. No
//! program runs on it.
#![tactic(auto)]

mod adding;
mod closing;
mod contents;
mod dropping;
mod entry;
mod lists;
mod loader;
mod marks;
mod memory;
mod objects;
mod roots;
mod runs;

pub use loader::PlainLoader;
pub use memory::PlainMemory;
