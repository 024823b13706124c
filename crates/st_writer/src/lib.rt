//! Writes an image file: the one text that its form gives for a memory.
#![tactic(auto)]

mod head;
mod numbers;
mod object;
mod table;
mod units;
mod writing;

pub use writing::write;
