//! A memory as it would be after a row of a bytecode, whose changes are noted and not made.
#![tactic(auto)]

mod change;
mod draft;
mod exchanges;
mod notes;

pub use draft::Draft;
