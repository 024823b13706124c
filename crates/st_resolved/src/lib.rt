//! Resolved nodes: what they name stands at its place, and their instructions are read back from their bytes.
#![tactic(auto)]

mod reading;

pub use reading::{Found, instruction};
