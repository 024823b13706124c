//! The grammar of methods' texts, as definitions; its laws; the tokens as it sees them, and what stops a reader.
#![tactic(auto)]

mod laws;
pub mod leaf;
pub mod read;

pub use laws::{formed_tree, one_fault, one_syntax, one_tree};
