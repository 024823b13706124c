//! The parser: from the bytes of a method's text to its tree, or its first fault; and the printer, which goes back.
#![tactic(auto)]

mod bodies;
mod expression;
mod kinds;
mod literal;
mod method;
mod names;
mod parser;
mod read;
mod sends;

pub use parser::parse;
pub use st_grammar::{one_fault, one_tree};
pub use st_print::print;
