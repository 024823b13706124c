//! The printer: from a method's tree to its text. What is printed of a text's tree means this tree again, places aside.
#![tactic(auto)]

mod expression;
mod laws;
mod literal;
mod method;
mod rank;
mod words;

pub use laws::print_back;
pub use method::print;
