//! The stack of expressions on which a method's code is read back, and what its variables are called.
#![tactic(auto)]

mod item;
mod make;
mod naming;
mod own;
mod sending;

pub use item::{
    Item, NO_ARGUMENTS, Piece, Stack, Statements, is_low, pop_argument, pop_piece, put_low,
    statements_from, statements_of,
};
pub use make::{choice_tree, constant_tree, literal_tree, loop_tree, small_tree};
pub use naming::{Calling, calling_of, names_value};
pub use sending::{Arguments, Received, arity, doubled, popped, sends};
