//! What a debugger sees of a machine: the bytecode that comes, whether a method is entered, and the stack. All of it is read from a
//! memory and its registers; nothing is changed, and no memory is taken.
#![tactic(auto)]

mod context;
mod stack;
mod watching;

pub use stack::frames;
pub use watching::{At, entered, push_at, watch};
