//! Bytecodes that are done at once, without being foreseen (chapter 28): pushes, stores, pops, duplicates and jumps, arithmetic on two
//! SmallIntegers, `==` and `class`. `st_step` has all bytecodes. They stand over a `Near`: objects with what is known of the active
//! context, its home and its method while these stay what they are.
#![tactic(auto)]

mod arithmetic;
mod at_once;
mod holding;
mod known;
mod looking;
mod near;
mod objects;
mod passing;

pub use at_once::bytecode_at_once;
pub use near::Near;
