//! The bytecodes (chapter 28): the rows of the book's table in code, over any objects, and calls over a memory: one says what
//! the next bytecode would take, one does it then, and one does a primitive by its number.
#![tactic(auto)]

mod calling;
mod execute;
mod flags;
mod jump;
mod numbers;
mod perform;
mod returns;
mod rows;
mod send;
mod stepping;

pub use calling::try_primitive;
pub use rows::bytecode;
pub use stepping::{outcome, plan, step};
