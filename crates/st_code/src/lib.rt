//! The compiler: from a method's tree and the names of its class to its header, literals and bytecodes.
#![tactic(auto)]

mod bytes;
mod checking;
mod compiler;
mod fault;
mod method;
mod simple;
mod whole;

pub use compiler::{MethodParts, compile};
pub use fault::{Cause, CodeFault, Fault};
pub use st_emit::{Literal, LiteralList, NamedOops, Names, TextList};
