//! The reader of a kernel text: from its bytes to what its chunks declare and define, up to the first at which it is wrong.
#![tactic(auto)]

mod cause;
mod declarations;
mod form;
mod keyword;
mod known;
mod named;
mod needs;
mod part;
mod place;
mod reading;
mod shape;
mod table;
mod variables;
mod words;

pub use cause::Cause;
pub use declarations::Declarations;
pub use named::Layout;
pub use part::{Class, Part, Pool, Side, Start, Text};
pub use reading::{Kernel, read};
pub use shape::Shape;
