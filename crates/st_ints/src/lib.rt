//! The primitives 1 to 18, on two SmallIntegers, and 21 to 37, on two integers from 0 to 2^128 - 1 (chapter 29).
#![tactic(auto)]

mod arithmetic;
mod division;
mod small_shift;
mod sums;
mod wide;
mod wide_shift;

pub use arithmetic::binary;
pub use st_model::{IntAnswer, LargeAnswer};
pub use wide::large;
pub use wide_shift::shift;
