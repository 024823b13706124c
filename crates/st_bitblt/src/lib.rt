//! BitBlt: pixels of one Form are copied to another by whole words (chapter 18).
#![tactic(auto)]

mod bit_blt;
mod copying;
mod direction;
mod form;
mod numbers;
mod paint;
mod row;
mod rows;
mod rule;
mod source;
mod span;
mod stretch;

pub use bit_blt::{BitBlt, read_bit_blt};
pub use copying::copy_bits;
pub use direction::Direction;
pub use form::Form;
