//! The objects of a kernel text before its first method: what its declarations make, each in its place.
#![tactic(auto)]

mod class;
mod content;
mod first;
mod order;
mod ordering;
mod placing;
mod plan;
mod thing;
mod unmade;
mod wanted;

pub use first::make_first;
pub use thing::{Thing, What};
pub use unmade::Unmade;
