//! The cycle, one bytecode with what goes before and after it, and runs of cycles (chapter 28). Between bytecodes the signals that
//! are pending are made, and the machine switches to a process that waits (chapter 29).
#![tactic(auto)]

mod coming;
mod cycling;
mod doing;
mod ending;
mod machine;
mod preparing;
mod running;
mod saving;
mod signals;
mod space;
mod stretch;
mod stride;
mod switch_saving;
mod switching;

pub use ending::RunEnd;
pub use machine::Machine;
pub use preparing::prepared_goes_on;
