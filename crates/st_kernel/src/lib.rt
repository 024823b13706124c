//! The image of a kernel text: its first objects, its methods installed, and the process with which its machine begins; and the
//! texts of drills.
#![tactic(auto)]

mod beginning;
mod drilling;
mod fault;
mod finding;
mod following;
mod image;
mod laws;
mod part;
mod scheduling;

pub use drilling::drill_text;
pub use fault::KernelFault;
pub use image::build;
pub use laws::{found_starts_begin, lost_starts_are_missing};
