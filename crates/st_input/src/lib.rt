//! What a primitive leaves to be done on a memory and on what lies round it (chapter 29); where there is no such object or no such
//! place, nothing is done.
#![tactic(auto)]

mod bytes;
mod carry;
mod methods;
mod named;
mod pixels;
mod tried;
mod units;
mod world;

pub use carry::carry_out;
pub use st_frames::World;
pub use st_model::{Event, InputFull, Outcome};
pub use tried::Tried;
