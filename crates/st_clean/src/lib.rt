//! What an image needs: the root page, the tables of names, and whatever an object refers to that is needed; and the image of just
//! that.
#![tactic(auto)]

mod cleaning;
mod filling;
mod finding;
mod laws;
mod marks;
mod needed;
mod state;

pub use cleaning::{CleanFault, clean};
pub use laws::{clean_image_is_read, one_reach, reach_is_least};
pub use needed::reach;
