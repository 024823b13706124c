//! Reads an image file: its fault, the first two objects that share a word among them, or its objects. Writes one, and says that
//! what is written is read back.
#![tactic(auto)]

mod checks;
mod error;
mod form;
mod head;
mod image;
mod laws;
mod lengths;
mod loading;
mod numbers;
mod objects;
mod reading;
mod roots;
mod shape;
mod spans;

pub use error::ReadImage;
pub use head::HeadValues;
pub use laws::{
    can_start, fault_is_determined, image_back, no_fault_is_well_formed, well_formed_begins,
};
pub use reading::read;
pub use st_writer::write;
