//! Where names stand in an image.

use crate::dictionary::Dictionary;
use st_model::Oop;

/// Where names stand in an image.
#[derive(Clone, Copy)]
pub enum Names {
    /// Nowhere: there are none.
    Nowhere,
    /// In the members of a table of names, of which there are at most so many.
    Globals(Oop, u32),
    /// At the places of a dictionary.
    Methods(Dictionary),
}
