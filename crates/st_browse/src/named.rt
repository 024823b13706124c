//! A name in an image, and what it names.

use st_model::Oop;

/// A name, an object of kind Bytes, and what it names.
#[derive(Clone, Copy)]
pub struct Named {
    /// The object with the name's bytes.
    pub name: Oop,
    /// What is named.
    pub value: Oop,
}
