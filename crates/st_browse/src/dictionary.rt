//! The dictionary of a class.

use st_model::Oop;

/// A dictionary, in which selectors stand beside methods.
#[derive(Clone, Copy)]
pub struct Dictionary {
    /// The object whose fields are the selectors, from field 2 on.
    pub selectors: Oop,
    /// The object whose fields are the methods.
    pub methods: Oop,
    /// How many places there are for selectors, at most 131066.
    pub places: u32,
}
