// What a declared name is that of.
use crate::shape::Shape;

/// The layout of a class's instances.
#[derive(Clone, Copy)]
pub struct Layout {
    /// The number of the part that declares the class.
    pub number: usize,
    pub shape: Shape,
    /// How many fields an instance has, at most 64.
    pub fields: u8,
    /// Whether the class has class variables.
    pub shares: bool,
}

/// What a declared name is that of.
#[derive(Clone, Copy)]
pub(crate) enum Named {
    Global,
    Class(Layout),
}
