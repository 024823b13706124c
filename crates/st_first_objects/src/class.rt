// The classes that a text declares.
ghost use Rattle.std.specs.Prelude.{◌≡◌, Option};
ghost use Rattle.st_kernel_text.specs.inside.Views.{part_of};
ghost use Rattle.st_first_objects.specs.Classes.{undeclared, is_nil};
ghost use Rattle.st_first_objects.specs.inside.Views.{declared_of};

use st_kernel_text::{Shape, Text};

/// A class by the part that declares it.
#[derive(Clone, Copy)]
pub(crate) struct Declared<'a> {
    /// The number of the part.
    pub(crate) number: usize,
    /// The name of the superclass, or `nil`.
    pub(crate) above: &'a [u8],
    pub(crate) shape: Shape,
    pub(crate) variables: &'a [Text],
    /// How many fields an instance has, at most 64.
    pub(crate) fields: u8,
}

impl<'a> Declared<'a> {
    /// A class that no part declares.
    pub(crate) fn undeclared() -> Declared<'a>
        ensures { declared_of result ≡ undeclared }
    {
        Declared {
            number: 0,
            above: b"nil",
            shape: Shape::Fixed,
            variables: &[],
            fields: 0,
        }
    }
}

/// Whether a superclass's name says that there is none.
pub(crate) fn is_nil(above: &[u8]) -> bool
    ensures { result ≡ is_nil above.now }
{
    above == b"nil".as_slice()
}
