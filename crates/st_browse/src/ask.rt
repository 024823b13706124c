//! What is asked of an image, with its words.

ghost use Rattle.std.specs.Prelude.{◌≡◌};
ghost use Rattle.st_chunk.specs.Asks.{ask_of, side_of};
ghost use Rattle.st_browse.specs.inside.Questions.{question, side_meant};

use st_chunk::{LentAsk as Asked, LentSide as Lent};
use st_model::Oop;

/// A class's side.
#[derive(Drop)]
pub struct Side {
    /// The name of the class.
    pub class: Vec<u8>,
    /// Whether the class side is meant.
    pub meta: bool,
}

/// What is asked of an image.
#[derive(Drop)]
pub enum Ask {
    /// The object of this pointer.
    Object(Oop),
    /// The Form that is shown.
    Display,
    /// The names of all classes.
    Classes,
    /// The selectors of a class's methods.
    Methods(Side),
    /// The text of a class's method of this selector.
    Source(Side, Vec<u8>),
    /// The bytecodes of a class's method of this selector.
    Bytecodes(Side, Vec<u8>),
    /// The methods that send this selector.
    Senders(Vec<u8>),
}

impl Side {
    /// The same, as a line has it.
    pub(crate) fn lend(&self) -> Lent<'_>
        ensures { side_of result ≡ side_meant self.now }
    {
        Lent {
            class: self.class.as_slice(),
            meta: self.meta,
        }
    }
}

impl Ask {
    /// The same, as a line has it.
    pub(crate) fn lend(&self) -> Asked<'_>
        ensures { ask_of result ≡ question self.now }
    {
        match self {
            Ask::Object(o) => Asked::Object(o.0),
            Ask::Display => Asked::Display,
            Ask::Classes => Asked::Classes,
            Ask::Methods(side) => Asked::Methods(side.lend()),
            Ask::Source(side, selector) => Asked::Source(side.lend(), selector.as_slice()),
            Ask::Bytecodes(side, selector) => Asked::Bytecodes(side.lend(), selector.as_slice()),
            Ask::Senders(selector) => Asked::Senders(selector.as_slice()),
        }
    }
}
