// What the chunks of a kernel text say.
use crate::shape::Shape;

/// A text's bytes.
pub type Text = Vec<u8>;

/// `class NAME super NAME KIND names`.
#[derive(Drop)]
pub struct Class {
    pub name: Text,
    /// The name of the superclass, or `nil`.
    pub above: Text,
    pub shape: Shape,
    /// The names of the class's own instance variables.
    pub variables: Vec<Text>,
}

/// `pool NAME names`.
#[derive(Drop)]
pub struct Pool {
    /// The name of the class.
    pub class: Text,
    /// The names of class variables.
    pub variables: Vec<Text>,
}

/// A side of a class.
#[derive(Drop)]
pub struct Side {
    /// The name of the class.
    pub class: Text,
    /// Whether it is the class side.
    pub meta: bool,
}

/// `start NAME SELECTOR`.
#[derive(Drop)]
pub struct Start {
    /// The name of the global whose value is the receiver.
    pub receiver: Text,
    pub selector: Text,
}

/// What a chunk says.
#[derive(Drop)]
pub enum Part {
    Class(Class),
    Pool(Pool),
    /// `global NAME`.
    Global(Text),
    /// The empty chunk that opens a group.
    Opening,
    /// The header of a group: whose methods follow.
    Header(Side),
    /// A method's text, without blanks at its ends.
    Method(Text),
    /// The empty chunk that closes a group.
    Closing,
    Start(Start),
}
