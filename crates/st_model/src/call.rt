ghost use Rattle.std.specs.Prelude.{◌<◌};

use crate::word::Word;

/// A method that is to be executed: its arguments, and below them the receiver, stand on top of the stack.
#[derive(Clone, Copy)]
pub struct Call {
    /// The method.
    pub method: Word,
    /// How many arguments it takes.
    pub arguments: u32,
    pub ghost few: { arguments < 16384 },
}
