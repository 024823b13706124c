use crate::oop::Oop;

/// How a bytecode ended that was done.
#[derive(Clone, Copy, Debug, PartialEq, Eq)]
pub enum Outcome {
    /// It was done.
    Went,
    /// It was done, and an image is to be saved.
    Snapshot,
    /// It was done, and the bytes of this object are to be said.
    Say(Oop),
    /// It was done, and the run is to end.
    Quit,
    /// It was done, and the run is to end for a debugger.
    Debugger,
}
