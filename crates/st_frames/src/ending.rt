/// How the row of a bytecode ended.
#[derive(Clone, Copy)]
pub enum RowEnd {
    /// The bytecode was done.
    Went,
    /// It was done but for the deed in the registers, which is left to be done.
    Leaves,
    /// It was done, and the bytes of the object in the registers are to be said.
    Says,
    /// It was done, and an image is to be saved.
    Snapshot,
    /// It was done, and the run is to end.
    Quit,
    /// It was done, and the run is to end for a debugger.
    Debugger,
}
