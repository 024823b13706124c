use st_model::Oop;

/// What a line that runs a machine looks for before each of its cycles.
#[derive(Clone, Copy)]
pub(crate) enum Watch {
    /// `run`: nothing.
    Nothing,
    /// `trace`: the bytecode that comes, which is said.
    Bytecodes,
    /// `until`: the first bytecode of the method under this pointer. From the second cycle on the line stops before it.
    Entry(Oop),
}
