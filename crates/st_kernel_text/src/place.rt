// Where a chunk of a kernel text stands.

/// Where a chunk stands.
#[derive(Clone, Copy, PartialEq, Eq)]
pub(crate) enum ChunkPlace {
    /// Among the declarations.
    Declarations,
    /// Behind the empty chunk that opens a group.
    Header,
    /// Behind a group's header, or one of its methods.
    Methods,
    /// Behind a group.
    Groups,
    /// Behind the start.
    End,
}
