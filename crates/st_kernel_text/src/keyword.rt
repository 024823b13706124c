// The words with which chunks begin.

/// With which word a declaration, or the start, begins.
#[derive(Clone, Copy)]
pub(crate) enum Keyword {
    Class,
    Pool,
    Global,
    Start,
}
