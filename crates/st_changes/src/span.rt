// A range of bytes of a file.

/// A range of bytes of a file, from the place `at` on.
#[derive(Clone, Copy, Debug, PartialEq, Eq)]
pub struct Span {
    pub at: u64,
    pub length: u64,
}
