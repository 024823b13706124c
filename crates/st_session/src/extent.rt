/// Which objects of a memory an image gets.
#[derive(Clone, Copy, Debug, PartialEq, Eq)]
pub enum Extent {
    /// All that are kept.
    Kept,
    /// Those that can be reached from the root page and the tables of names.
    Reachable,
}
