/// Numbers of table entries and of heap words.
#[derive(Clone, Copy, Debug, PartialEq, Eq)]
pub struct Demand {
    /// Entries of the object table, one an object.
    pub entries: u32,
    /// Words of 16 bits: two for an object's size and class, and those of its body.
    pub words: u32,
}
