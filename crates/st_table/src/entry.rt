use st_model::{Kind, Oop};

/// What the table keeps of an object.
#[derive(Clone, Copy)]
pub struct Entry {
    /// The place of the object's first word in the heap.
    pub at: u32,
    /// What its body consists of.
    pub kind: Kind,
    /// Whether the last byte of its last word is no part of it.
    pub odd: bool,
    /// The next object of the list that the object is in.
    pub next: Oop,
    /// The object before it there.
    pub before: Oop,
}
