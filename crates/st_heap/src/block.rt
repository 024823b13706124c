use st_model::Oop;

/// Words that lie one after another. A block without an owner is a hole, or nothing where it has no words.
#[derive(Clone, Copy)]
pub struct Block {
    /// The pointer whose object the words are, or 0, which no object bears.
    pub owner: Oop,
    /// The place of the first word.
    pub at: u32,
    /// The number of words.
    pub len: u32,
}

impl Block {
    /// No block.
    pub const NONE: Block = Block {
        owner: Oop(0),
        at: 0,
        len: 0,
    };
}
