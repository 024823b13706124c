/// What the head of an image file says.
#[derive(Clone, Copy)]
pub struct ImageHead {
    /// The length of the object space in words.
    pub space: u32,
    /// The length of the object table in words, two or three an entry.
    pub table: u32,
    /// The version of the file's form.
    pub version: u32,
    /// How many entries the memory is to have.
    pub entries: u32,
    /// How many words the memory is to have.
    pub words: u32,
    /// The pointer of the global name table; 0 for none.
    pub globals: u32,
    /// The pointer of the symbol table; 0 for none.
    pub symbols: u32,
}
