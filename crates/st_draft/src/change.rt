use st_model::Word;

/// A change of fields that a row makes.
#[derive(Clone, Copy)]
pub enum Change {
    /// A value is stored in a field of an object.
    Field {
        object: Word,
        at: u32,
        value: Word,
    },
    /// n fields of one object, from one on, are copied to those of another.
    Fields {
        n: u32,
        source: Word,
        from: u32,
        target: Word,
        to: u32,
    },
}

/// Two objects that exchange class, kind and body.
#[derive(Clone, Copy)]
pub struct Exchange {
    pub first: Word,
    pub second: Word,
}

/// What stood in a field before a change: a value that the change stores there, or what a field of the table before
/// it has.
#[derive(Clone, Copy)]
pub enum Origin {
    FromValue(Word),
    FromPlace(Word, u32),
}
