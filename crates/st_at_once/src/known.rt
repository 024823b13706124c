use st_model::{Oop, Word};

/// An object near at hand.
#[derive(Clone, Copy)]
pub(crate) struct Body {
    /// Its pointer.
    pub object: Oop,
    /// The place at which it stands.
    pub place: u32,
}

/// What is known of an object of kind Pointers. Nothing is where it has 0 fields.
#[derive(Clone, Copy)]
pub struct Fields {
    /// The object's word.
    pub object: Word,
    /// How many fields it has.
    pub number: u32,
    /// The place at which it stands.
    pub place: u32,
}

impl Fields {
    /// Nothing.
    pub const NONE: Fields = Fields {
        object: Word::NIL,
        number: 0,
        place: 0,
    };
}

/// What is known of a method. Nothing is where it has neither literals nor bytecodes.
#[derive(Clone, Copy)]
pub struct Code {
    /// The method's word.
    pub method: Word,
    /// How many literals it has.
    pub literals: u32,
    /// The number, from 0, of its first bytecode.
    pub first: i32,
    /// The number behind that of its last bytecode, at most 16382.
    pub end: i32,
    /// The place at which it stands.
    pub place: u32,
}

impl Code {
    /// Nothing.
    pub const NONE: Code = Code {
        method: Word::NIL,
        literals: 0,
        first: 0,
        end: 0,
        place: 0,
    };
}

/// What is known of the active context, its home and its method, and of the last object that was made, until it may be dropped.
#[derive(Clone, Copy)]
pub struct NearPlaces {
    pub active: Fields,
    pub home: Fields,
    pub code: Code,
    pub made: Fields,
}

impl NearPlaces {
    /// Nothing.
    pub const NONE: NearPlaces = NearPlaces {
        active: Fields::NONE,
        home: Fields::NONE,
        code: Code::NONE,
        made: Fields::NONE,
    };
}
