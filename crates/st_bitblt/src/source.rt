use st_model::Oop;

/// Where pixels come from.
#[derive(Clone, Copy)]
pub enum Source {
    /// Ones, wherever.
    Ones,
    /// An object of kind Words, with so many of them.
    Words { object: Oop, length: u32 },
}

/// Where pixels come from, and the object of kind Words to which they go.
#[derive(Clone, Copy)]
pub struct Ends {
    pub source: Source,
    pub dest: Oop,
}

/// Which pixels are copied: n, to the destination's from place p on, from the source's from place q on.
#[derive(Clone, Copy)]
pub struct Places {
    pub p: u32,
    pub q: u32,
    pub n: u32,
}
