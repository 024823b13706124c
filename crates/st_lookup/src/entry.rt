use st_model::Oop;

/// A method that was found for a selector in a class.
#[derive(Clone, Copy)]
pub struct CachedLookup {
    pub class: Oop,
    pub selector: Oop,
    pub method: Oop,
}

impl CachedLookup {
    /// Nothing: a SmallInteger is no class.
    pub const NONE: CachedLookup = CachedLookup {
        class: Oop(1),
        selector: Oop(1),
        method: Oop(1),
    };
}
