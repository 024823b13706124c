/// What the body of an object consists of.
#[derive(Clone, Copy)]
pub enum Kind {
    /// Fields that hold pointers.
    Pointers,
    /// Words of 16 bits.
    Words,
    /// Bytes.
    Bytes,
    /// A header, literals and bytecodes: a CompiledMethod.
    Method,
}

impl Kind {
    ghost use Rattle.std.specs.Prelude.{◌≡◌};
    ghost use Rattle.st_model.specs.Objects.{is_pointers, is_words, is_method};

    /// Whether it is Pointers.
    pub fn is_pointers(self) -> bool
        ensures { result ≡ is_pointers self }
    {
        matches!(self, Kind::Pointers)
    }

    /// Whether it is Words.
    pub fn is_words(self) -> bool
        ensures { result ≡ is_words self }
    {
        matches!(self, Kind::Words)
    }

    /// Whether it is Method.
    pub fn is_method(self) -> bool
        ensures { result ≡ is_method self }
    {
        matches!(self, Kind::Method)
    }
}
