ghost use Rattle.std.specs.Prelude.{◌≡◌, ◌<◌, ◌≤◌};
ghost use Rattle.st_model.specs.Values.{word, value};
ghost use Rattle.st_model.specs.Methods.{bits_of, flag_of, temporary_count, is_large, literal_count, context_size};

use st_model::{Oop, Word};

/// The header of a method, as a word that a bytecode's row works on. All bits of a word that is no SmallInteger count as 0.
#[derive(Clone, Copy, Debug, PartialEq, Eq)]
pub struct Header(pub Word);

impl Header {
    /// The bits of a header, which is a SmallInteger.
    #[tactic(auto, using(crate::proofs::Bits::bits))]
    fn bits(self) -> u32
        ensures { result ≡ bits_of (word self.0) }
    {
        if self.0.is_small() { self.0.0 >> 1 } else { 0 }
    }

    /// What it says of how the method is executed.
    pub fn flag(self) -> u32
        ensures { result ≡ flag_of (word self.0) }
    {
        self.bits() / 4096
    }

    /// How many temporary variables the method has, its arguments included.
    pub fn temporaries(self) -> u32
        ensures count { result ≡ temporary_count (word self.0) }
        ensures small { result < 32 }
    {
        self.bits() / 128 % 32
    }

    /// How many literals the method has.
    pub fn literals(self) -> u32
        ensures count { result ≡ literal_count (word self.0) }
        ensures small { result < 64 }
    {
        self.bits() % 64
    }

    /// Whether the method has a large context.
    pub fn is_large(self) -> bool
        ensures { result ≡ is_large (word self.0) }
    {
        self.bits() / 64 % 2 == 1
    }

    /// How many fields a context of the method has.
    pub fn context_size(self) -> u32
        ensures size { result ≡ context_size (word self.0) }
        ensures small { result ≤ 38 }
    {
        if self.is_large() { 38 } else { 18 }
    }
}

impl From<Oop> for Header {
    ghost from_gives = { λ o h. word h.0 ≡ value o };

    fn from(o: Oop) -> Header {
        Header(Word::from(o))
    }
}
