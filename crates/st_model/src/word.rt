ghost use Rattle.std.specs.Prelude.{◌≡◌, ◌≤ℤ◌, pos, negsuc, true};
ghost use Rattle.st_model.specs.Values.{word, value, is_small, integer_of};
ghost use Rattle.st_model.specs.Steps.{same_value};

use crate::oop::Oop;

/// What a bytecode's row works on: an odd word is a SmallInteger, as an object pointer is, and an even one is the double of
/// an object's name. Names below 32768 are those of pointers; those from there on are of objects that aren't made yet.
#[derive(Clone, Copy, Debug, PartialEq, Eq)]
pub struct Word(pub u32);

impl Word {
    /// The word of nil.
    pub const NIL: Word = Word(2);

    /// The word of SmallInteger, the class of all SmallIntegers.
    pub const SMALL_INTEGER: Word = Word(12);

    /// Whether it is a SmallInteger.
    pub fn is_small(self) -> bool
        ensures { result ≡ is_small (word self) }
    {
        self.0 & 1 == 1
    }

    /// Whether both are the same SmallInteger or the same object.
    #[tactic(auto, using(crate::proofs::Words::same_words))]
    pub fn same(self, other: Word) -> bool
        ensures { result ≡ same_value (word self) (word other) }
    {
        self.0 == other.0
    }

    /// The integer of a SmallInteger, from -16384 to 16383.
    #[tactic(auto, using(crate::proofs::Words::word_integers))]
    pub fn integer(self) -> i32
        requires { is_small (word self) ≡ true }
        ensures integer { result ≡ integer_of (word self) }
        ensures low { negsuc 16383 ≤ℤ result }
        ensures high { result ≤ℤ pos 16383 }
    {
        let bits = self.0 >> 1;
        if bits < 16384 {
            bits as i32
        } else {
            -1 - 32767_u32.saturating_sub(bits) as i32
        }
    }
}

impl From<Oop> for Word {
    ghost from_gives = { λ o w. word w ≡ value o };

    fn from(o: Oop) -> Word {
        Word(u32::from(o.0))
    }
}
