ghost use Rattle.std.specs.Prelude.{◌≡◌, ◌≤ℤ◌, pos, negsuc, true};
ghost use Rattle.st_model.specs.Values.{is_small, value, integer_of};

/// An object pointer: a word that is a SmallInteger where it is odd, and else names an object.
#[derive(Clone, Copy, Debug, PartialEq, Eq, PartialOrd, Ord)]
pub struct Oop(pub u16);

impl Oop {
    /// The pointer of nil.
    pub const NIL: Oop = Oop(2);

    /// The pointer of false.
    pub const FALSE: Oop = Oop(4);

    /// The pointer of true.
    pub const TRUE: Oop = Oop(6);

    /// Whether it is a SmallInteger.
    pub fn is_small(self) -> bool
        ensures { result ≡ is_small (value self) }
    {
        self.0 & 1 == 1
    }

    /// The integer of a SmallInteger, from -16384 to 16383.
    #[tactic(auto, using(crate::proofs::Words::integers))]
    pub fn integer(self) -> i32
        requires { is_small (value self) ≡ true }
        ensures integer { result ≡ integer_of (value self) }
        ensures low { negsuc 16383 ≤ℤ result }
        ensures high { result ≤ℤ pos 16383 }
    {
        let bits = self.0 >> 1;
        if bits < 16384 {
            i32::from(bits)
        } else {
            i32::from(bits) - 32768
        }
    }
}
