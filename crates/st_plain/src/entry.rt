use st_model::{Kind, Oop};

/// Where an object's fields and units are in the two lists of a memory.
#[derive(Clone, Copy)]
pub struct Entry {
    /// The object's class.
    pub class: Oop,
    /// What its body consists of.
    pub kind: Kind,
    /// Where its fields begin in the list of pointers.
    pub fields_at: u32,
    /// How many fields it has; of a method its header and literals.
    pub fields: u32,
    /// Where its units begin in the list of units.
    pub units_at: u32,
    /// How many words or bytes it has.
    pub units: u32,
}

impl Entry {
    ghost use Rattle.std.specs.Prelude.{◌≡◌, ◌≤◌, ◌+◌, ◌*◌};
    ghost use Rattle.st_plain.specs.inside.Lists.{entry_words};

    /// How many words the object has: those of its size, its class and its body.
    pub fn words(&self) -> u32
        requires { 2 * self.now.fields + self.now.units ≤ 131066 }
        ensures words { result ≡ entry_words self.now }
        ensures small { result ≤ 131068 }
    {
        if self.kind.is_words() {
            2 + self.units
        } else {
            2 + self.fields + self.units.div_ceil(2)
        }
    }
}
