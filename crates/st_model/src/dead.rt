ghost use Rattle.std.specs.Prelude.{◌≡◌};
ghost use Rattle.st_model.specs.Deaths.{dead_number};

/// Why a machine died.
#[derive(Clone, Copy, Debug, PartialEq, Eq)]
pub enum Dead {
    /// A field, or a literal, that an object doesn't have.
    Field,
    /// An object of another kind than the one that is asked for.
    Kind,
    /// A SmallInteger where an object is needed.
    Small,
    /// No SmallInteger where one is needed.
    NotSmall,
    /// An instruction pointer outside the method's bytecodes.
    Ip,
    /// A stack pointer outside the context's stack.
    Sp,
    /// A bytecode that is never used.
    Code,
    /// A message that isn't understood, by a class without doesNotUnderstand:.
    Unanswered,
    /// No process that can run.
    Idle,
    /// More excess signals of a semaphore than a SmallInteger counts.
    Excess,
    /// A superclass chain of more classes than the table has entries.
    Chain,
    /// A method dictionary without places for selectors.
    Places,
}

impl Dead {
    /// Its number in a report, from 1 to 12.
    pub fn number(self) -> u8
        ensures { result ≡ dead_number self }
    {
        match self {
            Dead::Field => 1,
            Dead::Kind => 2,
            Dead::Small => 3,
            Dead::NotSmall => 4,
            Dead::Ip => 5,
            Dead::Sp => 6,
            Dead::Code => 7,
            Dead::Unanswered => 8,
            Dead::Idle => 9,
            Dead::Excess => 10,
            Dead::Chain => 11,
            Dead::Places => 12,
        }
    }
}
