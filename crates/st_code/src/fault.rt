//! Why a tree has no code.

ghost use Rattle.std.specs.Prelude.{◌≡◌, Some};
ghost use Rattle.st_code.specs.declared.fault.CodeFault.TheVariants.{At, OutOfMemory};
ghost use Rattle.st_code.specs.Reported.{cause_number, fault_text};

use std::alloc::AllocError;
use std::error::Error;
use std::fmt;

/// The first fault of a tree, or want of memory.
#[derive(Clone, Copy, Debug, PartialEq, Eq)]
pub enum CodeFault {
    /// A fault, as `Fault`, with the number of its cause.
    At { place: u32, cause: u8 },
    OutOfMemory,
}

/// A fault of the token that begins at `place`, counted from 1, or of the method as a whole at place 0.
#[derive(Clone, Copy)]
pub struct Fault {
    pub place: u32,
    pub cause: Cause,
}

/// What is wrong. `Unknown`, `Twice`, `Store` and `Number` have a place, and the first of these in the text is reported;
/// where there is none, the first of the others in their order here.
#[derive(Clone, Copy)]
pub enum Cause {
    /// A name that means nothing.
    Unknown = 1,
    /// A name that is declared in scope already.
    Twice = 2,
    /// A store to what cannot be stored into.
    Store = 3,
    /// A number below the least SmallInteger.
    Number = 9,
    /// No symbol table.
    Symbols = 10,
    /// A primitive's number that is not in 1 to 255.
    Primitive = 8,
    /// More than 63 literals.
    Literals = 4,
    /// More than 31 temporaries.
    Temporaries = 5,
    /// More words on the stack than a large context has room for.
    Depth = 6,
    /// A jump that is too far.
    Jump = 7,
    /// More than 131,066 bytes.
    Size = 11,
}

impl Cause {
    /// The number of this cause, from 1 to 11.
    pub fn number(self) -> u8
        ensures { result ≡ cause_number self }
    {
        self as u8
    }
}

impl From<Fault> for CodeFault {
    ghost from_gives = { λ fault e. e ≡ At fault.place (cause_number fault.cause) };

    fn from(fault: Fault) -> CodeFault {
        CodeFault::At {
            place: fault.place,
            cause: fault.cause.number(),
        }
    }
}

impl fmt::Display for CodeFault {
    ghost output = { λ fault. Some (fault_text fault) };

    fn fmt<W: fmt::Write>(&self, f: &mut fmt::Formatter<W>) -> fmt::Result {
        match self {
            CodeFault::At { place, cause } => write!(f, "code {place} {cause}"),
            CodeFault::OutOfMemory => write!(f, "out of memory"),
        }
    }
}

impl Error for CodeFault {}

impl From<AllocError> for CodeFault {
    ghost from_gives = { λ _ e. e ≡ OutOfMemory };

    fn from(_e: AllocError) -> CodeFault {
        CodeFault::OutOfMemory
    }
}
