//! Why a text means no method.

ghost use Rattle.std.specs.Prelude.{◌≡◌, Some};
ghost use Rattle.st_scan.specs.declared.fault.SyntaxFault.TheVariants.{At, OutOfMemory};
ghost use Rattle.st_scan.specs.TreeFaults.{cause_number, fault_text};

use std::alloc::AllocError;
use std::error::Error;
use std::fmt;

/// The first fault of a text, or want of memory.
#[derive(Clone, Copy, Debug, PartialEq, Eq)]
pub enum SyntaxFault {
    /// A fault, as `Fault`, with the number of its cause.
    At { place: u32, cause: u8 },
    OutOfMemory,
}

/// A fault of the token that begins at `place`, counted from 1. The place of a text's end is one past its last byte.
#[derive(Clone, Copy, Debug, PartialEq, Eq)]
pub struct Fault {
    pub place: u32,
    pub cause: Cause,
}

/// What is wrong at a place. Where several causes stand at one place, the least number is reported.
#[derive(Clone, Copy, Debug, PartialEq, Eq)]
pub enum Cause {
    /// A byte that begins no token.
    Character = 1,
    /// A string or a comment without an end.
    Unclosed = 2,
    /// A token that cannot stand there.
    Expected = 3,
    /// A number with a bad radix or digit, or above the greatest one.
    Number = 4,
    /// A number with a fraction or an exponent.
    Float = 5,
    /// One more than 200 open brackets.
    Deep = 6,
    /// A token behind what could be the whole method.
    Trailing = 7,
}

impl Cause {
    /// The number of this cause, from 1 to 7.
    pub fn number(self) -> u8
        ensures { result ≡ cause_number self }
    {
        self as u8
    }
}

impl From<Fault> for SyntaxFault {
    ghost from_gives = { λ fault e. e ≡ At fault.place (cause_number fault.cause) };

    fn from(fault: Fault) -> SyntaxFault {
        SyntaxFault::At {
            place: fault.place,
            cause: fault.cause.number(),
        }
    }
}

impl fmt::Display for SyntaxFault {
    ghost output = { λ fault. Some (fault_text fault) };

    fn fmt<W: fmt::Write>(&self, f: &mut fmt::Formatter<W>) -> fmt::Result {
        match self {
            SyntaxFault::At { place, cause } => write!(f, "syntax {place} {cause}"),
            SyntaxFault::OutOfMemory => write!(f, "out of memory"),
        }
    }
}

impl Error for SyntaxFault {}

impl From<AllocError> for SyntaxFault {
    ghost from_gives = { λ _ e. e ≡ OutOfMemory };

    fn from(_e: AllocError) -> SyntaxFault {
        SyntaxFault::OutOfMemory
    }
}
