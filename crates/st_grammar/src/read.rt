//! Reading one leaf, and what stops a reader.

ghost use Rattle.std.specs.Prelude.{◌≡◌, ◌<◌, ◌+◌, ◌^◌, length};
ghost use Rattle.st_grammar.specs.Leaves.{among};
ghost use Rattle.st_grammar.specs.Reading.{Gives, Fails, stop, first, token_at};
ghost use Rattle.st_grammar.specs.declared.read.ReadError.TheVariants.{OutOfMemory};

use crate::leaf::{Kind, Leaf};
use st_scan::Cause;
use std::alloc::{AllocError, AllocFailed};

/// Why leaves could not be read: a fault, at the leaf that is the first of the last `left` ones, or want of memory.
#[derive(Clone, Copy)]
pub enum ReadError {
    Fault { cause: Cause, left: usize },
    OutOfMemory,
}

impl ReadError {
    /// The first of these leaves cannot stand there, or there is none.
    pub fn expected(leaves: &[Leaf]) -> ReadError
        ensures { result ≡ ReadError.Fault Cause.Expected (length leaves.now) }
    {
        ReadError::Fault {
            cause: Cause::Expected,
            left: leaves.len(),
        }
    }

    /// One bracket too many is open, the one before these leaves.
    pub fn too_deep(leaves: &[Leaf]) -> ReadError
        requires { length leaves.now < 2 ^ 63 }
        ensures { result ≡ ReadError.Fault Cause.Deep (length leaves.now + 1) }
    {
        ReadError::Fault {
            cause: Cause::Deep,
            left: leaves.len() + 1,
        }
    }
}

impl From<AllocError> for ReadError {
    ghost from_gives = { λ _ e. e ≡ OutOfMemory };

    fn from(_e: AllocError) -> ReadError {
        ReadError::OutOfMemory
    }
}

impl<T: Drop> From<AllocFailed<T>> for ReadError {
    ghost from_gives = { λ _ e. e ≡ OutOfMemory };

    fn from(_e: AllocFailed<T>) -> ReadError {
        ReadError::OutOfMemory
    }
}

/// Whether the leaf has one of these kinds.
pub fn is_among(kinds: &[Kind], leaf: Leaf) -> bool
    ensures { result ≡ among kinds.now leaf }
{
    kinds.iter().any(|kind| leaf.kind.number() == kind.number())
}

/// Whether a leaf of one of these kinds stands first.
pub fn starts(kinds: &[Kind], leaves: &[Leaf]) -> bool
    ensures { result ≡ first (among kinds.now) leaves.now }
{
    match leaves {
        [leaf, ..] => is_among(kinds, *leaf),
        [] => false,
    }
}

/// The first leaf, which has to have one of these kinds, and those behind it.
pub fn token<'a>(kinds: &[Kind], leaves: &'a [Leaf]) -> Result<(Leaf, &'a [Leaf]), ReadError>
    ensures { Gives (λ x. (x.0, x.1.now)) result (token_at kinds.now leaves.now) }
{
    match leaves {
        [leaf, rest @ ..] if is_among(kinds, *leaf) => Ok((*leaf, rest)),
        _ => Err(ReadError::expected(leaves)),
    }
}
