//! Why there is no list of deeds.

ghost use Rattle.std.specs.Prelude.{◌≡◌};
ghost use Rattle.st_meaning.specs.declared.fault.MeaningFault.TheVariants.{OutOfMemory};

use std::alloc::{AllocError, AllocFailed};
use std::fmt;

/// Why there is no list of deeds.
#[derive(Clone, Copy, Debug)]
pub enum MeaningFault {
    /// More than 1,000,000 deeds, or more than 1,000,000 jumps back.
    Long,
    /// Memory is wanting.
    OutOfMemory,
}

impl From<AllocError> for MeaningFault {
    ghost from_gives = { λ _ e. e ≡ OutOfMemory };

    fn from(_e: AllocError) -> MeaningFault {
        MeaningFault::OutOfMemory
    }
}

impl<T: Drop> From<AllocFailed<T>> for MeaningFault {
    ghost from_gives = { λ _ e. e ≡ OutOfMemory };

    fn from(_e: AllocFailed<T>) -> MeaningFault {
        MeaningFault::OutOfMemory
    }
}
