//! Why something isn't read of an image.

ghost use Rattle.std.specs.Prelude.{◌≡◌};
ghost use Rattle.st_scope.specs.declared.unread.Unread.TheVariants.{Dies, OutOfMemory};

use st_model::Dead;
use std::alloc::{AllocError, AllocFailed};

/// Why something isn't read.
#[derive(Clone, Copy)]
pub enum Unread {
    /// An object hasn't the form that is asked of it.
    Dies(Dead),
    /// There was no memory.
    OutOfMemory,
}

impl From<Dead> for Unread {
    ghost from_gives = { λ dead e. e ≡ Dies dead };

    fn from(dead: Dead) -> Unread {
        Unread::Dies(dead)
    }
}

impl From<AllocError> for Unread {
    ghost from_gives = { λ _ e. e ≡ OutOfMemory };

    fn from(_e: AllocError) -> Unread {
        Unread::OutOfMemory
    }
}

impl<T: Drop> From<AllocFailed<T>> for Unread {
    ghost from_gives = { λ _ e. e ≡ OutOfMemory };

    fn from(_e: AllocFailed<T>) -> Unread {
        Unread::OutOfMemory
    }
}
