// Why the first objects are not made.
ghost use Rattle.std.specs.Prelude.{◌≡◌};
ghost use Rattle.st_first_objects.specs.declared.unmade.Unmade.TheVariants.{OutOfMemory};

use std::alloc::AllocError;

/// Why the first objects are not made.
#[derive(Clone, Copy, Debug, PartialEq, Eq)]
pub enum Unmade {
    /// A memory has no room for them.
    NoRoom,
    /// There was no memory.
    OutOfMemory,
}

impl From<AllocError> for Unmade {
    ghost from_gives = { λ _ e. e ≡ OutOfMemory };

    fn from(_e: AllocError) -> Unmade {
        Unmade::OutOfMemory
    }
}
