// Why a chunk is refused.
ghost use Rattle.std.specs.Prelude.{◌≡◌};
ghost use Rattle.st_kernel_text.specs.declared.cause.Stop.TheVariants.{OutOfMemory};

use std::alloc::{AllocError, AllocFailed};

/// Why the first wrong chunk of a kernel text is refused. Of several causes it is the first in this order.
#[derive(Clone, Copy, Debug, PartialEq, Eq)]
pub enum Cause {
    /// It hasn't the form that is asked for where it stands, or has more than 65,536 bytes.
    Form,
    /// A name is unknown, or is declared twice.
    Name,
    /// Words or bytes have names of variables or inherit them, or a class has more than 64.
    Variables,
    /// The declarations end without a class that is needed, or with one of another shape.
    Missing,
}

/// Why reading stops.
#[derive(Clone, Copy)]
pub(crate) enum Stop {
    At(Cause),
    OutOfMemory,
}

impl From<AllocError> for Stop {
    ghost from_gives = { λ _ e. e ≡ OutOfMemory };

    fn from(_e: AllocError) -> Stop {
        Stop::OutOfMemory
    }
}

impl<T: Drop> From<AllocFailed<T>> for Stop {
    ghost from_gives = { λ _ e. e ≡ OutOfMemory };

    fn from(_e: AllocFailed<T>) -> Stop {
        Stop::OutOfMemory
    }
}
