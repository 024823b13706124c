// Why no image is built.
ghost use Rattle.std.specs.Prelude.{◌≡◌};
ghost use Rattle.st_kernel.specs.declared.fault.KernelFault.TheVariants.{OutOfMemory};
ghost use Rattle.st_kernel.specs.Built.{cause_number, unfinished};
ghost use Rattle.st_kernel.specs.inside.Answered.{IsFaultOf};

use st_kernel_text::Cause;
use std::alloc::AllocError;

/// Why a kernel text gives no image.
#[derive(Clone, Copy, Debug, PartialEq, Eq)]
pub enum KernelFault {
    /// The first chunk that is wrong, counted from 1, and why: 1 its form, 2 a name, 3 variables, 4 a needed class, 5 a method that
    /// is refused, 6 a start that finds no method without arguments, 7 objects that have no room.
    At { chunk: u32, cause: u8 },
    /// There was no memory.
    OutOfMemory,
}

impl From<AllocError> for KernelFault {
    ghost from_gives = { λ _ e. e ≡ OutOfMemory };

    fn from(_error: AllocError) -> KernelFault {
        KernelFault::OutOfMemory
    }
}

/// The number of a cause at which reading stopped.
pub(crate) fn cause_number(cause: Cause) -> u8
    ensures { result ≡ cause_number cause }
{
    match cause {
        Cause::Form => 1,
        Cause::Name => 2,
        Cause::Variables => 3,
        Cause::Missing => 4,
    }
}

/// The fault of a text without a start, whose reading stopped at this chunk.
pub(crate) fn unfinished(chunk: u32, cause: Option<Cause>) -> KernelFault
    ensures { IsFaultOf (unfinished chunk cause) result }
{
    let cause = cause.map_or(1, cause_number);
    KernelFault::At { chunk, cause }
}
