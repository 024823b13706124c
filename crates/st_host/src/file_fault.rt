// Why a run over files ends that takes memory.
use crate::HostFault;
use std::alloc::AllocError;

/// Why a run over files ends that takes memory.
#[derive(Clone, Copy, Debug, PartialEq, Eq)]
pub enum FileFault {
    /// A call on a file failed.
    Disk,
    /// There was no memory.
    OutOfMemory,
}

impl From<HostFault> for FileFault {
    ghost use Rattle.std.specs.Prelude.{◌≡◌};
    ghost use Rattle.st_host.specs.declared.file_fault.FileFault.TheVariants.{Disk};

    ghost from_gives = { λ _ e. e ≡ Disk };

    fn from(_: HostFault) -> Self {
        FileFault::Disk
    }
}

impl From<AllocError> for FileFault {
    ghost use Rattle.std.specs.Prelude.{◌≡◌};
    ghost use Rattle.st_host.specs.declared.file_fault.FileFault.TheVariants.{OutOfMemory};

    ghost from_gives = { λ _ e. e ≡ OutOfMemory };

    fn from(_: AllocError) -> Self {
        FileFault::OutOfMemory
    }
}
