// Why a store isn't opened.
use st_host::HostFault;
use st_model::ImageFault;
use st_store::StoreFault;
use std::alloc::AllocError;

/// Why a store isn't opened.
#[derive(Clone, Copy, Debug, PartialEq, Eq)]
pub enum OpenFault {
    /// There is no store of this name, or its files are damaged; it carries only Missing and NotAStore.
    Store(StoreFault),
    /// Its image has this fault.
    Image(ImageFault),
    /// Its image has more than 2^27 bytes.
    TooLarge,
    /// A call on a file failed.
    Disk,
    /// There was no memory.
    OutOfMemory,
}

impl From<StoreFault> for OpenFault {
    ghost use Rattle.std.specs.Prelude.{◌≡◌};
    ghost use Rattle.st_recover.specs.Openings.{by_store};

    ghost from_gives = { λ fault e. e ≡ by_store fault };

    fn from(fault: StoreFault) -> OpenFault {
        match fault {
            StoreFault::Disk => OpenFault::Disk,
            StoreFault::OutOfMemory => OpenFault::OutOfMemory,
            other => OpenFault::Store(other),
        }
    }
}

impl From<HostFault> for OpenFault {
    ghost use Rattle.std.specs.Prelude.{◌≡◌};
    ghost use Rattle.st_recover.specs.declared.fault.OpenFault.TheVariants.{Disk};

    ghost from_gives = { λ _ e. e ≡ Disk };

    fn from(_fault: HostFault) -> OpenFault {
        OpenFault::Disk
    }
}

impl From<AllocError> for OpenFault {
    ghost use Rattle.std.specs.Prelude.{◌≡◌};
    ghost use Rattle.st_recover.specs.declared.fault.OpenFault.TheVariants.{OutOfMemory};

    ghost from_gives = { λ _ e. e ≡ OutOfMemory };

    fn from(_error: AllocError) -> OpenFault {
        OpenFault::OutOfMemory
    }
}
