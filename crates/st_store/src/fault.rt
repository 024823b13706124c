// Why a store isn't opened or made.
use st_host::HostFault;
use std::alloc::AllocError;

/// A place in a file of a store, in bytes.
#[derive(Clone, Copy, Debug, PartialEq, Eq)]
pub enum StorePlace {
    Roots(u64),
    Changes(u64),
}

/// Why a store isn't opened or made.
#[derive(Clone, Copy, Debug, PartialEq, Eq)]
pub enum StoreFault {
    /// There is no roots file.
    Missing,
    /// There is a store of this name.
    Exists,
    /// The files are no store's: the first wrong place.
    NotAStore { place: StorePlace },
    /// A call on a file failed.
    Disk,
    OutOfMemory,
}

impl From<HostFault> for StoreFault {
    ghost use Rattle.std.specs.Prelude.{◌≡◌};
    ghost use Rattle.st_store.specs.declared.fault.StoreFault.TheVariants.{Disk};

    ghost from_gives = { λ _ e. e ≡ Disk };

    fn from(_: HostFault) -> Self {
        StoreFault::Disk
    }
}

impl From<AllocError> for StoreFault {
    ghost use Rattle.std.specs.Prelude.{◌≡◌};
    ghost use Rattle.st_store.specs.declared.fault.StoreFault.TheVariants.{OutOfMemory};

    ghost from_gives = { λ _ e. e ≡ OutOfMemory };

    fn from(_: AllocError) -> Self {
        StoreFault::OutOfMemory
    }
}
