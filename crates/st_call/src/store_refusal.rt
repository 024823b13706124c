ghost use Rattle.std.specs.Prelude.{◌≡◌};
ghost use Rattle.st_call.specs.Refusals.{store_status};

use st_protocol::Status;
use st_store::StoreFault;

/// The status of a call that ends since a store isn't made, or not opened for its files.
pub fn store_status(fault: StoreFault) -> Status
    ensures { result ≡ store_status fault }
{
    match fault {
        StoreFault::Missing => Status::Store(StoreFault::Missing),
        StoreFault::Exists => Status::Store(StoreFault::Exists),
        StoreFault::NotAStore { place } => Status::Store(StoreFault::NotAStore { place }),
        StoreFault::Disk => Status::DiskFault,
        StoreFault::OutOfMemory => Status::OutOfMemory,
    }
}
