ghost use Rattle.std.specs.Prelude.{◌≡◌};
ghost use Rattle.st_host.specs.Runs.{ReadsAlike, ReadsAndSays};
ghost use Rattle.st_call.specs.LastLines.{SaysLastLine, last_line};
ghost use Rattle.st_session.specs.Commands.{opening_status};

use st_call::{report_status, store_status};
use st_host::Host;
use st_protocol::Status;
use st_recover::OpenFault;

/// The status of a call that ends since a store isn't opened.
pub(crate) fn opening_status(fault: OpenFault) -> Status
    ensures { result ≡ opening_status fault }
{
    match fault {
        OpenFault::Store(fault) => store_status(fault),
        OpenFault::Image(fault) => Status::Image(fault),
        OpenFault::TooLarge => Status::TooLarge,
        OpenFault::Disk => Status::DiskFault,
        OpenFault::OutOfMemory => Status::OutOfMemory,
    }
}

/// Says the last line of a call that ends since a store isn't opened, and answers its status, which stays where that fails.
pub(crate) fn refuse_opening<H: Host>(host: &mut H, fault: OpenFault) -> Status
    ensures status { result ≡ opening_status fault }
    ensures line { SaysLastLine H.Host.own result host.old host.new }
    ensures reads { ReadsAndSays H.Host.own (last_line result) host.old host.new }
    ensures alike { ReadsAlike H.Host.own host.old host.new }
    ensures disk { H.disk_faults host.new ≡ H.disk_faults host.old }
{
    let status = opening_status(fault);
    report_status(host, status);
    status
}
