ghost use Rattle.std.specs.Prelude.{◌≡◌, OnOk};
ghost use Rattle.st_host.specs.{Counts.HasCause, Runs.{ReadsAlike, ReadsAndSays, SaysAll}, inside.Telling.Says};
ghost use Rattle.st_call.specs.inside.Saying.{Pushes};
ghost use Rattle.st_call.specs.LastLines.{fault_line, place_line, store_line, last_line, SaysLastLine};

use crate::lines::{push_line, push_long_line};
use crate::output::{Output, Pushed};
use st_host::{Host, SayFault};
use st_model::ImageFault;
use st_protocol::Status;
use st_store::{StoreFault, StorePlace};

/// Adds the line of an image's fault: its row, then its pointer, and its second pointer or its index.
fn push_fault<H: Host>(out: &mut Output, host: &mut H, fault: ImageFault) -> Pushed
    ensures { Pushes H.Host.own (fault_line fault) host.old host.new out.old out.new result }
{
    match fault {
        ImageFault::Short => push_line(out, host, b"image", &[1]),
        ImageFault::Lengths => push_line(out, host, b"image", &[2]),
        ImageFault::Capacity => push_line(out, host, b"image", &[3]),
        ImageFault::Size(pointer) => push_line(out, host, b"image", &[4, pointer]),
        ImageFault::Overlap(first, second) => push_line(out, host, b"image", &[5, first, second]),
        ImageFault::Class(pointer) => push_line(out, host, b"image", &[6, pointer]),
        ImageFault::Field(pointer, index) => push_line(out, host, b"image", &[7, pointer, index]),
        ImageFault::Method(pointer) => push_line(out, host, b"image", &[8, pointer]),
        ImageFault::Root(pointer) => push_line(out, host, b"image", &[9, pointer]),
        ImageFault::Scheduler => push_line(out, host, b"image", &[10]),
    }
}

/// Adds the line of a place at which a store is damaged.
fn push_place<H: Host>(out: &mut Output, host: &mut H, place: StorePlace) -> Pushed
    ensures { Pushes H.Host.own (place_line place) host.old host.new out.old out.new result }
{
    match place {
        StorePlace::Roots(at) => push_long_line(out, host, b"store damaged roots", at),
        StorePlace::Changes(at) => push_long_line(out, host, b"store damaged changes", at),
    }
}

/// Adds the line of why a store isn't opened or made.
fn push_store<H: Host>(out: &mut Output, host: &mut H, fault: StoreFault) -> Pushed
    ensures { Pushes H.Host.own (store_line fault) host.old host.new out.old out.new result }
{
    match fault {
        StoreFault::Missing => push_line(out, host, b"store missing", &[]),
        StoreFault::Exists => push_line(out, host, b"store exists", &[]),
        StoreFault::NotAStore { place } => push_place(out, host, place),
        StoreFault::Disk => push_line(out, host, b"disk fault", &[]),
        StoreFault::OutOfMemory => push_line(out, host, b"out of memory", &[]),
    }
}

/// Adds the last line of a status, where it has one.
fn push_last_line<H: Host>(out: &mut Output, host: &mut H, status: Status) -> Pushed
    ensures { Pushes H.Host.own (last_line status) host.old host.new out.old out.new result }
{
    match status {
        Status::Done | Status::SayFault => Ok(()),
        Status::Usage => push_line(out, host, b"usage", &[]),
        Status::Image(fault) => push_fault(out, host, fault),
        Status::Script { line } => push_long_line(out, host, b"script", line),
        Status::ReadFault => push_line(out, host, b"read fault", &[]),
        Status::DiskFault => push_line(out, host, b"disk fault", &[]),
        Status::Store(fault) => push_store(out, host, fault),
        Status::Kernel { chunk, cause } => {
            push_line(out, host, b"kernel", &[chunk, u32::from(cause)])
        }
        Status::TooLarge => push_line(out, host, b"too large", &[]),
        Status::OutOfMemory => push_line(out, host, b"out of memory", &[]),
    }
}

/// Says the last line of a status, where it has one.
fn say_last_line<H: Host>(host: &mut H, status: Status) -> Pushed
    ensures all { OnOk result (SaysAll H.Host.own (last_line status) host.old host.new) }
    ensures says { Says H.Host.own (last_line status) host.old host.new }
    ensures cause { HasCause (H.say_faults host.old) (H.say_faults host.new) result }
{
    let mut out = Output::new();
    push_last_line(&mut out, host, status)?;
    out.finish(host)
}

/// Says the last line of a status, which stays where that fails.
pub fn report_status<H: Host>(host: &mut H, status: Status)
    ensures line { SaysLastLine H.Host.own status host.old host.new }
    ensures reads { ReadsAndSays H.Host.own (last_line status) host.old host.new }
    ensures alike { ReadsAlike H.Host.own host.old host.new }
    ensures disk { H.disk_faults host.new ≡ H.disk_faults host.old }
{
    match say_last_line(host, status) {
        Ok(()) | Err(SayFault) => {}
    }
}
