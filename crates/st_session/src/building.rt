//! The command `build`.

ghost use Rattle.std.specs.Prelude.{◌≡◌, IsTrue, IfOk, IfErr, OnOk};
ghost use Rattle.st_host.specs.{Files.bytes_of, Runs.{OnlyReads, ReadsAlike}};
ghost use Rattle.st_image.specs.inside.Back.{CanStart};
ghost use Rattle.st_protocol.specs.Statuses.{StatusHasCause};
ghost use Rattle.st_session.specs.Makings.{contents_in, IsUnread};
ghost use Rattle.st_session.specs.Builds.{Builds, IsWrongKernel, BuildEnds, kernel_status};

use crate::making::{Origin, make};
use st_call::{read_file, report_status};
use st_host::Host;
use st_kernel::KernelFault;
use st_memory::{Loader, Memory};
use st_protocol::Status;
use std::alloc::Global;

/// The most bytes that a kernel text may have, 2^23.
const LONGEST_TEXT: u64 = 8_388_608;

/// The status of a call whose kernel text builds no image.
pub(crate) fn kernel_status(fault: KernelFault) -> Status
    ensures { result ≡ kernel_status fault }
{
    match fault {
        KernelFault::At { chunk, cause } => Status::Kernel { chunk, cause },
        KernelFault::OutOfMemory => Status::OutOfMemory,
    }
}

/// The memory that the kernel text in a file builds, where that has at most 2^23 bytes and no cause stands in it; or the status
/// of a call that ends so. No file is changed.
fn build_memory<H: Host, L: Loader>(
    alloc: Global,
    host: &mut H,
    name: &str,
) -> Result<L::Done, Status>
    ensures builds { IfOk result (λ m. IsTrue H.is_told →
        Builds (bytes_of (H.files host.old name.now)) (contents_in (L.Done.view m))) }
    ensures starts { IfOk result (λ m. CanStart (L.Done.view m)) }
    ensures refused { let text = bytes_of (H.files host.old name.now) in
        IfErr result (IsUnread (IsWrongKernel (IsTrue H.is_told) text)) }
    ensures alike { OnOk result (ReadsAlike H.Host.own host.old host.new) }
    ensures cause { IfErr result (StatusHasCause H.Host.own ⊥ host.old host.new) }
    ensures reads { OnlyReads H.Host.own host.old host.new }
{
    let text = match read_file(alloc, host, name, LONGEST_TEXT) {
        Ok(text) => text,
        Err(refusal) => return Err(refusal.status()),
    };
    match st_kernel::build::<L>(alloc, &text) {
        Ok(memory) => Ok(memory),
        Err(fault) => Err(kernel_status(fault)),
    }
}

/// The command `build`: builds the image of a kernel text, makes a store of it, and says how many objects and words it has. The
/// text is read before the store is looked for, and an absent file as an empty text. A stop at any moment leaves what could be
/// left before, or, where there was no store, files that are none's, or that open as the new store; once `built` was said they do
/// that.
pub fn build<H: Host, L: Loader>(alloc: Global, host: &mut H, kernel: &str, store: &str) -> Status
    ensures ends { BuildEnds H.Host.own (bytes_of (H.files host.old kernel.now)) store.now
        host.old host.new result }
    ensures cause { StatusHasCause H.Host.own ⊥ host.old host.new result }
{
    match build_memory::<H, L>(alloc, host, kernel) {
        Ok(memory) => make(alloc, host, Origin::Kernel, &memory, store),
        Err(status) => {
            report_status(host, status);
            status
        }
    }
}
