ghost use Rattle.std.specs.Prelude.{◌≡◌, IsTrue, IfOk, OnOk, Err};
ghost use Rattle.st_host.specs.Runs.{WritesAbove, IsSynced};
ghost use Rattle.st_host.specs.declared.file_fault.FileFault.TheVariants.{OutOfMemory};
ghost use Rattle.st_clean.specs.Cleaning.{HasWritten, CleanHasCause};

use crate::filling::restricted;
use crate::needed::reach;
use st_host::{FileFault, Host};
use st_memory::{Loader, Memory};
use st_model::Demand;
use st_writer::write;
use std::alloc::Global;

/// Why an image that is cleaned isn't written.
pub type CleanFault = FileFault;

/// Writes to a file the image of what a memory's image needs: the objects that can be reached from the root page and the tables of
/// names, under the same pointers and the same head. The file is cut to that text and synced. Answers how many objects and words
/// were written. It takes a second memory, of the same capacities, for the time of the call; where there is none nothing is done.
/// After another error the file may hold anything; every other file is as before at each moment of the call, and nothing is said.
pub fn clean<M: Memory, L: Loader, H: Host>(
    alloc: Global,
    m: &M,
    host: &mut H,
    name: &str,
) -> Result<Demand, CleanFault>
    ensures file { let v = M.view m.now in
        IfOk result (HasWritten v.objects v.head (IsTrue H.is_told) (H.files host.new name.now)) }
    ensures synced { OnOk result (IsSynced H.Host.own name.now host.new) }
    ensures writes { WritesAbove H.Host.own 0 name.now host.old host.new }
    ensures none { result ≡ Err OutOfMemory → host.new ≡ host.old }
    ensures cause { CleanHasCause (H.disk_faults host.old) (H.disk_faults host.new) result }
{
    let marks = reach(alloc, m)?;
    let needed: L::Done = restricted::<M, L>(alloc, m, &marks)?;
    write(&needed, host, name)?;
    Ok(needed.used())
}
