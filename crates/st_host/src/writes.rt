// Runs of calls that change one file.
ghost use Rattle.std.specs.Prelude.{◌≡◌, ◌≤◌, ℕ, IsTrue, length, OnOk};
ghost use Rattle.st_host.specs.Counts.{HasCause};
ghost use Rattle.st_host.specs.Files.{bytes_of, IsWritten, IsCut};
ghost use Rattle.st_host.specs.Runs.{ReadsAlike, Narrows, Writes, Cuts, Syncs, IsSynced};

use crate::{Host, HostFault};

/// Writes bytes from the place `at` on over what is there, and past the end. An absent file is made.
pub fn write_bytes<H: Host>(
    host: &mut H,
    name: &str,
    at: u64,
    bytes: &[u8],
) -> Result<(), HostFault>
    ensures written { OnOk result (IsTrue H.is_told →
        IsWritten at bytes.now (H.files host.old name.now) (H.files host.new name.now)) }
    ensures writes { Writes H.Host.own name.now at (length bytes.now) host.old host.new }
    ensures cause { HasCause (H.disk_faults host.old) (H.disk_faults host.new) result }
{
    host.write_at(name, at, bytes)
}

/// Gives a file the length `len`. An absent file is made.
pub fn cut_file<H: Host>(host: &mut H, name: &str, len: u64) -> Result<(), HostFault>
    ensures cut { OnOk result (IsTrue H.is_told →
        IsCut len (H.files host.old name.now) (H.files host.new name.now)) }
    ensures cuts { Cuts H.Host.own name.now len host.old host.new }
    ensures cause { HasCause (H.disk_faults host.old) (H.disk_faults host.new) result }
{
    host.cut(name, len)
}

/// Makes a file stay as it reads.
#[tactic(auto, using(crate::proofs::Joining::alike_once))]
pub fn sync_file<H: Host>(host: &mut H, name: &str) -> Result<(), HostFault>
    ensures synced { OnOk result (IsSynced H.Host.own name.now host.new) }
    ensures alike { OnOk result (ReadsAlike H.Host.own host.old host.new) }
    ensures narrows { Narrows H.Host.own host.old host.new }
    ensures syncs { Syncs H.Host.own name.now host.old host.new }
    ensures cause { HasCause (H.disk_faults host.old) (H.disk_faults host.new) result }
{
    host.sync(name)
}

/// Writes bytes, and makes the file stay so.
pub fn write_synced<H: Host>(
    host: &mut H,
    name: &str,
    at: u64,
    bytes: &[u8],
) -> Result<(), HostFault>
    ensures written { OnOk result (IsTrue H.is_told →
        IsWritten at bytes.now (H.files host.old name.now) (H.files host.new name.now)) }
    ensures synced { OnOk result (IsSynced H.Host.own name.now host.new) }
    ensures writes { Writes H.Host.own name.now at (length bytes.now) host.old host.new }
    ensures cause { HasCause (H.disk_faults host.old) (H.disk_faults host.new) result }
{
    write_bytes(host, name, at, bytes)?;
    sync_file(host, name)
}

/// Gives a file a length, and makes it stay so.
pub fn cut_synced<H: Host>(host: &mut H, name: &str, len: u64) -> Result<(), HostFault>
    ensures cut { OnOk result (IsTrue H.is_told →
        IsCut len (H.files host.old name.now) (H.files host.new name.now)) }
    ensures synced { OnOk result (IsSynced H.Host.own name.now host.new) }
    ensures cuts { Cuts H.Host.own name.now len host.old host.new }
    ensures cause { HasCause (H.disk_faults host.old) (H.disk_faults host.new) result }
{
    cut_file(host, name, len)?;
    sync_file(host, name)
}
