// Runs of calls that only read.
ghost use Rattle.std.specs.Prelude.{◌≡◌, ◌≤◌, ◌<◌, ◌+◌, ◌^◌, IsTrue, length, IfOk, OnOk};
ghost use Rattle.st_host.specs.Counts.{HasCause};
ghost use Rattle.st_host.specs.Files.{bytes_of, length_of, Reads, IsRead};
ghost use Rattle.st_host.specs.Runs.{OnlyReads, ReadsAlike, ChangesOneFile};

use crate::{Host, HostFault};

/// The length of a file in bytes, none exactly where it is absent.
#[tactic(auto, using(crate::proofs::Joining::alike_once, crate::proofs::Touching::reads_change))]
pub fn file_length<H: Host>(host: &mut H, name: &str) -> Result<Option<u64>, HostFault>
    ensures length { IfOk result (λ l. IsTrue H.is_told → l ≡ length_of (H.files host.old name.now)) }
    ensures alike { OnOk result (ReadsAlike H.Host.own host.old host.new) }
    ensures reads { OnlyReads H.Host.own host.old host.new }
    ensures changes { ChangesOneFile H.Host.own name.now host.old host.new }
    ensures cause { HasCause (H.disk_faults host.old) (H.disk_faults host.new) result }
{
    let length = host.length(name)?;
    Ok(length)
}

// One read, which may give fewer bytes than there are.
#[tactic(auto, using(crate::proofs::Joining::alike_once, crate::proofs::Touching::reads_change))]
fn read_some<H: Host>(
    host: &mut H,
    name: &str,
    at: u64,
    into: &mut [u8],
) -> Result<usize, HostFault>
    ensures within { IfOk result (λ k. k ≤ length into.old) }
    ensures some { IfOk result (λ k. IsTrue H.is_told
        → Reads (bytes_of (H.files host.old name.now)) at k into.new) }
    ensures alike { OnOk result (ReadsAlike H.Host.own host.old host.new) }
    ensures reads { OnlyReads H.Host.own host.old host.new }
    ensures changes { ChangesOneFile H.Host.own name.now host.old host.new }
    ensures cause { HasCause (H.disk_faults host.old) (H.disk_faults host.new) result }
{
    let count = host.read_at(name, at, into)?;
    Ok(count)
}

/// Reads a file from the place `at` on until the slice is full or the file ends, and answers how many bytes it has
/// read. What the slice holds behind them is left open.
#[tactic(auto, using(crate::proofs::Joining::reads_join, crate::proofs::Joining::alike_join, crate::proofs::Touching::changes_join))]
pub fn read_from<H: Host>(
    host: &mut H,
    name: &str,
    at: u64,
    into: &mut [u8],
) -> Result<usize, HostFault>
    requires { at + length into.old < 2 ^ 64 }
    ensures within { IfOk result (λ k. k ≤ length into.old) }
    ensures read { IfOk result (λ k. IsTrue H.is_told
        → IsRead (bytes_of (H.files host.old name.now)) at k into.new) }
    ensures alike { OnOk result (ReadsAlike H.Host.own host.old host.new) }
    ensures reads { OnlyReads H.Host.own host.old host.new }
    ensures changes { ChangesOneFile H.Host.own name.now host.old host.new }
    ensures cause { HasCause (H.disk_faults host.old) (H.disk_faults host.new) result }
{
    let mut done = 0;
    while done < into.len() {
        let count = read_some(host, name, at + done as u64, &mut into[done..])?;
        if count == 0 {
            return Ok(done);
        }
        done += count;
    }
    Ok(done)
}
