// Runs of calls that only say.
ghost use Rattle.std.specs.Prelude.{◌≡◌, OnOk};
ghost use Rattle.st_host.specs.Counts.{HasCause};
ghost use Rattle.st_host.specs.Runs.{ReadsAlike, ReadsAndSays, SaysAll};

use crate::{Host, SayFault};

/// Says bytes. After an error some first ones of them were said, or none or all.
pub fn say_all<H: Host>(host: &mut H, bytes: &[u8]) -> Result<(), SayFault>
    ensures all { OnOk result (SaysAll H.Host.own bytes.now host.old host.new) }
    ensures says { ReadsAndSays H.Host.own bytes.now host.old host.new }
    ensures alike { ReadsAlike H.Host.own host.old host.new }
    ensures disk_count { H.disk_faults host.new ≡ H.disk_faults host.old }
    ensures cause { HasCause (H.say_faults host.old) (H.say_faults host.new) result }
{
    host.say(bytes)?;
    Ok(())
}
