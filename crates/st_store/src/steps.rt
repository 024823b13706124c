// The two steps of a commit, which opening takes too: the other root, and the gate.
ghost use Rattle.std.specs.Prelude.{◌≡◌, ◌≤◌, ◌-◌, ◌∷◌, ℕ, [], IsTrue, OnOk, string_bytes};
ghost use Rattle.st_host.specs.Counts.{HasCause};
ghost use Rattle.st_host.specs.Files.{IsWritten};
ghost use Rattle.st_host.specs.Runs.{Makes, ChangesOneFile, Writes};
ghost use Rattle.st_store.specs.Names.{roots_file};
ghost use Rattle.st_store.specs.Stored.{Stored, Opens, IsFirm, IsChosen, IsStaged, IsReady};

use crate::Root;
use crate::names::FileNames;
use crate::root::bytes_of_root;
use st_host::{Host, HostFault, write_synced};

/// Writes the root that isn't chosen, and syncs it. Where one root is chosen and what both name is firm, the chosen one stays
/// at each moment.
#[tactic(auto, using(crate::proofs::Looking::steps))]
pub(crate) fn stage<H: Host>(
    host: &mut H,
    names: &FileNames,
    chosen: u64,
    root: &Root,
) -> Result<(), HostFault>
    requires { chosen ≤ 1 }
    ensures makes { let name = string_bytes names.now.name in (c d : Stored) → IsTrue H.is_told
        → IsChosen H.Host.own host.old name chosen c → IsFirm H.Host.own host.old name d → d.root ≡ root.now
        → Makes H.Host.own (Opens name) c c host.old host.new result }
    ensures staged { OnOk result (let name = string_bytes names.now.name in (c d : Stored) → IsTrue H.is_told
        → IsChosen H.Host.own host.old name chosen c → IsFirm H.Host.own host.old name d → d.root ≡ root.now
        → IsStaged H.Host.own host.new name chosen c d) }
    ensures changes { ChangesOneFile H.Host.own (roots_file (string_bytes names.now.name)) host.old host.new }
    ensures cause { HasCause (H.disk_faults host.old) (H.disk_faults host.new) result }
{
    let bytes = bytes_of_root(root);
    write_synced(host, names.roots(), 16 + 32 * (1 - chosen), &bytes)?;
    Ok(())
}

/// Writes the gate, and syncs it. Where both roots stand and what they name is firm, one of them is chosen at each moment.
#[tactic(auto, using(crate::proofs::Looking::steps))]
pub(crate) fn turn<H: Host>(host: &mut H, names: &FileNames, gate: u64) -> Result<(), HostFault>
    requires { gate ≤ 1 }
    ensures written { OnOk result (let roots = roots_file (string_bytes names.now.name) in IsTrue H.is_told
        → IsWritten 8 (gate ∷ []) (H.files host.old roots) (H.files host.new roots)) }

    // in a commit
    ensures makes { let name = string_bytes names.now.name in (k : ℕ) (c d : Stored) → IsTrue H.is_told
        → gate ≡ 1 - k → IsStaged H.Host.own host.old name k c d → Makes H.Host.own (Opens name) c d
        host.old host.new result }
    ensures other { OnOk result (let name = string_bytes names.now.name in (k : ℕ) (c d : Stored)
        → IsTrue H.is_told
        → gate ≡ 1 - k → IsStaged H.Host.own host.old name k c d → IsChosen H.Host.own host.new name gate d) }
    // Also after an error, each root that a stop may leave chosen names what is firm.
    ensures ready { let name = string_bytes names.now.name in (k : ℕ) (c d : Stored) → IsTrue H.is_told
        → IsStaged H.Host.own host.old name k c d → IsReady H.Host.own host.new name }

    // in opening, where both roots are one
    ensures keeps { let name = string_bytes names.now.name in (c : Stored) → IsTrue H.is_told
        → IsStaged H.Host.own host.old name gate c c → Makes H.Host.own (Opens name) c c
        host.old host.new result }
    ensures same { OnOk result (let name = string_bytes names.now.name in (c : Stored) → IsTrue H.is_told
        → IsStaged H.Host.own host.old name gate c c → IsChosen H.Host.own host.new name gate c) }

    ensures writes { Writes H.Host.own (roots_file (string_bytes names.now.name)) 8 1 host.old host.new }
    ensures changes { ChangesOneFile H.Host.own (roots_file (string_bytes names.now.name)) host.old host.new }
    ensures cause { HasCause (H.disk_faults host.old) (H.disk_faults host.new) result }
{
    write_synced(host, names.roots(), 8, &[gate as u8])?;
    Ok(())
}
