// Making a store.
ghost use Rattle.std.specs.Prelude.{◌≡◌, ℕ, List, IsTrue, IfErr, IfOk, OnOk, OnErr};
ghost use Rattle.st_host.specs.{Files.{Files, bytes_of}, Runs.{LeavesOnly, Narrows, Spares}};
ghost use Rattle.st_image.specs.inside.Back.{CanStart};
ghost use Rattle.st_store.specs.{Names.roots_file, Roots.HasLetters, Stored.IsKept, Founding.IsCleared};
ghost use Rattle.st_store.specs.{Faults.RestsUnlessLetters, Refusals.{RefusesNew, IsOfMaking, FaultHasCause}};
ghost use Rattle.st_store.specs.declared.fault.StoreFault.TheVariants.{Disk};
ghost use Rattle.st_recover.specs.{inside.Archives.store_of, Commits.{stored_of, image_in}};
ghost use Rattle.st_recover.specs.Creating.{first_commit, IsMade, IsNoFirstFile, AreFirstFiles};

use st_host::Host;
use st_memory::Memory;
use st_store::{Store, StoreFault, clear, found};
use st_writer::write;
use std::alloc::Global;

/// Makes a store of this name, which holds the image of a memory and no definitions. Where there is one already (`Exists`), or no
/// memory (`OutOfMemory`), nothing is written; `Disk` comes after a call on a file that failed. A machine can start from the
/// memory, so that the image can be read.
pub fn create<M: Memory, H: Host>(
    alloc: Global,
    host: &mut H,
    name: &str,
    m: &M,
) -> Result<Store, StoreFault>
    requires starts { CanStart (M.view m.now) }
    ensures store { IfOk result (λ store. store
        ≡ store_of name.now 0 0 (first_commit (image_in (M.view m.now)))) }
    ensures kept { IfOk result (λ store. IsTrue H.is_told → IsKept H.Host.own host.new store
        (stored_of 0 (first_commit (image_in (M.view m.now))))) }
    ensures files { OnOk result (IsTrue H.is_told
        → AreFirstFiles name.now (image_in (M.view m.now)) (H.files host.new)) }
    ensures none { OnOk result (IsTrue H.is_told
        → HasLetters (bytes_of (H.files host.old (roots_file name.now))) → ⊥) }
    ensures refused { IfErr result (λ e. IsTrue H.is_told
        → RefusesNew (H.files host.old (roots_file name.now)) e) }
    ensures kind { IfErr result IsOfMaking }
    ensures writes_nothing { IfErr result (λ e. (e ≡ Disk → ⊥) → Narrows H.Host.own host.old host.new) }

    // A stop at any moment, and also after an error, leaves what it could leave before, or, where there was no store,
    // files that are no store's or open as the new one.
    ensures moments { IsTrue H.is_told → LeavesOnly H.Host.own host.old host.new
        (λ f s. (s ≡ H.said host.old)
        × IsMade H.Host.own name.now (first_commit (image_in (M.view m.now))) host.old f) }
    ensures left { (f : Files) → IsTrue H.is_told → ((n : List ℕ) → H.may_leave host.new n (f n))
        → IsMade H.Host.own name.now (first_commit (image_in (M.view m.now))) host.old f }

    // After an error it is what it could leave before, or no store's, but where the letters failed.
    ensures broken { OnErr result (IsTrue H.is_told → RestsUnlessLetters H.Host.own {C = Unit}
        (λ _ f. IsCleared H.Host.own name.now host.old f) name.now tt host.new) }

    ensures quiet { IsTrue H.is_told → H.said host.new ≡ H.said host.old }
    ensures spares { Spares H.Host.own (IsNoFirstFile name.now) host.old host.new }
    ensures say_count { H.say_faults host.new ≡ H.say_faults host.old }
    ensures cause { FaultHasCause (H.disk_faults host.old) (H.disk_faults host.new) result }
{
    let new_store = clear(alloc, host, name)?;
    let image_length = write(m, host, new_store.image_name())?;
    let store = found(new_store, host, image_length)?;
    Ok(store)
}
