// Making a store, in steps of a few calls.
ghost use Rattle.std.specs.Prelude.{◌≡◌, ◌↔◌, ℕ, List, [], IsTrue, IfOk, IfErr, OnOk, OnErr, Option, Some, None, string_bytes};
ghost use Rattle.st_host.specs.Counts.{HasCause};
ghost use Rattle.st_host.specs.Files.{bytes_of};
ghost use Rattle.st_host.specs.Runs.{LeavesOnly, ReadsAlike, Narrows, ChangesOneFile, ChangesBoth, IsSynced, Makes};
ghost use Rattle.st_store.specs.Names.{roots_file, changes_file, image_file};
ghost use Rattle.st_store.specs.Roots.{HasLetters, Fits};
ghost use Rattle.st_store.specs.Faults.{RestsUnlessLetters};
ghost use Rattle.st_store.specs.Founding.{IsNoStore, OpensMaybe, IsCleared, IsBlank, first_root, first_stored, first_bytes, first_file};
ghost use Rattle.st_store.specs.Refusals.{RefusesNew, IsOfMaking, FaultHasCause};
ghost use Rattle.st_store.specs.Stored.{Stored, Begins, Leaves, IsFirm, IsChosen, IsKept};
ghost use Rattle.st_store.specs.declared.fault.StoreFault.TheVariants.{Disk};

use crate::front::{LETTERS, find_wrong_letter};
use crate::names::FileNames;
use crate::root::bytes_of_root;
use crate::{Root, Store, StoreFault};
use st_host::{Host, HostFault, cut_synced, read_from, sync_file, write_synced};
use std::alloc::Global;
use std::marker::Model;

/// A store that is being made: there is none of its name, and its roots file is empty.
#[derive(Drop)]
pub struct NewStore {
    names: FileNames,
}

impl Model for NewStore {
    ghost use Rattle.std.specs.Prelude.{ℕ, List, string_bytes};

    ghost Value = { List ℕ };

    ghost view = { λ s. string_bytes s.names.name };
}

impl NewStore {
    /// The name of the image file that the store begins with.
    pub fn image_name(&self) -> &str
        ensures { result.now ≡ image_file self.now 0 }
    {
        self.names.image(0)
    }
}

/// Syncs the roots file, and tells whether it begins with the letters.
fn find_store<H: Host>(host: &mut H, roots: &str) -> Result<bool, HostFault>
    ensures found { IfOk result (λ there. IsTrue H.is_told
        → IsTrue there ↔ HasLetters (bytes_of (H.files host.old roots.now))) }
    ensures synced { OnOk result (IsSynced H.Host.own roots.now host.new) }
    ensures alike { OnOk result (ReadsAlike H.Host.own host.old host.new) }
    ensures narrows { Narrows H.Host.own host.old host.new }
    ensures only { ChangesOneFile H.Host.own roots.now host.old host.new }
    ensures cause { HasCause (H.disk_faults host.old) (H.disk_faults host.new) result }
{
    sync_file(host, roots)?;
    let mut letters = [0; 8];
    let count = read_from(host, roots, 0, &mut letters)?;
    Ok(find_wrong_letter(&letters[..count]).is_none())
}

/// Tests that there is no store of this name, and empties its roots file.
pub fn clear<H: Host>(alloc: Global, host: &mut H, name: &str) -> Result<NewStore, StoreFault>
    ensures named { IfOk result (λ store. store ≡ name.now) }
    ensures none { OnOk result (IsTrue H.is_told → IsNoStore (H.files host.old (roots_file name.now))) }
    ensures empty { OnOk result (IsTrue H.is_told
        → Leaves H.Host.own host.new (roots_file name.now) (λ file. bytes_of file ≡ [])) }
    ensures refused { IfErr result (λ e. IsTrue H.is_told
        → RefusesNew (H.files host.old (roots_file name.now)) e) }
    ensures kind { IfErr result IsOfMaking }
    ensures writes_nothing { IfErr result (λ e. (e ≡ Disk → ⊥) → Narrows H.Host.own host.old host.new) }

    // A stop at any moment leaves what it could leave before, or, where there was no store, a roots file that opening
    // refuses.
    ensures moments { IsTrue H.is_told → LeavesOnly H.Host.own host.old host.new
        (λ f s. (s ≡ H.said host.old) × IsCleared H.Host.own name.now host.old f) }

    ensures only { ChangesOneFile H.Host.own (roots_file name.now) host.old host.new }
    ensures cause { FaultHasCause (H.disk_faults host.old) (H.disk_faults host.new) result }
{
    let names = FileNames::new(alloc, name)?;
    let there = find_store(host, names.roots())?;
    if there {
        return Err(StoreFault::Exists);
    }
    cut_synced(host, names.roots(), 0)?;
    Ok(NewStore { names })
}

/// The bytes of a new store's roots file behind the letters.
fn first_bytes(root: &Root) -> [u8; 72]
    ensures bytes { result ≡ first_bytes root.now }
    ensures fits { Fits root.now }
{
    let mut bytes = [0; 72];
    bytes[8..40].copy_from_slice(&bytes_of_root(root));
    bytes
}

/// Empties the changes file, and puts one zero byte into the empty roots file, so that the letters can't stand there by
/// chance before they are written. Where no state that a stop may leave of the roots file has a byte, the files are at each
/// moment no store's.
#[tactic(auto, using(crate::proofs::Looking::steps))]
fn prepare<H: Host>(host: &mut H, names: &FileNames) -> Result<(), HostFault>
    ensures makes { let name = string_bytes names.now.name in IsTrue H.is_told
        → Leaves H.Host.own host.old (roots_file name) (λ file. bytes_of file ≡ [])
        → Makes {C = Option Stored} H.Host.own (OpensMaybe name) None None host.old host.new result }
    ensures blank { OnOk result (let name = string_bytes names.now.name in IsTrue H.is_told
        → Leaves H.Host.own host.old (roots_file name) (λ file. bytes_of file ≡ [])
        → Leaves H.Host.own host.new (roots_file name) IsBlank) }
    ensures emptied { OnOk result (let changes = changes_file (string_bytes names.now.name) 0 in
        IsTrue H.is_told
        → H.files host.new changes ≡ Some []) }
    ensures synced { OnOk result (let changes = changes_file (string_bytes names.now.name) 0 in
        IsSynced H.Host.own changes host.new) }
    ensures changes { let name = string_bytes names.now.name in
        ChangesBoth H.Host.own (changes_file name 0) (roots_file name) host.old host.new }
    ensures cause { HasCause (H.disk_faults host.old) (H.disk_faults host.new) result }
{
    cut_synced(host, names.changes(0), 0)?;
    write_synced(host, names.roots(), 0, &[0])?;
    Ok(())
}

/// Writes the roots file behind its letters, and the letters last. Where the roots file is one zero byte and what the root
/// names is firm, the files are at each moment no store's, or open as the new one.
#[tactic(auto, using(crate::proofs::Looking::steps))]
fn inscribe<H: Host>(host: &mut H, names: &FileNames, root: &Root) -> Result<(), HostFault>
    ensures makes { let name = string_bytes names.now.name in (c : Stored) → IsTrue H.is_told
        → Leaves H.Host.own host.old (roots_file name) IsBlank → c.root ≡ root.now
        → IsFirm H.Host.own host.old name c
        → Makes {C = Option Stored} H.Host.own (OpensMaybe name) None (Some c) host.old host.new result }
    ensures broken { OnErr result (let name = string_bytes names.now.name in IsTrue H.is_told
        → Leaves H.Host.own host.old (roots_file name) IsBlank
        → RestsUnlessLetters H.Host.own {C = Option Stored} (OpensMaybe name) name None host.new) }
    ensures chosen { OnOk result (let name = string_bytes names.now.name in (c : Stored) → IsTrue H.is_told
        → Leaves H.Host.own host.old (roots_file name) IsBlank → c.root ≡ root.now
        → IsFirm H.Host.own host.old name c
        → IsChosen H.Host.own host.new name 0 c) }
    ensures bytes { OnOk result (let roots = roots_file (string_bytes names.now.name) in IsTrue H.is_told
        → Leaves H.Host.own host.old roots IsBlank → H.files host.new roots ≡ Some (first_file root.now)) }
    ensures changes { ChangesOneFile H.Host.own (roots_file (string_bytes names.now.name)) host.old host.new }
    ensures cause { HasCause (H.disk_faults host.old) (H.disk_faults host.new) result }
{
    let bytes = first_bytes(root);
    write_synced(host, names.roots(), 8, &bytes)?;
    write_synced(host, names.roots(), 0, &LETTERS)?;
    Ok(())
}

/// Makes the store, whose image is in its file and synced. It is made whole, or not at all, where no state that a stop may
/// leave of the roots file has a byte, and each one of the image file begins with the same bytes of this length.
#[tactic(auto, using(crate::proofs::Looking::steps))]
pub fn found<H: Host>(
    new_store: NewStore,
    host: &mut H,
    image_length: u64,
) -> Result<Store, HostFault>
    ensures store { IfOk result (λ store. store ≡ record {
      name = new_store;
      chosen = 0;
      root = first_root image_length;
    }) }

    // A stop at any moment leaves files that are no store's, or open as the new one.
    ensures makes { (image : List ℕ) → IsTrue H.is_told
        → Leaves H.Host.own host.old (roots_file new_store) (λ file. bytes_of file ≡ [])
        → Leaves H.Host.own host.old (image_file new_store 0) (Begins image_length image)
        → Makes {C = Option Stored} H.Host.own (OpensMaybe new_store)
        None (Some (first_stored image_length image)) host.old host.new result }
    ensures kept { IfOk result (λ store. (image : List ℕ) → IsTrue H.is_told
        → Leaves H.Host.own host.old (roots_file new_store) (λ file. bytes_of file ≡ [])
        → Leaves H.Host.own host.old (image_file new_store 0) (Begins image_length image)
        → IsKept H.Host.own host.new store (first_stored image_length image)) }

    // After an error they are no store's, but where the letters failed.
    ensures broken { OnErr result (IsTrue H.is_told
        → Leaves H.Host.own host.old (roots_file new_store) (λ file. bytes_of file ≡ [])
        → RestsUnlessLetters H.Host.own {C = Option Stored} (OpensMaybe new_store) new_store None host.new) }

    // The files' bytes after it.
    ensures bytes { OnOk result (IsTrue H.is_told
        → Leaves H.Host.own host.old (roots_file new_store) (λ file. bytes_of file ≡ [])
        → H.files host.new (roots_file new_store) ≡ Some (first_file (first_root image_length))) }
    ensures emptied { OnOk result (IsTrue H.is_told → H.files host.new (changes_file new_store 0) ≡ Some []) }
    ensures synced { OnOk result (IsSynced H.Host.own (changes_file new_store 0) host.new) }

    ensures changes { ChangesBoth H.Host.own (changes_file new_store 0) (roots_file new_store)
        host.old host.new }
    ensures cause { HasCause (H.disk_faults host.old) (H.disk_faults host.new) result }
{
    let NewStore { names } = new_store;
    let root = Root {
        slot: 0,
        image_length,
        base: 0,
        length: 0,
    };
    prepare(host, &names)?;
    inscribe(host, &names, &root)?;
    Ok(Store {
        names,
        chosen: 0,
        root,
    })
}
