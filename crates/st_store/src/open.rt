// Opening a store, in steps of a few calls.
ghost use Rattle.std.specs.Prelude.{◌≡◌, ◌≢◌, ◌≤◌, ◌^◌, IsTrue, IfOk, IfErr, OnOk, OnErr, MatchOption, length, string_bytes};
ghost use Rattle.st_host.specs.Counts.{HasCause};
ghost use Rattle.st_host.specs.Files.{bytes_of};
ghost use Rattle.st_host.specs.Runs.{LeavesOnly, ReadsAlike, Narrows, NarrowsBut, ChangesOneFile, Spares, IsSynced, Makes};
ghost use Rattle.st_store.specs.Names.{roots_file, IsNoFileOf};
ghost use Rattle.st_store.specs.Roots.{Chooses, IsFresh};
ghost use Rattle.st_store.specs.Refusals.{IsWrongNumber, Fit, RefusesFront, RefusesNumbers, Refuses, IsOfOpening, IsRefusal, FaultHasCause};
ghost use Rattle.st_store.specs.Stored.{Opens, IsSound, IsChosen, WhereChosen, IsKept, IsReady, IsOpening, stored_in};
ghost use Rattle.st_store.specs.Faults.{OpensAsOne, SyncsFirst, TriesSync, HasSettled, Settles};
ghost use Rattle.st_store.specs.declared.fault.StoreFault.TheVariants.{NotAStore, Disk};
ghost use Rattle.st_store.specs.declared.fault.StorePlace.TheVariants.{Roots};

use crate::front::{Chosen, choose};
use crate::names::FileNames;
use crate::steps::{stage, turn};
use crate::{Root, Store, StoreFault, StorePlace};
use st_host::{Host, HostFault, file_length, read_from, sync_file};
use std::alloc::Global;

fn damaged(at: u64) -> StoreFault
    ensures { result ≡ NotAStore (Roots at) }
{
    StoreFault::NotAStore {
        place: StorePlace::Roots(at),
    }
}

/// Syncs the roots file, and reads the root that it chooses.
fn look<H: Host>(host: &mut H, roots: &str) -> Result<Chosen, StoreFault>
    ensures number { IfOk result (λ r. r.number ≤ 1) }
    ensures slot { IfOk result (λ r. r.root.slot ≤ 3) }
    ensures chooses { IfOk result (λ r. IsTrue H.is_told
        → Chooses r.number r.root (H.files host.old roots.now)) }
    ensures refused { IfErr result (λ e. IsTrue H.is_told → RefusesFront (H.files host.old roots.now) e) }
    ensures kind { IfErr result IsOfOpening }
    ensures synced { OnOk result (IsSynced H.Host.own roots.now host.new) }
    ensures firm { IfErr result (λ e. (e ≡ Disk → ⊥) → IsSynced H.Host.own roots.now host.new) }
    ensures first { OnOk result (SyncsFirst H.Host.own roots.now host.old host.new) }
    ensures tried { OnErr result (TriesSync H.Host.own roots.now host.old host.new) }
    ensures alike { OnOk result (ReadsAlike H.Host.own host.old host.new) }
    ensures narrows { Narrows H.Host.own host.old host.new }
    ensures only { ChangesOneFile H.Host.own roots.now host.old host.new }
    ensures cause { FaultHasCause (H.disk_faults host.old) (H.disk_faults host.new) result }
{
    sync_file(host, roots)?;
    let length = file_length(host, roots)?;
    if length.is_none() {
        return Err(StoreFault::Missing);
    }
    let mut front = [0; 80];
    let count = read_from(host, roots, 0, &mut front)?;
    match choose(&front[..count]) {
        Ok(chosen) => Ok(chosen),
        Err(at) => Err(damaged(at)),
    }
}

/// The first number of a root that is wrong for an image file and a changes file of these lengths.
fn find_wrong_number(chosen: &Chosen, image: u64, changes: u64) -> Option<u64>
    requires { chosen.now.number ≤ 1 }
    ensures { MatchOption result (Fit chosen.now.root image changes)
        (λ at. IsWrongNumber chosen.now.number chosen.now.root image changes at) }
{
    let Chosen { number, root } = chosen;
    let place = 16 + 32 * number;
    if root.image_length > image {
        return Some(place + 8);
    }
    if root.base > root.length {
        return Some(place + 16);
    }
    if root.length > changes || root.length > 1 << 30 {
        return Some(place + 24);
    }
    None
}

/// Syncs the files that a root names, and tests it against their lengths.
fn make_firm<H: Host>(
    host: &mut H,
    image: &str,
    changes: &str,
    chosen: &Chosen,
) -> Result<(), StoreFault>
    requires { chosen.now.number ≤ 1 }
    ensures fit { OnOk result (IsTrue H.is_told
        → Fit chosen.now.root (length (bytes_of (H.files host.old image.now)))
        (length (bytes_of (H.files host.old changes.now)))) }
    ensures base { OnOk result (chosen.now.root.base ≤ chosen.now.root.length) }
    ensures limit { OnOk result (chosen.now.root.length ≤ 2 ^ 30) }
    ensures refused { IfErr result (λ e. IsTrue H.is_told
        → RefusesNumbers chosen.now.number chosen.now.root (length (bytes_of (H.files host.old image.now)))
        (length (bytes_of (H.files host.old changes.now))) e) }
    ensures kind { IfErr result IsOfOpening }
    ensures image { OnOk result (IsSynced H.Host.own image.now host.new) }
    ensures changes { OnOk result (IsSynced H.Host.own changes.now host.new) }
    ensures alike { OnOk result (ReadsAlike H.Host.own host.old host.new) }
    ensures narrows { Narrows H.Host.own host.old host.new }
    ensures spares { Spares H.Host.own (λ n. (n ≢ image.now) × (n ≢ changes.now)) host.old host.new }
    ensures cause { FaultHasCause (H.disk_faults host.old) (H.disk_faults host.new) result }
{
    sync_file(host, image)?;
    sync_file(host, changes)?;
    let image_length = file_length(host, image)?.unwrap_or(0);
    let length = file_length(host, changes)?.unwrap_or(0);
    match find_wrong_number(chosen, image_length, length) {
        Some(at) => Err(damaged(at)),
        None => Ok(()),
    }
}

/// Syncs the roots file and reads the root that it chooses, and then syncs and tests what this names.
fn seek<H: Host>(host: &mut H, names: &FileNames) -> Result<Chosen, StoreFault>
    ensures number { IfOk result (λ r. r.number ≤ 1) }
    ensures sound { IfOk result (λ r. IsSound r.root) }
    ensures chosen { IfOk result (λ r. let name = string_bytes names.now.name in IsTrue H.is_told
        → IsChosen H.Host.own host.new name r.number (stored_in name (H.files host.old) r.root)) }
    ensures refused { IfErr result (λ e. IsTrue H.is_told
        → Refuses (string_bytes names.now.name) (H.files host.old) e) }
    ensures kind { IfErr result IsOfOpening }
    ensures first { OnOk result (let roots = roots_file (string_bytes names.now.name) in
        SyncsFirst H.Host.own roots host.old host.new) }
    ensures tried { OnErr result (let roots = roots_file (string_bytes names.now.name) in
        TriesSync H.Host.own roots host.old host.new) }
    ensures synced { IfErr result (λ e. (e ≡ Disk → ⊥)
        → IsSynced H.Host.own (roots_file (string_bytes names.now.name)) host.new) }
    ensures alike { OnOk result (ReadsAlike H.Host.own host.old host.new) }
    ensures narrows { Narrows H.Host.own host.old host.new }
    ensures spares { Spares H.Host.own (IsNoFileOf (string_bytes names.now.name)) host.old host.new }
    ensures cause { FaultHasCause (H.disk_faults host.old) (H.disk_faults host.new) result }
{
    let chosen = look(host, names.roots())?;
    let slot = chosen.root.slot;
    make_firm(host, names.image(slot), names.changes(slot), &chosen)?;
    Ok(chosen)
}

/// Writes the root that isn't chosen as a copy of the chosen one, and the gate afresh. Where no stop leaves another root
/// chosen and what this one names is firm, it stays so at each moment.
fn freshen<H: Host>(
    host: &mut H,
    names: &FileNames,
    number: u64,
    root: &Root,
) -> Result<(), HostFault>
    requires { number ≤ 1 }
    ensures makes { let name = string_bytes names.now.name in
        WhereChosen H.Host.own host.old name number root.now
        (λ c. Makes H.Host.own (Opens name) c c host.old host.new result) }
    ensures chosen { OnOk result (let name = string_bytes names.now.name in
        WhereChosen H.Host.own host.old name number root.now (IsChosen H.Host.own host.new name number)) }
    ensures fresh { OnOk result (let name = string_bytes names.now.name in
        WhereChosen H.Host.own host.old name number root.now
        (λ c. IsFresh number c.root (H.files host.new (roots_file name)))) }
    ensures changes { ChangesOneFile H.Host.own (roots_file (string_bytes names.now.name)) host.old host.new }
    ensures cause { HasCause (H.disk_faults host.old) (H.disk_faults host.new) result }
{
    stage(host, names, number, root)?;
    turn(host, names, number)?;
    Ok(())
}

/// Opens the store of this name. It syncs what it reads before it tests it. Then it writes the root that isn't chosen as
/// a copy of the chosen one, and the gate afresh. Without a fault of the disk a refusal has written nothing.
pub fn open_store<H: Host>(alloc: Global, host: &mut H, name: &str) -> Result<Store, StoreFault>
    ensures named { IfOk result (λ store. store.name ≡ name.now) }
    ensures sound { IfOk result (λ store. IsSound store.root) }
    ensures opens { IfOk result (λ store. IsTrue H.is_told
        → Opens name.now (stored_in name.now (H.files host.old) store.root) (H.files host.old)) }
    ensures kept { IfOk result (λ store. IsTrue H.is_told
        → IsKept H.Host.own host.new store (stored_in name.now (H.files host.old) store.root)) }
    ensures fresh { IfOk result (λ store. IsTrue H.is_told
        → IsFresh store.chosen store.root (H.files host.new (roots_file name.now))) }
    ensures refused { IfErr result (λ e. IsTrue H.is_told → Refuses name.now (H.files host.old) e) }
    ensures kind { IfErr result IsOfOpening }
    ensures writes_nothing { IfErr result (λ e. (e ≡ Disk → ⊥) → Narrows H.Host.own host.old host.new) }
    // A roots file that is refused, or whose root is, was synced: no stop makes another of it.
    ensures synced { IfErr result (λ e. IsRefusal e
        → IsSynced H.Host.own (roots_file name.now) host.new) }

    // A stop at any moment leaves what it could leave before, or files that open as those that were read.
    ensures moments { IsTrue H.is_told → LeavesOnly H.Host.own host.old host.new
        (λ f s. (s ≡ H.said host.old) × IsOpening H.Host.own host.old name.now f) }
    // If each root that could be chosen names what is firm, files that open as some that could be left before.
    ensures as_before { IsTrue H.is_told → IsReady H.Host.own host.old name.now
        → LeavesOnly H.Host.own host.old host.new
        (λ f s. (s ≡ H.said host.old) × OpensAsOne H.Host.own host.old name.now f) }
    // And once the roots file was synced, files that open as one of these, also after an error.
    ensures settled { OnOk result (IsTrue H.is_told → IsReady H.Host.own host.old name.now
        → HasSettled H.Host.own (Opens name.now) name.now host.old host.new) }
    ensures settles { OnErr result (IsTrue H.is_told → IsReady H.Host.own host.old name.now
        → Settles H.Host.own name.now host.old host.new) }

    ensures only { NarrowsBut H.Host.own (roots_file name.now) host.old host.new }
    ensures spares { Spares H.Host.own (IsNoFileOf name.now) host.old host.new }
    ensures cause { FaultHasCause (H.disk_faults host.old) (H.disk_faults host.new) result }
{
    let names = FileNames::new(alloc, name)?;
    let chosen = seek(host, &names)?;
    let Chosen { number, root } = chosen;
    freshen(host, &names, number, &root)?;
    Ok(Store {
        names,
        chosen: number,
        root,
    })
}
