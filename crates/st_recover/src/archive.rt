// What a session keeps.
ghost use Rattle.std.specs.{Prelude.{◌≡◌, ◌-◌, ℕ, List, Some, None, IsTrue, IfErr, IfOk, OnOk, OnErr, IsSome, length}, Option.ForSome};
ghost use Rattle.st_host.specs.{Counts.HasCause, Runs.{Makes, Spares}};
ghost use Rattle.st_image.specs.inside.Back.{CanStart};
ghost use Rattle.st_chunk.specs.{Definitions.{IsDefinition, entries}, inside.ScriptDefinitions.definition_of};
ghost use Rattle.st_changes.specs.{Last.HasSelector, inside.Views.{definition_of as kept_definition}};
ghost use Rattle.st_store.specs.{Names.{IsNoFileOf, image_file}, Faults.RestsUnlessGate};
ghost use Rattle.st_protocol.specs.{inside.Obeying.Obeys, declared.status.Status.TheVariants.DiskFault};
ghost use Rattle.st_protocol.specs.Statuses.{Counts};
ghost use Rattle.st_recover.specs.inside.Archives.{Holds, IsStoreOf, IsBesideChanges, IsBesideImage, IsOfKeeping};
ghost use Rattle.st_recover.specs.Commits.{Commit, OpensAs, accepting, imaged, image_in, other_image};

use st_changes::{Changes, Definition as KeptDefinition};
use st_chunk::LentDefinition;
use st_host::{Host, HostFault};
use st_memory::Memory;
use st_protocol::Status;
use st_scan::Text;
use st_store::{Root, Store};
use st_writer::write;
use std::alloc::{AllocError, Global};
use std::marker::Model;

fn copied(alloc: Global, bytes: &[u8]) -> Result<Text, AllocError>
    ensures { IfOk result (λ text. text.items ≡ bytes.now) }
{
    let mut text = Text::new(alloc);
    text.extend_from_slice(bytes)?;
    Ok(text)
}

/// A definition and its selector, with texts of their own.
fn owned(
    alloc: Global,
    definition: &LentDefinition<'_>,
    selector: &[u8],
) -> Result<(KeptDefinition, Text), AllocError>
    ensures definition { IfOk result (λ r. kept_definition r.0 ≡ definition_of definition.now) }
    ensures selector { IfOk result (λ r. r.1.items ≡ selector.now) }
{
    let kept = KeptDefinition {
        class: copied(alloc, definition.class)?,
        meta: definition.meta,
        category: copied(alloc, definition.category)?,
        text: copied(alloc, definition.text)?,
    };
    Ok((kept, copied(alloc, selector)?))
}

/// The slot of the other image file and the same changes file.
fn other_image(slot: u64) -> u64
    ensures { result ≡ other_image slot }
{
    if slot % 2 == 0 { slot + 1 } else { slot - 1 }
}

/// What a session keeps: a store, and the list of its definitions. After a fault of the disk the store is closed, and has
/// to be opened again.
#[derive(Drop)]
pub struct Archive {
    store: Option<Store>,
    changes: Changes,
}

impl Model for Archive {
    ghost use Rattle.std.specs.Option.{ForSome};
    ghost use Rattle.st_recover.specs.inside.Archives.{ArchiveState, IsStoreOf};

    ghost Value = { ArchiveState };

    ghost view = { λ a. record { name = a.changes.name; store = a.store; listed = a.changes.listed } };

    ghost invariant = { λ a. ForSome a.store (IsStoreOf a.changes.name a.changes.second a.changes.listed) };
}

impl Archive {
    /// A store and the list of its definitions.
    pub fn new(store: Store, changes: Changes) -> Archive
        requires { IsStoreOf changes.name changes.second changes.listed store }
        ensures { result ≡ record { name = changes.name; store = Some store; listed = changes.listed } }
    {
        Archive {
            store: Some(store),
            changes,
        }
    }

    /// The list of the definitions that are kept.
    pub fn changes(&self) -> &Changes
        ensures named { result.now.name ≡ self.now.name }
        ensures listed { result.now.listed ≡ self.now.listed }
    {
        &self.changes
    }

    /// Keeps a definition, whose selector is handed over: its entry stands in the changes file, synced. `TooLarge` comes where the
    /// entry would take the file past 2^30 bytes, and `OutOfMemory` where there is no memory: then nothing was done, since all memory is taken before the
    /// first write, and the archive is as before. After `DiskFault` the store has the definition or it hasn't, and is closed.
    pub fn accept<H: Host>(
        &mut self,
        alloc: Global,
        host: &mut H,
        definition: &LentDefinition<'_>,
        selector: &[u8],
    ) -> Result<(), Status>
        requires good { IsDefinition (definition_of definition.now) }
        requires selector { HasSelector (definition_of definition.now).text selector.now }
        requires open { IsSome self.old.store }
        ensures named { self.new.name ≡ self.old.name }
        ensures open { OnOk result (IsSome self.new.store) }
        ensures obeys { (c : Commit) → Holds H.Host.own host.old self.old c
            → Obeys H.Host.own (OpensAs self.old.name) (IsNoFileOf self.old.name)
            (Holds H.Host.own host.new self.new) (λ d. d) c
            (accepting c (definition_of definition.now)) result host.old host.new }
        // No file is touched but the roots file and the changes file in use.
        ensures alone { ForSome self.old.store
            (λ s. Spares H.Host.own (IsBesideChanges s) host.old host.new) }
        ensures untouched { IfErr result (λ e. (e ≡ DiskFault → ⊥) → host.new ≡ host.old) }
        ensures closed { IfErr result (λ e. e ≡ DiskFault → self.new.store ≡ None) }
        ensures stays { IfErr result (λ e. (e ≡ DiskFault → ⊥) → self.new ≡ self.old) }
        ensures broken { IfErr result (λ e. e ≡ DiskFault → (c : Commit) → IsTrue H.is_told
            → Holds H.Host.own host.old self.old c
            → RestsUnlessGate H.Host.own (OpensAs self.old.name) self.old.name c host.new) }
        ensures counts { Counts H.Host.own ⊥ host.old host.new result }
        ensures kind { IfErr result IsOfKeeping }
    {
        let Ok((definition, selector)) = owned(alloc, definition, selector) else {
            return Err(Status::OutOfMemory);
        };
        if !self.changes.fits(&definition) {
            return Err(Status::TooLarge);
        }
        let Ok(()) = self.changes.reserve_as(alloc, &definition, Some(selector)) else {
            return Err(Status::OutOfMemory);
        };
        let Some(store) = self.store.take() else {
            unreachable!()
        };
        let Ok(store) = self.changes.append(host, store, definition) else {
            return Err(Status::DiskFault);
        };
        self.store = Some(store);
        Ok(())
    }

    /// Keeps the image of a memory, and answers its length: it is written to the image file that the store doesn't use, and the
    /// store goes over to it, with the same changes file, whole, or not at all, and is closed after an error. No definition is to
    /// be replayed behind it. It takes no memory. A machine can start from the memory, so that the image can be read.
    pub fn snapshot<M: Memory, H: Host>(&mut self, host: &mut H, m: &M) -> Result<u64, HostFault>
        requires open { IsSome self.old.store }
        requires starts { CanStart (M.view m.now) }
        ensures named { self.new.name ≡ self.old.name }
        ensures open { OnOk result (IsSome self.new.store) }
        ensures length { IfOk result (λ l. l ≡ length (image_in (M.view m.now))) }
        ensures makes { (c : Commit) → IsTrue H.is_told → Holds H.Host.own host.old self.old c
            → Makes H.Host.own (OpensAs self.old.name) c (imaged c (image_in (M.view m.now)))
            host.old host.new result }
        ensures broken { OnErr result ((c : Commit) → IsTrue H.is_told → Holds H.Host.own host.old self.old c
            → RestsUnlessGate H.Host.own (OpensAs self.old.name) self.old.name c host.new) }
        ensures holds { OnOk result ((c : Commit) → Holds H.Host.own host.old self.old c
            → Holds H.Host.own host.new self.new (imaged c (image_in (M.view m.now)))) }
        ensures closed { OnErr result (self.new.store ≡ None) }
        ensures spares { Spares H.Host.own (IsNoFileOf self.old.name) host.old host.new }
        // No file is touched but the roots file and the image file that wasn't in use, which then has just the image.
        ensures alone { ForSome self.old.store
            (λ s. Spares H.Host.own (IsBesideImage s) host.old host.new) }
        ensures file { OnOk result (ForSome self.old.store (λ s. let file = image_file s.name (other_image s.root.slot) in
            IsTrue H.is_told → H.files host.new file ≡ Some (image_in (M.view m.now)))) }
        ensures say_count { H.say_faults host.new ≡ H.say_faults host.old }
        ensures cause { HasCause (H.disk_faults host.old) (H.disk_faults host.new) result }
    {
        let Some(store) = self.store.take() else {
            unreachable!()
        };
        let Root { slot, length, .. } = store.root();
        let other = other_image(slot);
        let image_length = write(m, host, store.image_name(other))?;
        let root = Root {
            slot: other,
            image_length,
            base: length,
            length,
        };
        self.store = Some(store.commit(host, root)?);
        Ok(image_length)
    }
}
