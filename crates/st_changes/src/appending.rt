// Adding a definition to a changes file.
ghost use Rattle.std.specs.Prelude.{◌≡◌, ◌≤◌, ◌<◌, ◌+◌, ◌-◌, ◌^◌, ◌++◌, ◌∷◌, [], Some, None, IsTrue, IfOk, OnOk, OnErr, nat_lt, length};
ghost use Rattle.st_host.specs.{Counts.HasCause, Runs.{ChangesOneFile as ChangesFile, ChangesBoth, Makes}};
ghost use Rattle.st_store.specs.{Names.{roots_file, changes_file}, Stored.{Stored, Opens, IsFirm, IsKept}};
ghost use Rattle.st_store.specs.Faults.{RestsUnlessGate};
ghost use Rattle.st_chunk.specs.Definitions.{IsDefinition, entry, entries};
ghost use Rattle.st_changes.specs.{inside.Views.definition_of, inside.States.{grown, next_store, FitsBehind}};

use crate::Definition;
use crate::changes::{Changes, ReservedEntry};
use crate::noting::note;
use st_host::{Host, HostFault, write_synced};
use st_store::{Root, Store};

/// Writes bytes behind the changes that a store has, and syncs them. At each moment the store stays.
fn write_behind<H: Host>(host: &mut H, store: &Store, bytes: &[u8]) -> Result<(), HostFault>
    ensures makes { (c : Stored) → IsTrue H.is_told → IsKept H.Host.own host.old store.now c
        → Makes H.Host.own (Opens store.now.name) c c host.old host.new result }
    ensures kept { OnOk result ((c : Stored) → IsTrue H.is_told → IsKept H.Host.own host.old store.now c
        → IsKept H.Host.own host.new store.now c) }
    ensures firm { OnOk result ((c : Stored) → IsTrue H.is_told → IsKept H.Host.own host.old store.now c
        → c.root.length + length bytes.now ≤ 2 ^ 30
        → IsFirm H.Host.own host.new store.now.name (grown c bytes.now)) }
    ensures changes { ChangesFile H.Host.own (changes_file store.now.name store.now.root.slot) host.old
        host.new }
    ensures cause { HasCause (H.disk_faults host.old) (H.disk_faults host.new) result }
{
    let root = store.root();
    write_synced(host, store.changes_name(), root.length, bytes)?;
    Ok(())
}

impl Changes {
    /// Adds a definition behind the others: whole, or not at all. After an error the store is opened again, and the list
    /// is loaded again.
    pub fn append<H: Host>(
        &mut self,
        host: &mut H,
        store: Store,
        definition: Definition,
    ) -> Result<Store, HostFault>
        requires good { IsDefinition (definition_of definition) }
        requires reserved { self.old.reserved ≡ Some (entry (definition_of definition)) }
        requires file { self.old.second ≡ nat_lt 1 store.root.slot }
        requires place { store.root.length ≡ length (entries self.old.listed) }
        requires fits { FitsBehind self.old.listed (definition_of definition) }
        ensures store { IfOk result (λ next. next ≡ next_store store (entry (definition_of definition))) }
        ensures listed { OnOk result (self.new.listed ≡ self.old.listed ++ definition_of definition ∷ []) }
        ensures err { OnErr result (self.new.listed ≡ self.old.listed) }
        ensures named { self.new.name ≡ self.old.name }
        ensures second { self.new.second ≡ self.old.second }
        ensures used { self.new.reserved ≡ None }

        // A stop at any moment leaves files that open as before or with this entry behind the changes.
        ensures makes { (c : Stored) → IsTrue H.is_told → IsKept H.Host.own host.old store c
            → Makes H.Host.own (Opens store.name) c (grown c (entry (definition_of definition)))
            host.old host.new result }
        ensures kept { IfOk result (λ next. (c : Stored) → IsTrue H.is_told
            → IsKept H.Host.own host.old store c
            → IsKept H.Host.own host.new next (grown c (entry (definition_of definition)))) }

        // After an error they open as before, but where the gate failed.
        ensures broken { OnErr result ((c : Stored) → IsTrue H.is_told → IsKept H.Host.own host.old store c
            → RestsUnlessGate H.Host.own (Opens store.name) store.name c host.new) }

        ensures changes { ChangesBoth H.Host.own (changes_file store.name store.root.slot)
            (roots_file store.name)
            host.old host.new }
        ensures cause { HasCause (H.disk_faults host.old) (H.disk_faults host.new) result }
    {
        let Some(ReservedEntry { entry, selector }) = self.ready.take() else {
            unreachable!()
        };
        write_behind(host, &store, &entry)?;
        let root = store.root();
        let length = root.length + entry.len() as u64;
        let store = store.commit(host, Root { length, ..root })?;
        note(&mut self.index, &definition, &selector, self.listed.len());
        self.listed.push_reserved(definition);
        self.length = length;
        Ok(store)
    }
}
