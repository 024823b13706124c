// A store that is open.
ghost use Rattle.std.specs.Prelude.{◌≡◌, ◌≤◌, ◌-◌, IsTrue, IfOk, OnErr, slice_index};
ghost use Rattle.st_host.specs.Counts.{HasCause};
ghost use Rattle.st_host.specs.Files.{bytes_of};
ghost use Rattle.st_store.specs.Names.{roots_file, changes_file, image_file};

use crate::Root;
use crate::names::FileNames;
use crate::steps::{stage, turn};
use st_host::{Host, HostFault};
use std::marker::Model;

/// A store that is open: its name, the number of the root that its gate chooses, and this root.
#[derive(Drop)]
pub struct Store {
    pub(crate) names: FileNames,
    pub(crate) chosen: u64,
    pub(crate) root: Root,
}

impl Model for Store {
    ghost use Rattle.std.specs.Prelude.{◌≤◌, string_bytes};
    ghost use Rattle.st_store.specs.Stored.{StoreState};

    ghost Value = { StoreState };

    ghost view = { λ s. record { name = string_bytes s.names.name; chosen = s.chosen; root = s.root } };

    ghost invariant = { λ s. s.chosen ≤ 1 };
}

impl Store {
    ghost use Rattle.st_host.specs.Runs.{Makes, ChangesOneFile};
    ghost use Rattle.st_store.specs.Stored.{Stored, Opens, IsFirm, IsKept};
    ghost use Rattle.st_store.specs.Faults.{RestsUnlessGate};

    /// The chosen root.
    pub fn root(&self) -> Root
        ensures { result ≡ self.now.root }
    {
        self.root
    }

    /// The store's name.
    pub fn name(&self) -> &str
        ensures { result.now ≡ self.now.name }
    {
        self.names.name()
    }

    /// The name of the changes file that the chosen root names.
    pub fn changes_name(&self) -> &str
        ensures { result.now ≡ changes_file self.now.name self.now.root.slot }
    {
        self.names.changes(self.root.slot)
    }

    /// The name of the changes file of a slot.
    pub fn changes_name_of(&self, slot: u64) -> &str
        ensures { result.now ≡ changes_file self.now.name slot }
    {
        self.names.changes(slot)
    }

    /// The name of the image file of a slot, `.a` for an even one and `.b` for an odd one.
    pub fn image_name(&self, slot: u64) -> &str
        ensures { result.now ≡ image_file self.now.name slot }
    {
        self.names.image(slot)
    }

    /// Makes this root the chosen one: whole, or not at all. What it names has to be firm, and the store at rest. After
    /// an error the store is opened again.
    pub fn commit<H: Host>(self, host: &mut H, root: Root) -> Result<Store, HostFault>
        ensures store { IfOk result (λ store. store ≡ record {
          name = self.name;
          chosen = 1 - self.chosen;
          root = root;
        }) }

        // A stop at any moment leaves files that open as before or as the new root.
        ensures makes { (c d : Stored) → IsTrue H.is_told → IsKept H.Host.own host.old self c
            → IsFirm H.Host.own host.old self.name d → d.root ≡ root → Makes H.Host.own (Opens self.name) c d
            host.old host.new result }
        ensures kept { IfOk result (λ store. (c d : Stored) → IsTrue H.is_told
            → IsKept H.Host.own host.old self c
            → IsFirm H.Host.own host.old self.name d → d.root ≡ root → IsKept H.Host.own host.new store d) }

        // After an error they open as before, but where the gate failed.
        ensures broken { OnErr result ((c d : Stored) → IsTrue H.is_told → IsKept H.Host.own host.old self c
            → IsFirm H.Host.own host.old self.name d → d.root ≡ root
            → RestsUnlessGate H.Host.own (Opens self.name) self.name c host.new) }

        ensures gate { IfOk result (λ store. IsTrue H.is_told
            → slice_index (bytes_of (H.files host.new (roots_file store.name))) 8 ≡ store.chosen) }
        ensures changes { ChangesOneFile H.Host.own (roots_file self.name) host.old host.new }
        ensures cause { HasCause (H.disk_faults host.old) (H.disk_faults host.new) result }
    {
        let other = 1 - self.chosen;
        stage(host, &self.names, self.chosen, &root)?;
        turn(host, &self.names, other)?;
        Ok(Store {
            names: self.names,
            chosen: other,
            root,
        })
    }
}
