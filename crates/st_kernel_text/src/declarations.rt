// The declared names.
ghost use Rattle.std.specs.Prelude.{◌≡◌, [], OnOk};
ghost use Rattle.st_kernel_text.specs.Known.{named, with_named, layout_of};

use crate::named::{Layout, Named};
use crate::part::Text;
use indexmap::IndexMap;
use std::alloc::{AllocError, Global};
use std::marker::Model;

/// The declared names of a text: what each is that of, in the order of their declarations.
#[derive(Drop)]
pub struct Declarations {
    names: IndexMap<Text, Named>,
}

impl Model for Declarations {
    ghost use Rattle.st_kernel_text.specs.Known.{Names};
    ghost use Rattle.st_kernel_text.specs.inside.Lists.{names_of};

    ghost Value = { Names };

    ghost view = { λ d. names_of d.names.entries };
}

impl Declarations {
    /// Nothing is declared.
    pub(crate) fn new(alloc: Global) -> Declarations
        ensures { result ≡ [] }
    {
        Declarations {
            names: IndexMap::new(alloc),
        }
    }

    /// What a name is that of, if it is declared.
    pub(crate) fn named(&self, name: &[u8]) -> Option<Named>
        ensures { result ≡ named self.now name.now }
    {
        self.names.get(name).copied()
    }

    /// The layout of the class of this name, if it is declared.
    pub fn layout(&self, name: &[u8]) -> Option<Layout>
        ensures { result ≡ layout_of self.now name.now }
    {
        match self.named(name) {
            Some(Named::Class(layout)) => Some(layout),
            _ => None,
        }
    }

    /// Makes a name that of something. One that is there keeps its place.
    pub(crate) fn set(&mut self, alloc: Global, name: &[u8], of: Named) -> Result<(), AllocError>
        ensures { OnOk result (self.new ≡ with_named self.old name.now of) }
    {
        self.names.insert(name.to_vec(alloc)?, of)?;
        Ok(())
    }
}
