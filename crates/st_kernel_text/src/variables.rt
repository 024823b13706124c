// The names of variables.
ghost use Rattle.std.specs.Prelude.{◌≡◌, []};
ghost use Rattle.st_kernel_text.specs.Known.{with_variables, with_variable};
ghost use Rattle.st_kernel_text.specs.inside.Lists.{texts_of};
ghost use Rattle.st_kernel_text.specs.inside.Reading.{Leaves};

use crate::cause::{Cause, Stop};
use crate::part::Text;
use indexmap::IndexSet;
use std::alloc::Global;
use std::marker::Model;

/// Names of variables, each with the number of its class.
#[derive(Drop)]
pub(crate) struct Variables {
    names: IndexSet<(usize, Text)>,
}

impl Model for Variables {
    ghost use Rattle.std.specs.Prelude.{ℕ, List};
    ghost use Rattle.st_kernel_text.specs.inside.Lists.{variables_of};

    ghost Value = { List (ℕ × List ℕ) };

    ghost view = { λ v. variables_of v.names.keys };
}

impl Variables {
    /// No names.
    pub(crate) fn new(alloc: Global) -> Variables
        ensures { result ≡ [] }
    {
        Variables {
            names: IndexSet::new(alloc),
        }
    }

    /// One variable of a class more, where it isn't there already.
    fn declare_one(&mut self, alloc: Global, class: usize, name: &[u8]) -> Result<(), Stop>
        ensures { Leaves (with_variable class name.now self.old) self.new result }
    {
        let (_, added) = self.names.insert_full((class, name.to_vec(alloc)?))?;
        if !added {
            return Err(Stop::At(Cause::Name));
        }
        Ok(())
    }

    /// These variables of a class more, where none of them is there already or stands twice among them.
    pub(crate) fn declare(
        &mut self,
        alloc: Global,
        class: usize,
        names: &[Text],
    ) -> Result<(), Stop>
        ensures { Leaves (with_variables class (texts_of names.now) self.old) self.new result }
    {
        for name in names {
            self.declare_one(alloc, class, name)?;
        }
        Ok(())
    }
}
