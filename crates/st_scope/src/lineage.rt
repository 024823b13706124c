//! The classes whose variables a method sees.

ghost use Rattle.std.specs.Prelude.{◌≡◌};
ghost use Rattle.st_model.specs.{Values.value, Table.table};
ghost use Rattle.st_scope.specs.{Classes.{instance_lineage, metaclass_lineage, lineage}, inside.Findings.Finds};
ghost use Rattle.st_scope.specs.inside.Lineages.{lineage_of};

use crate::chains::chain;
use crate::reading::fetch_field;
use crate::unread::Unread;
use st_memory::Memory;
use st_model::Oop;
use std::alloc::Global;

/// How many fields a class has at least.
const CLASS_FIELDS: u32 = 9;

/// How many fields a metaclass has at least.
const METACLASS_FIELDS: u32 = 7;

/// The classes whose instance variables a method sees, and those whose pools it sees, each from the class upward.
#[derive(Drop)]
pub struct Chains {
    pub owners: Vec<Oop>,
    pub sharers: Vec<Oop>,
}

/// On the instance side both are the chain of the class.
fn instance_lineage<M: Memory>(alloc: Global, m: &M, class: Oop) -> Result<Chains, Unread>
    ensures { let t = (M.view m.now).objects in
        Finds (instance_lineage table (value class)) lineage_of t result }
{
    let owners = chain(alloc, m, class, CLASS_FIELDS)?;
    let sharers = owners.to_vec(alloc)?;
    Ok(Chains { owners, sharers })
}

/// The pools that a method of a metaclass sees are those of its one instance.
fn metaclass_lineage<M: Memory>(alloc: Global, m: &M, class: Oop) -> Result<Chains, Unread>
    ensures { let t = (M.view m.now).objects in
        Finds (metaclass_lineage table (value class)) lineage_of t result }
{
    let owners = chain(alloc, m, class, METACLASS_FIELDS)?;
    let instance = fetch_field(m, class, 6)?;
    let sharers = chain(alloc, m, instance, CLASS_FIELDS)?;
    Ok(Chains { owners, sharers })
}

/// The classes whose variables a method of a class, or, on the class side, of a metaclass sees.
pub fn lineage<M: Memory>(alloc: Global, m: &M, class: Oop, meta: bool) -> Result<Chains, Unread>
    ensures { let t = (M.view m.now).objects in
        Finds (lineage table (value class) meta) lineage_of t result }
{
    if meta {
        metaclass_lineage(alloc, m, class)
    } else {
        instance_lineage(alloc, m, class)
    }
}
