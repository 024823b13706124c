//! Superclass chains.

ghost use Rattle.std.specs.Prelude.{◌≡◌};
ghost use Rattle.st_model.specs.{Values.value, Table.table, inside.Calls.Reads};
ghost use Rattle.st_scope.specs.{Classes.{superclass, chain}, inside.Meanings.values_of, inside.Findings.Finds};

use crate::reading::{check_fields, fetch_field};
use crate::unread::Unread;
use st_memory::Memory;
use st_model::{Dead, Oop};
use std::alloc::Global;

/// The superclass of a class with so many fields or more.
#[tactic(auto, using(st_model::proofs::Runs::runs), unfolding(crate::specs::Classes::superclass))]
fn superclass<M: Memory>(m: &M, class: Oop, least: u32) -> Result<Oop, Dead>
    ensures { let t = (M.view m.now).objects in
        Reads (superclass table least (value class)) value t result }
{
    check_fields(m, class, least)?;
    fetch_field(m, class, 0)
}

/// A class and its superclasses, upward, each with so many fields or more. It dies of `Chain` where they don't end in nil within
/// 32767 such classes.
pub fn chain<M: Memory>(alloc: Global, m: &M, class: Oop, least: u32) -> Result<Vec<Oop>, Unread>
    ensures { let t = (M.view m.now).objects in
        Finds (chain table least (value class)) values_of t result }
{
    let mut classes = Vec::new(alloc);
    let mut next = class;
    let mut left = 32767_u32;
    while next.0 != 2 {
        if left == 0 {
            return Err(Unread::Dies(Dead::Chain));
        }
        let above = superclass(m, next, least)?;
        classes.push(next)?;
        next = above;
        left -= 1;
    }
    Ok(classes)
}
