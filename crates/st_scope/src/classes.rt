//! Classes by their names.

ghost use Rattle.std.specs.Prelude.{◌≡◌, Ok, IfOk};
ghost use Rattle.st_model.specs.{Values.value, Table.table, inside.Calls.Reads, View.IsKnown};
ghost use Rattle.st_scope.specs.Classes.{class_association, class_on_side, class_named};
ghost use Rattle.st_scope.specs.{Calls.class_of_name, inside.Meanings.class_found};

use crate::fault::InstallFault;
use crate::reading::{check_fields, class_of, fetch_field};
use crate::tables::member_named;
use st_memory::Memory;
use st_model::{Dead, Oop};

/// The global of this name, an association whose value is a class.
#[tactic(auto, using(st_model::proofs::Runs::runs), unfolding(crate::specs::Classes::class_association))]
pub fn class_association<M: Memory>(m: &M, globals: Oop, name: &[u8]) -> Result<Oop, Dead>
    ensures { let t = (M.view m.now).objects in
        Reads (class_association table (value globals) name.now) value t result }
{
    match member_named(m, globals, name)? {
        Some(association) => {
            let class = fetch_field(m, association, 1)?;
            check_fields(m, class, 9)?;
            Ok(association)
        }
        None => Err(Dead::Field),
    }
}

/// The class itself, or on the class side its metaclass.
#[tactic(auto, using(st_model::proofs::Runs::runs), unfolding(crate::specs::Classes::class_on_side))]
fn class_on_side<M: Memory>(m: &M, class: Oop, meta: bool) -> Result<Oop, Dead>
    requires { IsKnown (M.view m.now).objects (value class) }
    ensures class { Reads (class_on_side table (value class) meta) value (M.view m.now).objects result }
    ensures known { IfOk result (λ x. IsKnown (M.view m.now).objects (value x)) }
{
    if meta { class_of(m, class) } else { Ok(class) }
}

/// The class of a name and a side.
#[tactic(auto, using(st_model::proofs::Runs::runs), unfolding(crate::specs::Classes::class_named))]
fn class_named<M: Memory>(m: &M, globals: Oop, name: &[u8], meta: bool) -> Result<Oop, Dead>
    ensures class { let t = (M.view m.now).objects in
        Reads (class_named table (value globals) name.now meta) value t result }
    ensures known { IfOk result (λ x. IsKnown (M.view m.now).objects (value x)) }
{
    let association = class_association(m, globals, name)?;
    let class = fetch_field(m, association, 1)?;
    class_on_side(m, class, meta)
}

/// The class of a definition: the value of the first global of this name, or, on the class side, the class of that. It is no class
/// if it has fewer than 9 fields. `NoGlobals` comes if the memory names no table of globals, and else `NoClass` if there is no
/// such class; no other error comes.
#[tactic(auto, using(crate::proofs::ClassesOf::named))]
pub fn class_of_name<M: Memory>(m: &M, name: &[u8], meta: bool) -> Result<Oop, InstallFault>
    ensures class { let v = M.view m.now in
        Reads (class_of_name table v.head name.now meta) class_found v.objects (Ok result) }
    ensures known { IfOk result (λ x. IsKnown (M.view m.now).objects (value x)) }
{
    let globals = m.globals();
    if globals.0 == 0 {
        return Err(InstallFault::NoGlobals);
    }
    match class_named(m, globals, name, meta) {
        Ok(class) => Ok(class),
        Err(_) => Err(InstallFault::NoClass),
    }
}
