//! Variables that tables share.

ghost use Rattle.std.specs.Prelude.{◌≡◌, Ok, true, IfSome};
ghost use Rattle.st_model.specs.{Values.value, Table.table, inside.Calls.Reads, View.is_live};
ghost use Rattle.st_scope.specs.{Variables.{member_if_any, association_in}, inside.Meanings.values, Texts.found};

use crate::tables::member_named;
use st_memory::Memory;
use st_model::Oop;

/// The first member of this name in a table; what is no table has none.
#[tactic(auto, using(crate::proofs::LeftTables::members))]
fn member_if_any<M: Memory>(m: &M, names: Oop, text: &[u8]) -> Option<Oop>
    ensures member { let t = (M.view m.now).objects in
        Reads (member_if_any table (value names) text.now) found t (Ok result) }
    ensures live { IfSome result (λ v. is_live (M.view m.now).objects (value v) ≡ true) }
{
    match member_named(m, names, text) {
        Ok(association) => association,
        Err(_) => None,
    }
}

/// The member of this name in the first of these tables that has one.
pub fn association_in<M: Memory>(m: &M, tables: &[Oop], text: &[u8]) -> Option<Oop>
    ensures association { let t = (M.view m.now).objects in
        Reads (association_in table (values tables.now) text.now) found t (Ok result) }
    ensures live { IfSome result (λ v. is_live (M.view m.now).objects (value v) ≡ true) }
{
    for names in tables {
        if let Some(association) = member_if_any(m, *names, text) {
            return Some(association);
        }
    }
    None
}
