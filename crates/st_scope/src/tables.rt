//! Tables of names: the first member of a name.

ghost use Rattle.std.specs.Prelude.{◌≡◌, Ok, true, IfOk, IfSome};
ghost use Rattle.st_model.specs.{Values.value, Table.table, inside.Calls.{Reads, itself}, View.is_live};
ghost use Rattle.st_scope.specs.{Tables.{member_key, has_name, member_named}, Texts.found};

use crate::reading::{check_fields, count_fields, fetch_field, is_text};
use st_memory::Memory;
use st_model::{Dead, Oop};

/// The key of a member of a table of names.
#[tactic(auto, using(st_model::proofs::Runs::runs), unfolding(crate::specs::Tables::member_key))]
fn member_key<M: Memory>(m: &M, v: Oop) -> Result<Oop, Dead>
    ensures key { Reads (member_key table (value v)) value (M.view m.now).objects result }
    ensures live { IfOk result (λ x. is_live (M.view m.now).objects (value v) ≡ true) }
{
    check_fields(m, v, 2)?;
    fetch_field(m, v, 0)
}

/// Whether it is a member of this name.
#[tactic(auto, using(crate::proofs::TextsAt::names))]
fn has_name<M: Memory>(m: &M, v: Oop, text: &[u8]) -> bool
    ensures named { Reads (has_name table (value v) text.now) itself (M.view m.now).objects (Ok result) }
    ensures live { result ≡ true → is_live (M.view m.now).objects (value v) ≡ true }
{
    match member_key(m, v) {
        Ok(key) => is_text(m, key, text),
        Err(_) => false,
    }
}

/// The first member of this name, where the table is of kind Pointers.
pub fn member_named<M: Memory>(m: &M, names: Oop, text: &[u8]) -> Result<Option<Oop>, Dead>
    ensures member { let t = (M.view m.now).objects in
        Reads (member_named table (value names) text.now) found t result }
    ensures live { let t = (M.view m.now).objects in
        IfOk result (λ member. IfSome member (λ v. is_live t (value v) ≡ true)) }
{
    let count = count_fields(m, names)?;
    for i in 0..count {
        let member = fetch_field(m, names, i)?;
        if has_name(m, member, text) {
            return Ok(Some(member));
        }
    }
    Ok(None)
}
