//! The names of instance variables.

ghost use Rattle.std.specs.Prelude.{◌≡◌, IfOk, true, false};
ghost use Rattle.st_model.specs.{Values.value, Objects.is_bytes, Table.table, View.{is_live, object_of}};
ghost use Rattle.st_scope.specs.{Tables.bytes_of, Variables.{name_of, names_of, own_names, field_names}};
ghost use Rattle.st_scope.specs.{inside.Meanings.values, inside.Findings.{Finds, text_of, texts_of}};

use crate::arrays::fields_or_none;
use crate::reading::{check_live, fetch_field, is_bytes};
use crate::unread::Unread;
use st_emit::TextList;
use st_memory::Memory;
use st_model::{Dead, Oop};
use st_scan::Text;
use std::alloc::{AllocError, Global};

/// The bytes of an object that has bytes alone.
#[tactic(auto, using(st_memory::proofs::Bodies::bodies))]
fn copied<M: Memory>(alloc: Global, m: &M, o: Oop) -> Result<Text, AllocError>
    requires live { is_live (M.view m.now).objects (value o) ≡ true }
    requires kind { is_bytes (object_of (M.view m.now).objects (value o)).kind ≡ true }
    ensures { IfOk result (λ text. text.items ≡ (object_of (M.view m.now).objects (value o)).units) }
{
    let mut text = Vec::new(alloc);
    for i in 0..m.size(o) {
        text.push(m.byte(o, i))?;
    }
    Ok(text)
}

/// The bytes of an object of kind Bytes.
fn bytes_of<M: Memory>(alloc: Global, m: &M, o: Oop) -> Result<Text, Unread>
    ensures { let t = (M.view m.now).objects in Finds (bytes_of table (value o)) text_of t result }
{
    check_live(m, o)?;
    if !is_bytes(m.kind(o)) {
        return Err(Unread::Dies(Dead::Kind));
    }
    let text = copied(alloc, m, o)?;
    Ok(text)
}

/// The bytes of a name; nil has none, so no variable is called so.
fn name_of<M: Memory>(alloc: Global, m: &M, o: Oop) -> Result<Text, Unread>
    ensures { let t = (M.view m.now).objects in Finds (name_of table (value o)) text_of t result }
{
    if o.0 == 2 {
        return Ok(Vec::new(alloc));
    }
    bytes_of(alloc, m, o)
}

/// The names that a list has.
fn names_of<M: Memory>(alloc: Global, m: &M, list: &[Oop]) -> Result<TextList, Unread>
    ensures { let t = (M.view m.now).objects in
        Finds (names_of table (values list.now)) texts_of t result }
{
    let mut names = Vec::new(alloc);
    for o in list {
        names.push(name_of(alloc, m, *o)?)?;
    }
    Ok(names)
}

/// The names of the variables that a class adds.
fn own_names<M: Memory>(alloc: Global, m: &M, class: Oop) -> Result<TextList, Unread>
    ensures { let t = (M.view m.now).objects in
        Finds (own_names table (value class)) texts_of t result }
{
    let array = fetch_field(m, class, 4)?;
    let list = fields_or_none(alloc, m, array)?;
    names_of(alloc, m, &list)
}

/// The names of the instance variables of a chain, from the class upward, those of superclasses first.
pub fn field_names<M: Memory>(alloc: Global, m: &M, classes: &[Oop]) -> Result<TextList, Unread>
    ensures { let t = (M.view m.now).objects in
        Finds (field_names table (values classes.now)) texts_of t result }
{
    let mut names = Vec::new(alloc);
    let mut left = classes.len();
    while left > 0 {
        left -= 1;
        let mut own = own_names(alloc, m, classes[left])?;
        names.append(&mut own)?;
    }
    Ok(names)
}
