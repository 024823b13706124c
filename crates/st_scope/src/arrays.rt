//! All fields of an object.

ghost use Rattle.std.specs.Prelude.{◌≡◌, false};
ghost use Rattle.st_model.specs.{Values.value, Steps.fetch_fields, Table.table};
ghost use Rattle.st_scope.specs.{Variables.{fields_unless, fields_or_none}, inside.Meanings.values_of};
ghost use Rattle.st_scope.specs.inside.Findings.{Finds};

use crate::reading::{count_fields, fetch_field};
use crate::unread::Unread;
use st_memory::Memory;
use st_model::Oop;
use std::alloc::Global;

/// So many fields, from field 0 up.
fn first_fields<M: Memory>(alloc: Global, m: &M, o: Oop, count: u32) -> Result<Vec<Oop>, Unread>
    ensures { let t = (M.view m.now).objects in
        Finds (fetch_fields table (value o) 0 count) values_of t result }
{
    let mut fields = Vec::new(alloc);
    for i in 0..count {
        fields.push(fetch_field(m, o, i)?)?;
    }
    Ok(fields)
}

/// The fields of an object of kind Pointers.
fn all_fields<M: Memory>(alloc: Global, m: &M, o: Oop) -> Result<Vec<Oop>, Unread>
    ensures { let t = (M.view m.now).objects in
        Finds (fields_unless table (value o) false) values_of t result }
{
    let count = count_fields(m, o)?;
    first_fields(alloc, m, o, count)
}

/// The fields of an object of kind Pointers, or none where there is nil in its place.
pub fn fields_or_none<M: Memory>(alloc: Global, m: &M, o: Oop) -> Result<Vec<Oop>, Unread>
    ensures { let t = (M.view m.now).objects in
        Finds (fields_or_none table (value o)) values_of t result }
{
    if o.0 == 2 {
        return Ok(Vec::new(alloc));
    }
    all_fields(alloc, m, o)
}
