//! The literals of a method, and the objects that are made for them: an array stands before its elements.

ghost use Rattle.std.specs.Prelude.{◌≡◌, ◌++◌, [], ◌∷◌, length, IfOk, OnOk};
ghost use Rattle.st_install.specs.Plans.{Made};
ghost use Rattle.st_install.specs.inside.Readies.{part_of, objects_of};
ghost use Rattle.st_install.specs.inside.Told.{single_placed, literal_step, literals_step, array_step, Places, PlacesAll};

use crate::plan::{NewObject, Owner, PlannedValue};
use crate::single::{
    ARRAY_CLASS, NamedSymbols, Single, place_character, place_number, place_owner, place_pointer,
    place_string, place_symbol, pointers_object,
};
use st_emit::Literal;
use st_memory::Memory;
use st_scan::Signed;
use st_scope::Unread;
use std::alloc::{AllocError, Global};

/// Puts an object behind the others, which are fewer than 2^32.
pub(crate) fn put_object(
    objects: &mut Vec<NewObject>,
    object: NewObject,
) -> Result<PlannedValue, AllocError>
    ensures part { IfOk result (λ p. part_of p ≡ Made (length objects.old.items)) }
    ensures objects { OnOk result (objects.new.items ≡ objects.old.items ++ object ∷ []) }
{
    let Ok(number) = u32::try_from(objects.len()) else {
        return Err(AllocError);
    };
    objects.push(object)?;
    Ok(PlannedValue::Made(number))
}

/// Puts what is made for a literal behind the objects.
fn put(objects: &mut Vec<NewObject>, single: Single) -> Result<PlannedValue, AllocError>
    ensures part { let next = length objects.old.items in
        IfOk result (λ p. part_of p ≡ (single_placed next single).part) }
    ensures objects { let placed = single_placed (length objects.old.items) single in
        OnOk result (objects_of objects.new.items ≡ objects_of objects.old.items ++ placed.objects) }
{
    match single {
        Single::Value(part) => Ok(part),
        Single::Object(object) => put_object(objects, object),
    }
}

/// Places an array, and behind it its elements.
#[cycle(arrays)]
fn place_array<M: Memory>(
    alloc: Global,
    m: &M,
    named: &NamedSymbols,
    of: Owner,
    members: &[Literal],
    objects: &mut Vec<NewObject>,
) -> Result<PlannedValue, Unread>
    ensures { let step = array_step named.now.entries of (length objects.old.items) members.now in
        Places step (M.view m.now).objects objects.old.items objects.new.items result }
{
    let number = objects.len();
    let part = put_object(
        objects,
        pointers_object(alloc, ARRAY_CLASS, Vec::new(alloc)),
    )?;
    let fields = place_literals(alloc, m, named, of, members, objects)?;
    objects[number].fields = fields;
    Ok(part)
}

/// Places a literal behind the objects.
#[cycle(arrays)]
fn place_literal<M: Memory>(
    alloc: Global,
    m: &M,
    named: &NamedSymbols,
    of: Owner,
    literal: &Literal,
    objects: &mut Vec<NewObject>,
) -> Result<PlannedValue, Unread>
    ensures { let step = literal_step named.now.entries of (length objects.old.items) literal.now in
        Places step (M.view m.now).objects objects.old.items objects.new.items result }
{
    match literal {
        Literal::Number { minus, size } => {
            let number = place_number(
                alloc,
                Signed {
                    minus: *minus,
                    size: *size,
                },
            )?;
            Ok(put(objects, number)?)
        }
        Literal::Character(byte) => Ok(place_character(m, *byte)?),
        Literal::Bytes(text) => {
            let string = place_string(alloc, text)?;
            Ok(put(objects, string)?)
        }
        Literal::Symbol(text) => Ok(place_symbol(named, text)?),
        Literal::Array(members) => place_array(alloc, m, named, of, members, objects),
        Literal::Named(pointer) => Ok(place_pointer(m, *pointer)?),
        Literal::Owner => {
            let owner = place_owner(alloc, m, of)?;
            Ok(put(objects, owner)?)
        }
    }
}

/// Places literals behind the objects, one after the other. The Symbols among them are those of a map. It takes time linear in
/// the literals, but for the search in the map.
#[cycle(arrays)]
pub(crate) fn place_literals<M: Memory>(
    alloc: Global,
    m: &M,
    named: &NamedSymbols,
    of: Owner,
    literals: &[Literal],
    objects: &mut Vec<NewObject>,
) -> Result<Vec<PlannedValue>, Unread>
    ensures { let step = literals_step named.now.entries of (length objects.old.items) literals.now in
        PlacesAll step (M.view m.now).objects objects.old.items objects.new.items result }
{
    let mut parts = Vec::new(alloc);
    for literal in literals {
        let part = place_literal(alloc, m, named, of, literal, objects)?;
        parts.push(part)?;
    }
    Ok(parts)
}
