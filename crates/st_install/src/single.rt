//! Literals that are a value, or one object that is made for them.

ghost use Rattle.std.specs.Prelude.{◌≡◌, ◌<◌, option_map, IfOk};
ghost use Rattle.st_model.specs.{Values.{Small, value}, Table.{Table, table}, inside.Calls.Reads};
ghost use Rattle.st_install.specs.{Plans.{pointers_object, bytes_object}, Symbols.symbol_part};
ghost use Rattle.st_install.specs.Literals.{negated, large_bytes, place_number, place_character, place_string, place_symbol, place_pointer};
ghost use Rattle.st_install.specs.inside.Readies.{part_of, parts_of, object_of};
ghost use Rattle.st_install.specs.inside.Told.{IsSingle, TellsSingle, part_placed, owner_step, named_of};

use crate::plan::{NewObject, Owner, PlannedValue};
use st_memory::Memory;
use st_model::{Dead, Kind, Oop};
use st_scan::{Signed, Text};
use st_scope::{Unread, class_of, fetch_field};
use std::alloc::{AllocError, Global};
use std::collections::BTreeMap;

const STRING_CLASS: Oop = Oop(14);

pub(crate) const ARRAY_CLASS: Oop = Oop(16);

const LARGE_CLASS: Oop = Oop(28);

const CHARACTERS: Oop = Oop(50);

/// Symbols by their texts.
pub(crate) type NamedSymbols = BTreeMap<Text, PlannedValue>;

/// A literal that is a value, or one object that is made for it.
#[derive(Drop)]
pub(crate) enum Single {
    Value(PlannedValue),
    Object(NewObject),
}

/// An object of kind Bytes.
pub(crate) fn bytes_object(alloc: Global, class: Oop, bytes: Text) -> NewObject
    ensures { object_of result ≡ bytes_object (value class) bytes.items }
{
    NewObject {
        class,
        kind: Kind::Bytes,
        fields: Vec::new(alloc),
        bytes,
    }
}

/// An object of kind Pointers.
pub(crate) fn pointers_object(alloc: Global, class: Oop, fields: Vec<PlannedValue>) -> NewObject
    ensures { object_of result ≡ pointers_object (value class) (parts_of fields.items) }
{
    NewObject {
        class,
        kind: Kind::Pointers,
        fields,
        bytes: Vec::new(alloc),
    }
}

/// The SmallInteger of 15 bits.
#[tactic(auto, using(crate::proofs::Numbers::small_bits))]
pub(crate) fn small(bits: u16) -> Oop
    requires { bits < 32768 }
    ensures { value result ≡ Small bits }
{
    Oop(2 * bits + 1)
}

/// The SmallInteger of a number with a minus sign; from -16384 up it is that number.
fn negated(size: u128) -> Oop
    ensures { value result ≡ negated size }
{
    if size == 0 {
        return small(0);
    }
    if size > 32768 {
        return small(0);
    }
    small((32768 - size) as u16)
}

/// The bytes of a LargePositiveInteger, the low one first.
fn large_bytes(alloc: Global, size: u128) -> Result<Text, AllocError>
    ensures { IfOk result (λ bytes. bytes.items ≡ large_bytes size) }
{
    let mut bytes = Vec::new(alloc);
    let mut left = size;
    while left >= 256 {
        bytes.push((left % 256) as u8)?;
        left /= 256;
    }
    bytes.push(left as u8)?;
    Ok(bytes)
}

/// A SmallInteger, or above 16383 a LargePositiveInteger.
#[tactic(auto, using(st_model::proofs::Runs::runs), unfolding(crate::specs::Literals::place_number, crate::specs::Literals::place_signed, crate::specs::Literals::place_size, st_model::specs::Values::value_of))]
pub(crate) fn place_number(alloc: Global, n: Signed) -> Result<Single, AllocError>
    ensures { IfOk result (λ x. (t : Table) → IsSingle (λ next. place_number table next n) t x) }
{
    if n.minus {
        return Ok(Single::Value(PlannedValue::There(negated(n.size))));
    }
    if n.size < 16384 {
        return Ok(Single::Value(PlannedValue::There(small(n.size as u16))));
    }
    let bytes = large_bytes(alloc, n.size)?;
    Ok(Single::Object(bytes_object(alloc, LARGE_CLASS, bytes)))
}

/// The Character of a byte: the field of its number in the table of characters.
#[tactic(auto, using(st_model::proofs::Runs::runs), unfolding(crate::specs::Literals::place_character, st_model::specs::Values::value_of))]
pub(crate) fn place_character<M: Memory>(m: &M, byte: u8) -> Result<PlannedValue, Dead>
    ensures { Reads (place_character table byte) part_placed (M.view m.now).objects result }
{
    Ok(PlannedValue::There(fetch_field(m, CHARACTERS, u32::from(byte))?))
}

/// A String.
#[tactic(auto, using(st_model::proofs::Runs::runs), unfolding(crate::specs::Literals::place_string, st_model::specs::Values::value_of))]
pub(crate) fn place_string(alloc: Global, text: &[u8]) -> Result<Single, AllocError>
    ensures { IfOk result (λ x. (t : Table) → IsSingle (λ next. place_string table next text.now) t x) }
{
    let bytes = text.to_vec(alloc)?;
    Ok(Single::Object(bytes_object(alloc, STRING_CLASS, bytes)))
}

/// The Symbol of a text, if the map has one.
pub(crate) fn named_symbol(named: &NamedSymbols, text: &[u8]) -> Option<PlannedValue>
    ensures { option_map part_of result ≡ symbol_part (named_of named.now.entries) text.now }
{
    named.get(text).copied()
}

/// The Symbol of a text.
#[tactic(auto, using(st_model::proofs::Runs::runs), unfolding(crate::specs::Literals::place_symbol))]
pub(crate) fn place_symbol(named: &NamedSymbols, text: &[u8]) -> Result<PlannedValue, Dead>
    ensures { let step = place_symbol (named_of named.now.entries) text.now in
        (t : Table) → Reads step part_placed t result }
{
    match named_symbol(named, text) {
        Some(part) => Ok(part),
        None => Err(Dead::Field),
    }
}

/// The object that bears a pointer: an association, nil, false or true.
#[tactic(auto, using(st_model::proofs::Runs::runs), unfolding(crate::specs::Literals::place_pointer))]
pub(crate) fn place_pointer<M: Memory>(m: &M, pointer: Oop) -> Result<PlannedValue, Dead>
    ensures { Reads (place_pointer table pointer.0) part_placed (M.view m.now).objects result }
{
    let object = Oop(pointer.0 / 2 * 2);
    if m.live(object) {
        Ok(PlannedValue::There(object))
    } else {
        Err(Dead::Kind)
    }
}

/// The association of the method's class: the global itself, or on the class side a new one without a key.
#[tactic(auto, using(st_model::proofs::Runs::runs), unfolding(crate::specs::Literals::place_owner, st_model::specs::Values::value_of))]
pub(crate) fn place_owner<M: Memory>(alloc: Global, m: &M, owner: Owner) -> Result<Single, Unread>
    ensures { TellsSingle (owner_step owner) (M.view m.now).objects result }
{
    if !owner.meta {
        return Ok(Single::Value(PlannedValue::There(owner.association)));
    }
    let kind = class_of(m, owner.association)?;
    let mut fields = Vec::new(alloc);
    fields.push(PlannedValue::There(Oop::NIL))?;
    fields.push(PlannedValue::There(owner.class))?;
    Ok(Single::Object(pointers_object(alloc, kind, fields)))
}
