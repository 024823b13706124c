//! A literal by its contents.

ghost use Rattle.std.specs.Prelude.{◌≡◌, ◌<◌, min, true, IfOk, option_map};
ghost use Rattle.st_model.specs.{Values.value, View.{is_live, object_of}};
ghost use Rattle.st_emit.specs.{Literals.character, inside.Views.literal_view};
ghost use Rattle.st_scope.specs.inside.Meanings.{values};
ghost use Rattle.st_parts.specs.Contents.{class_in, bytes_by, character_at, constant_named, or_character};
ghost use Rattle.st_parts.specs.Contents.{contents, made_at, member_at, members_at, arrays_at};
ghost use Rattle.st_parts.specs.inside.Readings.{members_if};

use crate::bodies::{bytes_of, fields_of};
use crate::numbers::{large_number, small_number};
use crate::owner::same;
use st_emit::{Literal, LiteralList};
use st_memory::{Memory, count_fields};
use st_model::{Kind, Oop};
use st_scan::Text;
use std::alloc::{AllocError, Global};

/// How deep arrays may stand in one another.
pub(crate) const MOST_DEEP: usize = 200;

/// How many members all arrays of a method may have. For more there is no memory.
const MOST_MEMBERS: u32 = 1_048_576;

/// The table of characters.
const CHARACTERS: Oop = Oop(50);

/// How many characters there are.
const MOST_CHARACTERS: u32 = 256;

/// Counts one more member of the arrays of a method.
fn count_member(members: &mut u32) -> Result<(), AllocError> {
    if *members < MOST_MEMBERS {
        *members += 1;
        Ok(())
    } else {
        Err(AllocError)
    }
}

/// The name of a class, which is half its pointer. No SmallInteger is one.
#[tactic(auto, unfolding(st_model::specs::Values::value_of))]
fn class_in(class: Oop) -> u16
    ensures { result ≡ class_in (value class) }
{
    if class.is_small() { 0 } else { class.0 / 2 }
}

/// A LargePositiveInteger, a String or a Symbol, by its class.
fn bytes_by(class: u16, bytes: Text) -> Option<Literal>
    ensures { option_map literal_view result ≡ bytes_by class bytes.items }
{
    if class == 14 {
        large_number(&bytes)
    } else if class == 7 {
        Some(Literal::Bytes(bytes))
    } else if class == 28 {
        Some(Literal::Symbol(bytes))
    } else {
        None
    }
}

/// How many fields of a table of characters stand for one, of so many.
fn count_characters(fields: u32) -> u32
    ensures { result ≡ min fields 256 }
{
    fields.min(MOST_CHARACTERS)
}

/// The Character of a number.
fn character(n: u32) -> Literal
    requires { n < 256 }
    ensures { literal_view result ≡ character n }
{
    Literal::Character(n as u8)
}

/// The number of the first field of the table of characters that is this object.
#[tactic(auto, unfolding(st_model::specs::Values::value_of))]
fn character_at<M: Memory>(m: &M, v: Oop) -> Option<Literal>
    ensures { option_map literal_view result ≡ character_at (M.view m.now).objects (value v) }
{
    if !m.live(CHARACTERS) {
        return None;
    }
    if !m.kind(CHARACTERS).is_pointers() {
        return None;
    }
    for n in 0..count_characters(count_fields(m, CHARACTERS)) {
        if same(m.pointer(CHARACTERS, n), v) {
            return Some(character(n));
        }
    }
    None
}

/// nil, false or true.
#[tactic(auto, unfolding(st_model::specs::Values::value_of))]
fn constant_named(v: Oop) -> Option<Literal>
    ensures { option_map literal_view result ≡ constant_named (value v) }
{
    if same(v, Oop::NIL) {
        Some(Literal::Named(Oop::NIL))
    } else if same(v, Oop::FALSE) {
        Some(Literal::Named(Oop::FALSE))
    } else if same(v, Oop::TRUE) {
        Some(Literal::Named(Oop::TRUE))
    } else {
        None
    }
}

/// A literal, or else a Character.
fn or_character<M: Memory>(m: &M, v: Oop, literal: Option<Literal>) -> Option<Literal>
    ensures { option_map literal_view result
        ≡ or_character (option_map literal_view literal) (M.view m.now).objects (value v) }
{
    match literal {
        Some(literal) => Some(literal),
        None => character_at(m, v),
    }
}

/// The members of an Array, each by its contents.
#[cycle(contents)]
fn members_of<M: Memory>(
    alloc: Global,
    m: &M,
    deep: usize,
    vs: &[Oop],
    members: &mut u32,
) -> Result<Option<LiteralList>, AllocError>
    ensures { IfOk result (λ ls. members_if ls ≡ members_at deep (M.view m.now).objects (values vs.now)) }
{
    let mut list = Vec::new(alloc);
    for v in vs {
        count_member(members)?;
        let Some(member) = member_of(alloc, m, deep, *v, members)? else {
            return Ok(None);
        };
        list.push(member)?;
    }
    Ok(Some(list))
}

/// A member of an Array: what a literal may be, or else nil, false or true.
#[cycle(contents)]
fn member_of<M: Memory>(
    alloc: Global,
    m: &M,
    deep: usize,
    v: Oop,
    members: &mut u32,
) -> Result<Option<Literal>, AllocError>
    ensures { IfOk result
        (λ l. option_map literal_view l ≡ member_at deep (M.view m.now).objects (value v)) }
{
    match contents_of(alloc, m, deep, v, members)? {
        Some(literal) => Ok(Some(literal)),
        None => Ok(constant_named(v)),
    }
}

/// An Array of these members.
#[cycle(contents)]
fn array_of<M: Memory>(
    alloc: Global,
    m: &M,
    deep: usize,
    vs: &[Oop],
    members: &mut u32,
) -> Result<Option<Literal>, AllocError>
    ensures { IfOk result
        (λ l. option_map literal_view l ≡ arrays_at deep (M.view m.now).objects (values vs.now)) }
{
    if deep == 0 {
        return Ok(None);
    }
    match members_of(alloc, m, deep - 1, vs, members)? {
        Some(list) => Ok(Some(Literal::Array(list))),
        None => Ok(None),
    }
}

/// A number, a String, a Symbol or an Array, by kind and class.
#[cycle(contents)]
fn made_of<M: Memory>(
    alloc: Global,
    m: &M,
    deep: usize,
    v: Oop,
    members: &mut u32,
) -> Result<Option<Literal>, AllocError>
    requires { is_live (M.view m.now).objects (value v) ≡ true }
    ensures { IfOk result (λ l. option_map literal_view l ≡ made_at deep (M.view m.now).objects (value v)) }
{
    let class = class_in(m.class_of(v));
    match m.kind(v) {
        Kind::Bytes => {
            let bytes = bytes_of(alloc, m, v)?;
            Ok(bytes_by(class, bytes))
        }
        Kind::Pointers => {
            if class != 8 {
                return Ok(None);
            }
            let fields = fields_of(alloc, m, v)?;
            array_of(alloc, m, deep, &fields, members)
        }
        Kind::Words | Kind::Method => Ok(None),
    }
}

/// A literal by its contents, where arrays may stand so deep in one another: a number, a String, a Symbol, an Array, or else a
/// Character.
#[cycle(contents)]
pub(crate) fn contents_of<M: Memory>(
    alloc: Global,
    m: &M,
    deep: usize,
    v: Oop,
    members: &mut u32,
) -> Result<Option<Literal>, AllocError>
    ensures { IfOk result (λ l. option_map literal_view l ≡ contents deep (M.view m.now).objects (value v)) }
{
    if v.is_small() {
        return Ok(Some(small_number(v)));
    }
    if !m.live(v) {
        return Ok(None);
    }
    let made = made_of(alloc, m, deep, v, members)?;
    Ok(or_character(m, v, made))
}
