//! The parts of a compiled method.

ghost use Rattle.std.specs.Prelude.{◌≡◌, ◌≤◌, ◌-◌, true, length, IfOk, option_map};
ghost use Rattle.st_model.specs.{Values.{value, is_small}, Objects.is_method, View.{is_live, object_of}};
ghost use Rattle.st_emit.specs.{inside.NameViews.names_view, inside.Views.literal_view};
ghost use Rattle.st_code.specs.inside.MethodDrafts.{parts_view};
ghost use Rattle.st_scope.specs.inside.Meanings.{values};
ghost use Rattle.st_parts.specs.Parts.{literal_read, literals_read, ends_owned, ends_extended, from_end, owned_read, extended_read, all_read, parts_at};
ghost use Rattle.st_parts.specs.{inside.Places.{place_at, place_of}, inside.Readings.literals_if};

use crate::bodies::{behind_header, bytes_of, fields_of};
use crate::contents::{MOST_DEEP, contents_of};
use crate::ending::{Ending, ending_of};
use crate::naming::{is_named_by, key_of};
use crate::numbers::small_number;
use crate::owner::{Compiled, is_owner};
use st_code::MethodParts;
use st_emit::{Literal, LiteralList, Names};
use st_memory::Memory;
use st_model::Oop;
use std::alloc::{AllocError, Global};

/// A literal: an association that a text can name by its key, or what it is by its contents.
fn literal_of<M: Memory>(
    alloc: Global,
    m: &M,
    names: &Names,
    v: Oop,
    members: &mut u32,
) -> Result<Option<Literal>, AllocError>
    ensures { IfOk result (λ l. option_map literal_view l
        ≡ literal_read (names_view names.now) (M.view m.now).objects (value v)) }
{
    let key = key_of(alloc, m, v)?;
    let named = is_named_by(names, &key, v)?;
    if named {
        Ok(Some(Literal::Named(v)))
    } else {
        contents_of(alloc, m, MOST_DEEP, v, members)
    }
}

/// Literals, each as `literal_of` has it.
fn literals_of<M: Memory>(
    alloc: Global,
    m: &M,
    names: &Names,
    vs: &[Oop],
) -> Result<Option<LiteralList>, AllocError>
    ensures { IfOk result (λ ls. literals_if ls
        ≡ literals_read (names_view names.now) (M.view m.now).objects (values vs.now)) }
{
    let mut list = Vec::new(alloc);
    let mut members = 0;
    for v in vs {
        let Some(literal) = literal_of(alloc, m, names, *v, &mut members)? else {
            return Ok(None);
        };
        list.push(literal)?;
    }
    Ok(Some(list))
}

/// Whether the last of the literals is the association of the method's class.
fn ends_owned<M: Memory>(m: &M, of: Compiled<'_>, vs: &[Oop]) -> bool
    ensures owned { result ≡ ends_owned (M.view m.now) (place_of of.entry) (values vs.now) }
    ensures some { result ≡ true → 1 ≤ length vs.now }
{
    let count = vs.len();
    if count < 1 {
        return false;
    }
    is_owner(m, of, vs[count - 1])
}

/// Whether the last of the literals are a SmallInteger and the association of the method's class.
fn ends_extended<M: Memory>(m: &M, of: Compiled<'_>, vs: &[Oop]) -> bool
    ensures extended { result ≡ ends_extended (M.view m.now) (place_of of.entry) (values vs.now) }
    ensures some { result ≡ true → 2 ≤ length vs.now }
    ensures small { result ≡ true → is_small (from_end 2 (values vs.now)) ≡ true }
{
    let count = vs.len();
    if count < 2 {
        return false;
    }
    if !vs[count - 2].is_small() {
        return false;
    }
    is_owner(m, of, vs[count - 1])
}

/// All literals of a method, of which the last is the association of its class.
fn owned_literals<M: Memory>(
    alloc: Global,
    m: &M,
    names: &Names,
    of: Compiled<'_>,
    vs: &[Oop],
) -> Result<Option<LiteralList>, AllocError>
    ensures { IfOk result (λ ls. literals_if ls
        ≡ owned_read (names_view names.now) (M.view m.now) (place_of of.entry) (values vs.now)) }
{
    if !ends_owned(m, of, vs) {
        return Ok(None);
    }
    let Some(list) = literals_of(alloc, m, names, &vs[..vs.len() - 1])? else {
        return Ok(None);
    };
    let mut list = list;
    list.push(Literal::Owner)?;
    Ok(Some(list))
}

/// All literals of a method, of which the last are the extension of its header and the association of its class.
fn extended_literals<M: Memory>(
    alloc: Global,
    m: &M,
    names: &Names,
    of: Compiled<'_>,
    vs: &[Oop],
) -> Result<Option<LiteralList>, AllocError>
    ensures { IfOk result (λ ls. literals_if ls
        ≡ extended_read (names_view names.now) (M.view m.now) (place_of of.entry) (values vs.now)) }
{
    if !ends_extended(m, of, vs) {
        return Ok(None);
    }
    let Some(list) = literals_of(alloc, m, names, &vs[..vs.len() - 2])? else {
        return Ok(None);
    };
    let mut list = list;
    list.push(small_number(vs[vs.len() - 2]))?;
    list.push(Literal::Owner)?;
    Ok(Some(list))
}

/// All literals of a method.
fn all_literals<M: Memory>(
    alloc: Global,
    m: &M,
    names: &Names,
    of: Compiled<'_>,
    ending: Ending,
    vs: &[Oop],
) -> Result<Option<LiteralList>, AllocError>
    ensures { IfOk result (λ ls. literals_if ls
        ≡ all_read (names_view names.now) (M.view m.now) (place_of of.entry) ending (values vs.now)) }
{
    match ending {
        Ending::Plain => literals_of(alloc, m, names, vs),
        Ending::Owned => owned_literals(alloc, m, names, of, vs),
        Ending::Extended => extended_literals(alloc, m, names, of, vs),
    }
}

/// What the method of a selector was made of, in the class of this name, or, on the class side, in its metaclass, under the names
/// that its class's methods see. There is none exactly if a literal isn't what its place asks. It takes memory.
#[tactic(auto, unfolding(crate::specs::Parts::parts_at))]
pub fn parts_of<M: Memory>(
    alloc: Global,
    m: &M,
    class: Oop,
    name: &[u8],
    meta: bool,
    selector: &[u8],
    names: &Names,
    method: Oop,
) -> Result<Option<MethodParts>, AllocError>
    requires live { is_live (M.view m.now).objects (value method) ≡ true }
    requires kind { is_method (object_of (M.view m.now).objects (value method)).kind ≡ true }
    ensures { let at = place_at class name.now meta selector.now method in
        IfOk result (λ p. option_map parts_view p ≡ parts_at (names_view names.now) (M.view m.now) at) }
{
    let of = Compiled {
        class,
        name,
        meta,
        selector,
        method,
    };
    let words = fields_of(alloc, m, method)?;
    let bytes = bytes_of(alloc, m, method)?;
    let vs = behind_header(&words);
    let [header, ..] = words.as_slice() else {
        return Ok(None);
    };
    let ending = ending_of(header.0, &bytes);
    let Some(literals) = all_literals(alloc, m, names, of, ending, vs)? else {
        return Ok(None);
    };
    Ok(Some(MethodParts {
        selector: selector.to_vec(alloc)?,
        header: header.0,
        literals,
        bytes,
    }))
}
