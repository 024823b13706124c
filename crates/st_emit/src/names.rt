//! What a name means.

ghost use Rattle.std.specs.Prelude.{◌≡◌, ◌++◌, take, IfOk, option_map, is_some};
ghost use Rattle.st_emit.specs.Names.{constant_named, field_named, shared_named, declared_as, own_variable, is_among};
ghost use Rattle.st_scan.specs.Views.{names_view as list_view};
ghost use Rattle.st_emit.specs.inside.NameViews.{frame_view, names_view, scope_view, variable_at, pointer_of, IsVariable};

use crate::counting::sum;
use crate::declared_names::{DeclaredNames, name_place};
use crate::instruction::Constant;
use crate::table::value_or;
use st_model::Oop;
use st_scan::Text;
use std::alloc::{AllocError, Global};
use std::collections::BTreeMap;

/// How many instance variables have a number.
const MOST_FIELDS: usize = 64;

/// Names as their bytes.
pub type TextList = Vec<Text>;

/// Names that are shared, each with its association.
pub type NamedOops = BTreeMap<Text, Oop>;

/// The names of a class: its instance variables in order, what its pools and the globals share, and whether the image
/// has a symbol table.
#[derive(Drop)]
pub struct Names {
    pub fields: TextList,
    pub shared: NamedOops,
    pub symbols: bool,
}

/// What stands around a part of a tree: the names of the class, those that are declared there, and the number of the
/// next variable in the order of the text.
#[derive(Clone, Copy)]
pub struct Around<'a> {
    pub names: &'a Names,
    pub scope: &'a [DeclaredNames<'a>],
    pub next: usize,
}

/// A variable of the method or of a block, an instance variable, or the value of an association.
#[derive(Clone, Copy)]
pub enum Variable {
    Temporary { number: usize, assignable: bool },
    Field(usize),
    Shared(Oop),
}

/// The pseudo variables, each with what it names.
const CONSTANTS: [(&[u8], Option<Constant>); 6] = [
    (b"self", Some(Constant::Receiver)),
    (b"super", Some(Constant::Receiver)),
    (b"true", Some(Constant::True)),
    (b"false", Some(Constant::False)),
    (b"nil", Some(Constant::Nil)),
    (b"thisContext", Some(Constant::Context)),
];

/// The pseudo variable of a name.
pub fn constant_named(text: &[u8]) -> Option<Constant>
    ensures { result ≡ constant_named text.now }
{
    value_or(&CONSTANTS, text, None)
}

/// The number of an instance variable. The first 64 have one.
fn field_named(names: &Names, text: &[u8]) -> Option<usize>
    ensures { result ≡ field_named (names_view names.now) text.now }
{
    for (i, name) in names.fields.iter().enumerate() {
        if i == MOST_FIELDS {
            return None;
        }
        if name.as_slice() == text {
            return Some(i);
        }
    }
    None
}

/// The association of a name that is shared.
fn shared_named(names: &Names, text: &[u8]) -> Option<Oop>
    ensures { option_map pointer_of result ≡ shared_named (names_view names.now) text.now }
{
    names.shared.get(text).copied()
}

/// The variable of a name among those that are declared together.
fn declared_in(frame: DeclaredNames<'_>, text: &[u8]) -> Result<Option<Variable>, AllocError>
    ensures { IfOk result (IsVariable (own_variable (declared_as (frame_view frame.entry) text.now))) }
{
    let Some(place) = name_place(frame, text) else {
        return Ok(None);
    };
    Ok(Some(Variable::Temporary {
        number: sum(frame.first, place)?,
        assignable: frame.assignable,
    }))
}

/// The variable of a name that is declared in a scope.
fn declared_as(scope: &[DeclaredNames<'_>], text: &[u8]) -> Result<Option<Variable>, AllocError>
    ensures { IfOk result (IsVariable (own_variable (declared_as (scope_view scope.now) text.now))) }
{
    for frame in scope {
        if let Some(variable) = declared_in(*frame, text)? {
            return Ok(Some(variable));
        }
    }
    Ok(None)
}

/// The variable of a name: those of the method first, then the receiver's, then what is shared.
pub fn variable_named(
    names: &Names,
    scope: &[DeclaredNames<'_>],
    text: &[u8],
) -> Result<Option<Variable>, AllocError>
    ensures { IfOk result (IsVariable (variable_at names.now scope.now text.now)) }
{
    if let Some(variable) = declared_as(scope, text)? {
        return Ok(Some(variable));
    }
    if let Some(field) = field_named(names, text) {
        return Ok(Some(Variable::Field(field)));
    }
    Ok(shared_named(names, text).map(Variable::Shared))
}

/// Whether a name is among the first names of a frame.
pub fn is_among(frame: DeclaredNames<'_>, count: usize, text: &[u8]) -> bool
    ensures { result ≡ is_among (list_view (take count frame.entry.names.now)) text.now }
{
    match name_place(frame, text) {
        Some(place) => place < count,
        None => false,
    }
}

/// Whether a name is declared in a scope.
pub fn is_declared(scope: &[DeclaredNames<'_>], text: &[u8]) -> bool
    ensures { result ≡ is_some (declared_as (scope_view scope.now) text.now) }
{
    for frame in scope {
        if name_place(*frame, text).is_some() {
            return true;
        }
    }
    false
}

/// A scope with a frame more.
pub fn inner_scope<'a>(
    alloc: Global,
    scope: &[DeclaredNames<'a>],
    frame: DeclaredNames<'a>,
) -> Result<Vec<DeclaredNames<'a>>, AllocError>
    ensures { IfOk result (λ inner. scope_view inner.items ≡ scope_view scope.now ++ frame_view frame.entry) }
{
    let mut inner = scope.to_vec(alloc)?;
    inner.push(frame)?;
    Ok(inner)
}
