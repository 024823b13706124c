//! The names that a method which is there sees.

ghost use Rattle.std.specs.Prelude.{◌≡◌, true, IfOk, OnOk, option_map};
ghost use Rattle.st_model.specs.{Values.value, Table.table, View.is_live};
ghost use Rattle.st_scan.specs.Views.{method_view, statements_view, no_statements};
ghost use Rattle.st_emit.specs.inside.NameViews.{names_view};
ghost use Rattle.st_scope.specs.{inside.Alike.SeesAlike, Calls.names, inside.Findings.text_of, inside.Meanings.values};
ghost use Rattle.st_scope.specs.Texts.{found, text_at};
ghost use Rattle.st_parts.specs.Keys.{key_field, key_in, with_keys, with_mentioned, mentioning, literals_in};
ghost use Rattle.st_parts.specs.Keys.{is_named_by, names_for};
ghost use Rattle.st_parts.specs.inside.NamesFor.{AnswersFor};
ghost use Rattle.st_parts.specs.inside.Kept.{Keeps, KeepsIf, AreKept};

use crate::bodies::{behind_header, bytes_of, fields_of};
use st_emit::{NamedOops, Names};
use st_expression_stack::names_value;
use st_memory::Memory;
use st_model::{Kind, Oop};
use st_scan::{Expression, MethodTree, Name, Statement, StatementList, Text};
use st_scope::{InstallFault, names};
use std::alloc::{AllocError, Global};

/// Field 0 of an object of kind Pointers with two fields or more.
#[tactic(auto, unfolding(crate::specs::Keys::key_field), using(st_memory::proofs::Bodies::bodies))]
fn key_field<M: Memory>(m: &M, v: Oop) -> Option<Oop>
    ensures { found result ≡ key_field (M.view m.now).objects (value v) }
{
    if !m.live(v) {
        return None;
    }
    if !m.kind(v).is_pointers() {
        return None;
    }
    if 2 <= m.size(v) {
        Some(m.pointer(v, 0))
    } else {
        None
    }
}

/// The bytes of an object of kind Bytes.
#[tactic(auto, unfolding(st_scope::specs::Texts::text_at))]
fn text_at<M: Memory>(alloc: Global, m: &M, o: Oop) -> Result<Option<Text>, AllocError>
    ensures { IfOk result (λ text. option_map text_of text ≡ text_at (M.view m.now).objects (value o)) }
{
    if !m.live(o) {
        return Ok(None);
    }
    match m.kind(o) {
        Kind::Bytes => {
            let bytes = bytes_of(alloc, m, o)?;
            Ok(Some(bytes))
        }
        Kind::Pointers | Kind::Words | Kind::Method => Ok(None),
    }
}

/// The name by which a value can be a member of a table of names, if there is one.
#[tactic(auto, unfolding(crate::specs::Keys::key_in))]
pub(crate) fn key_of<M: Memory>(alloc: Global, m: &M, v: Oop) -> Result<Option<Text>, AllocError>
    ensures { IfOk result (λ text. option_map text_of text ≡ key_in (M.view m.now).objects (value v)) }
{
    match key_field(m, v) {
        Some(key) => text_at(alloc, m, key),
        None => Ok(None),
    }
}

/// A statement more that mentions a name, if there is one.
fn mention(statements: &mut StatementList, text: Option<Text>) -> Result<(), AllocError>
    ensures { OnOk result (statements_view statements.new.items
        ≡ with_mentioned (statements_view statements.old.items) (option_map text_of text)) }
{
    match text {
        Some(text) => {
            let value = Expression::Variable(Name { text, place: 0 });
            statements.push(Statement {
                returns: false,
                value,
            })?;
            Ok(())
        }
        None => Ok(()),
    }
}

/// Statements that mention the keys of values, in their order.
fn keys_mentioned<M: Memory>(alloc: Global, m: &M, vs: &[Oop]) -> Result<StatementList, AllocError>
    ensures { IfOk result (λ ss. statements_view ss.items
        ≡ with_keys (M.view m.now).objects no_statements (values vs.now)) }
{
    let mut statements = Vec::new(alloc);
    for v in vs {
        let key = key_of(alloc, m, *v)?;
        mention(&mut statements, key)?;
    }
    Ok(statements)
}

/// A method that does no more than to mention the keys of values.
fn mentioning<M: Memory>(alloc: Global, m: &M, vs: &[Oop]) -> Result<MethodTree, AllocError>
    ensures { IfOk result (λ t. method_view t ≡ mentioning (M.view m.now).objects (values vs.now)) }
{
    let body = keys_mentioned(alloc, m, vs)?;
    Ok(MethodTree {
        selector: Vec::new(alloc),
        arguments: Vec::new(alloc),
        temporaries: Vec::new(alloc),
        primitive: None,
        body,
    })
}

/// Whether a key names the value of an association: it is a name, and none of the six that are always theirs.
pub(crate) fn is_named_by(names: &Names, key: &Option<Text>, v: Oop) -> Result<bool, AllocError>
    ensures { IfOk result (λ b. b ≡ is_named_by (names_view names.now) (option_map text_of key.now) v.0) }
{
    match key {
        Some(key) => names_value(names, key, v),
        None => Ok(false),
    }
}

/// Keeps a name, if there is one.
fn keep_key(shared: &mut NamedOops, key: Option<Text>, v: Oop) -> Result<(), AllocError>
    ensures { OnOk result (Keeps (option_map text_of key) v shared.old.entries shared.new.entries) }
{
    match key {
        Some(text) => {
            shared.insert(text, v)?;
            Ok(())
        }
        None => Ok(()),
    }
}

/// Keeps the key of a value, where that names it.
fn keep<M: Memory>(
    alloc: Global,
    m: &M,
    names: &Names,
    v: Oop,
    shared: &mut NamedOops,
) -> Result<(), AllocError>
    ensures { let key = key_in (M.view m.now).objects (value v) in
        let named = is_named_by (names_view names.now) key v.0 in
        OnOk result (KeepsIf named key v shared.old.entries shared.new.entries) }
{
    let key = key_of(alloc, m, v)?;
    let named = is_named_by(names, &key, v)?;
    if named {
        keep_key(shared, key, v)
    } else {
        Ok(())
    }
}

/// Those of these values that are named by their keys.
fn kept<M: Memory>(alloc: Global, m: &M, names: &Names, vs: &[Oop]) -> Result<NamedOops, AllocError>
    ensures { IfOk result (λ shared.
        AreKept (names_view names.now) (M.view m.now).objects (values vs.now) shared.entries) }
{
    let mut shared = NamedOops::new(alloc);
    for v in vs {
        keep(alloc, m, names, *v, &mut shared)?;
    }
    Ok(shared)
}

/// These names, of which those that are shared name one of these values.
fn names_for<M: Memory>(alloc: Global, m: &M, names: Names, vs: &[Oop]) -> Result<Names, AllocError>
    ensures { let t = (M.view m.now).objects in
        IfOk result (λ r. SeesAlike (names_for t (values vs.now) (names_view names)) (names_view r)) }
{
    let shared = kept(alloc, m, &names, vs)?;
    Ok(Names {
        fields: names.fields,
        shared,
        symbols: names.symbols,
    })
}

/// The names that a method with these literals sees.
fn names_of<M: Memory>(
    alloc: Global,
    m: &M,
    class: Oop,
    meta: bool,
    vs: &[Oop],
) -> Result<Names, InstallFault>
    ensures { let v = M.view m.now in let tree = mentioning v.objects (values vs.now) in
        AnswersFor (values vs.now) (names table v.head (value class) meta tree) v.objects result }
{
    let tree = match mentioning(alloc, m, vs) {
        Ok(tree) => tree,
        Err(AllocError) => return Err(InstallFault::OutOfMemory),
    };
    let seen = match names(alloc, m, class, meta, &tree) {
        Ok(seen) => seen,
        Err(fault) => return Err(fault),
    };
    match names_for(alloc, m, seen, vs) {
        Ok(names) => Ok(names),
        Err(AllocError) => Err(InstallFault::OutOfMemory),
    }
}

/// The names that a method which is there sees in its class, or, on the class side, in its metaclass: instance variables, and
/// all shared names that mean the value of one of its literals. Its faults are those of `names`.
pub fn method_names<M: Memory>(
    alloc: Global,
    m: &M,
    class: Oop,
    meta: bool,
    method: Oop,
) -> Result<Names, InstallFault>
    requires { is_live (M.view m.now).objects (value method) ≡ true }
    ensures { let v = M.view m.now in let vs = literals_in v.objects (value method) in
        let tree = mentioning v.objects vs in
        AnswersFor vs (names table v.head (value class) meta tree) v.objects result }
{
    match fields_of(alloc, m, method) {
        Ok(words) => {
            let vs = behind_header(&words);
            names_of(alloc, m, class, meta, vs)
        }
        Err(AllocError) => Err(InstallFault::OutOfMemory),
    }
}
