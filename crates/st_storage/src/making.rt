ghost use Rattle.std.specs.Prelude.{◌≡◌, ◌≢◌, ◌<◌, ◌≤◌, ◌+◌, ◌^◌, IfOk, false};
ghost use Rattle.st_model.specs.Values.{Ref, word};
ghost use Rattle.st_model.specs.Objects.{place_of, is_method};
ghost use Rattle.st_model.specs.declared.page.PageObject.TheVariants.{MethodClass};
ghost use Rattle.st_model.specs.inside.Calls.{itself};
ghost use Rattle.st_model.specs.Storage.{check_not_method_class, kind_of_fixed, fixed_specification, primitive_new, kind_of_indexed, body_words, checked_shape, indexed_shape, primitive_new_with};
ghost use Rattle.st_model.specs.Steps.{make};
ghost use Rattle.st_model.specs.Primitives.{fixed_count};
ghost use Rattle.st_frames.specs.inside.Answering.{succeed_by};
ghost use Rattle.st_storage.specs.inside.Storing.{shape_in};
ghost use Rattle.st_frames.specs.inside.Rows.{RowReads, RowTries, Takes};

use crate::numbers::{fixed_count, has_pointers, has_words, is_indexable, specification};
use crate::shapes::Shape;
use st_frames::{Registers, Tried, page, positive_value, succeed_with, top, under};
use st_memory::Objects;
use st_model::{Dead, Kind, PageObject, Word};

/// Any class but CompiledMethod.
#[tactic(auto, using(st_frames::proofs::Doing::rows, st_frames::proofs::Tries::tests, crate::proofs::Makeable::classes), unfolding(st_model::specs::Storage::check_not_method_class))]
fn check_not_method_class<O: Objects>(m: &O, r: &Registers, class: Word) -> Result<(), Dead>
    ensures does { RowReads O.Objects.own (check_not_method_class O.names (word class))
        itself m.now r.now result }
    ensures other { IfOk result (λ u. word class ≢ Ref (place_of MethodClass)) }
{
    let methods = page(m, PageObject::MethodClass);
    if class.same(methods) {
        Err(Dead::Kind)
    } else {
        Ok(())
    }
}

/// The kind of an instance with fixed fields alone.
fn kind_of_fixed(specification: u32) -> Kind
    ensures kind { result ≡ kind_of_fixed specification }
    ensures other { is_method result ≡ false }
{
    if has_pointers(specification) {
        Kind::Pointers
    } else {
        Kind::Words
    }
}

/// The specification of a class that isn't indexable, nor CompiledMethod.
#[tactic(auto, using(st_frames::proofs::Doing::rows, st_frames::proofs::Tries::tests), unfolding(st_model::specs::Storage::fixed_specification))]
fn fixed_specification<O: Objects>(m: &O, r: &Registers, class: Word) -> Result<u32, Dead>
    ensures does { RowReads O.Objects.own (fixed_specification O.names (word class))
        itself m.now r.now result }
    ensures other { IfOk result (λ s. word class ≢ Ref (place_of MethodClass)) }
{
    let s = specification(m, r, class)?;
    check_not_method_class(m, r, class)?;
    if is_indexable(s) {
        Err(Dead::Kind)
    } else {
        Ok(s)
    }
}

/// Answers a new instance of a class, by its specification.
#[tactic(auto, using(st_frames::proofs::Doing::rows, crate::proofs::Makeable::makeable), unfolding(st_frames::specs::inside::Answering::succeed_by))]
fn answer_fixed<O: Objects>(
    m: &mut O,
    r: &mut Registers,
    class: Word,
    s: u32,
) -> Result<Tried, Dead>
    requires room { 2 ≤ O.room m.old }
    requires other { word class ≢ Ref (place_of MethodClass) }
    ensures does { RowTries O.Objects.own
        (succeed_by O.names 0 (make O.names (word class) (kind_of_fixed s) (fixed_count s) 0))
        m.old r.old result m.new r.new }
    ensures takes { Takes O.Objects.own 2 m.old m.new }
{
    let answer = m.make(class, kind_of_fixed(s), fixed_count(s), 0)?;
    succeed_with(m, r, 0, answer)
}

/// Primitive 70: a new instance of the receiver, which has no indexed fields. Where it fails nothing is changed.
#[tactic(auto, using(st_frames::proofs::Tries::effects), unfolding(st_model::specs::Storage::primitive_new))]
pub fn primitive_new<O: Objects>(m: &mut O, r: &mut Registers) -> Result<Tried, Dead>
    requires room { 2 ≤ O.room m.old }
    ensures does { RowTries O.Objects.own (primitive_new O.names) m.old r.old result m.new r.new }
    ensures takes { Takes O.Objects.own 2 m.old m.new }
{
    let receiver = top(m, r)?;
    match fixed_specification(m, r, receiver) {
        Ok(s) => answer_fixed(m, r, receiver, s),
        Err(_) => Ok(Tried::Failed),
    }
}

/// The kind of an instance with indexed fields.
fn kind_of_indexed(specification: u32) -> Kind
    ensures kind { result ≡ kind_of_indexed specification }
    ensures other { is_method result ≡ false }
{
    if has_pointers(specification) {
        Kind::Pointers
    } else if has_words(specification) {
        Kind::Words
    } else {
        Kind::Bytes
    }
}

/// How many words a body of n fields, words or bytes has.
fn body_words(kind: Kind, n: u64) -> u64
    requires { n < 2 ^ 33 }
    ensures { result ≡ body_words kind n }
{
    match kind {
        Kind::Pointers | Kind::Words => n,
        Kind::Bytes | Kind::Method => (n + 1) / 2,
    }
}

/// The shape of a new object of n fields, words or bytes, where its body isn't too large.
#[tactic(auto, using(st_frames::proofs::Doing::checks, crate::proofs::Makeable::sizes), unfolding(st_model::specs::Storage::checked_shape))]
fn checked_shape<O: Objects>(m: &O, r: &Registers, kind: Kind, n: u64) -> Result<Shape, Dead>
    requires few { n < 2 ^ 33 }
    requires other { is_method kind ≡ false }
    ensures { RowReads O.Objects.own (checked_shape kind n) shape_in m.now r.now result }
{
    if 65533 < body_words(kind, n) {
        return Err(Dead::Field);
    }
    let size = n as u32;
    Ok(Shape { kind, size })
}

/// The shape of a new instance of a class that is indexable, but isn't CompiledMethod.
#[tactic(auto, using(st_frames::proofs::Doing::rows, st_frames::proofs::Tries::tests), unfolding(st_model::specs::Storage::indexed_shape))]
fn indexed_shape<O: Objects>(m: &O, r: &Registers, class: Word, count: Word) -> Result<Shape, Dead>
    ensures does { RowReads O.Objects.own (indexed_shape O.names (word class) (word count))
        shape_in m.now r.now result }
    ensures other { IfOk result (λ s. word class ≢ Ref (place_of MethodClass)) }
{
    let s = specification(m, r, class)?;
    check_not_method_class(m, r, class)?;
    if !is_indexable(s) {
        return Err(Dead::Kind);
    }
    let n = positive_value(m, r, count)?;
    checked_shape(m, r, kind_of_indexed(s), n + u64::from(fixed_count(s)))
}

/// Answers a new instance of a class, by its shape.
#[tactic(auto, using(st_frames::proofs::Doing::rows, crate::proofs::Makeable::makeable), unfolding(st_frames::specs::inside::Answering::succeed_by))]
fn answer_shaped<O: Objects>(
    m: &mut O,
    r: &mut Registers,
    class: Word,
    shape: Shape,
) -> Result<Tried, Dead>
    requires room { 33 ≤ O.room m.old }
    requires other { word class ≢ Ref (place_of MethodClass) }
    ensures does { RowTries O.Objects.own
        (succeed_by O.names 1 (make O.names (word class) shape.kind shape.size 0))
        m.old r.old result m.new r.new }
    ensures takes { Takes O.Objects.own 33 m.old m.new }
{
    let answer = m.make(class, shape.kind, shape.size, 0)?;
    succeed_with(m, r, 1, answer)
}

/// Primitive 71: a new instance of the receiver with as many indexed fields as the argument says. Where it fails nothing is changed.
#[tactic(auto, using(st_frames::proofs::Tries::effects), unfolding(st_model::specs::Storage::primitive_new_with))]
pub fn primitive_new_with<O: Objects>(m: &mut O, r: &mut Registers) -> Result<Tried, Dead>
    requires room { 33 ≤ O.room m.old }
    ensures does { RowTries O.Objects.own (primitive_new_with O.names) m.old r.old result m.new r.new }
    ensures takes { Takes O.Objects.own 33 m.old m.new }
{
    let receiver = under(m, r, 1)?;
    let count = top(m, r)?;
    match indexed_shape(m, r, receiver, count) {
        Ok(shape) => answer_shaped(m, r, receiver, shape),
        Err(_) => Ok(Tried::Failed),
    }
}
