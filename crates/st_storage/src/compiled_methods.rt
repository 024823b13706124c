//! The primitives on CompiledMethods: 68 and 69, by which header and literals are read and stored, and 79, which makes a new one.

ghost use Rattle.std.specs.Prelude.{◌≡◌, ◌<◌, ◌≤◌, ◌+◌, ◌-◌, ◌^◌, Ok, IfOk, false};
ghost use Rattle.st_model.specs.Values.{word};
ghost use Rattle.st_model.specs.inside.Calls.{itself};
ghost use Rattle.st_model.specs.Storage.{place_in_method, header_or_literal, primitive_object_at, check_header, place_to_store, store_in_method, primitive_object_at_put, method_words, method_shape, new_method, primitive_new_method};
ghost use Rattle.st_model.specs.Steps.{store_method_field};
ghost use Rattle.st_frames.specs.inside.Answering.{succeed_by, answer_word, answer_deed, no_word};
ghost use Rattle.st_storage.specs.inside.Storing.{method_shape_in};
ghost use Rattle.st_model.specs.Deeds.{copies_pixels};
ghost use Rattle.st_frames.specs.inside.Rows.{RowReads, RowLeaves, RowTries, Takes};

use crate::elements::count_literals;
use crate::numbers::small_word;
use crate::shapes::{Indexed, MethodShape, Put};
use crate::storing::put_operands;
use st_frames::{
    Answer, Registers, Tried, bits_or_die, page, positive_small, succeed_leaving, succeed_with,
    top, under,
};
use st_memory::Objects;
use st_model::{Dead, Deed, Kind, PageObject, Word};

/// The field that a word names in a Method.
#[tactic(auto, using(st_frames::proofs::Doing::checks), unfolding(st_model::specs::Storage::place_in_method, st_model::specs::Storage::method_place))]
fn place_in_method<O: Objects>(m: &O, r: &Registers, x: Indexed) -> Result<u32, Dead>
    ensures does { RowReads O.Objects.own (place_in_method O.names (word x.object) (word x.index))
        itself m.now r.now result }
{
    let i = positive_small(m, r, x.index)?;
    let n = count_literals(m, r, x.object)?;
    if i < 1 {
        return Err(Dead::Field);
    }
    if n + 1 < i {
        return Err(Dead::Field);
    }
    Ok(i - 1)
}

/// The header or literal that a word names in a Method.
#[tactic(auto, using(st_frames::proofs::Doing::rows), unfolding(st_model::specs::Storage::header_or_literal))]
fn header_or_literal<O: Objects>(m: &O, r: &Registers, x: Indexed) -> Result<Word, Dead>
    ensures does { RowReads O.Objects.own (header_or_literal O.names (word x.object) (word x.index))
        word m.now r.now result }
{
    let place = place_in_method(m, r, x)?;
    m.fetch_method_field(x.object, place)
}

/// Primitive 68: the header of the receiver, a Method, or the literal that the argument numbers.
#[tactic(auto, using(st_frames::proofs::Tries::tries), unfolding(st_model::specs::Storage::primitive_object_at))]
pub fn primitive_object_at<O: Objects>(m: &mut O, r: &mut Registers) -> Result<Tried, Dead>
    requires room { 1 ≤ O.room m.old }
    ensures does { RowTries O.Objects.own (primitive_object_at O.names) m.old r.old result m.new r.new }
    ensures takes { Takes O.Objects.own 1 m.old m.new }
{
    let object = under(m, r, 1)?;
    let index = top(m, r)?;
    match header_or_literal(m, r, Indexed { object, index }) {
        Ok(answer) => succeed_with(m, r, 1, answer),
        Err(_) => Ok(Tried::Failed),
    }
}

/// A header that counts as many literals as that of a Method.
#[tactic(auto, using(st_frames::proofs::Doing::rows, st_frames::proofs::Tries::tests, st_frames::proofs::Tries::counts), unfolding(st_model::specs::Storage::check_header))]
pub fn check_header<O: Objects>(
    m: &O,
    r: &Registers,
    method: Word,
    header: Word,
) -> Result<(), Dead>
    ensures does { RowReads O.Objects.own (check_header O.names (word method) (word header))
        itself m.now r.now result }
{
    let n = count_literals(m, r, method)?;
    let bits = bits_or_die(m, r, header)?;
    if bits % 64 == n {
        Ok(())
    } else {
        Err(Dead::Field)
    }
}

/// The field that an index names in a Method, where a value may be stored there.
#[tactic(auto, using(st_frames::proofs::Doing::rows), unfolding(st_model::specs::Storage::place_to_store, st_model::specs::Storage::check_method_field))]
fn place_to_store<O: Objects>(m: &O, r: &Registers, put: Put) -> Result<u32, Dead>
    ensures does { RowReads O.Objects.own
        (place_to_store O.names (word put.indexed.object) (word put.indexed.index) (word put.value))
        itself m.now r.now result }
    ensures header { IfOk result (λ i. i ≡ 0 → RowReads O.Objects.own
        (check_header O.names (word put.indexed.object) (word put.value)) itself m.now r.now (Ok tt)) }
{
    let place = place_in_method(m, r, put.indexed)?;
    if place == 0 {
        check_header(m, r, put.indexed.object, put.value)?;
        Ok(0)
    } else {
        Ok(place)
    }
}

/// What stores a value as field i of a Method is left to be done. A header counts as many literals as the one before.
#[tactic(auto, using(st_frames::proofs::Doing::rows, crate::proofs::Left::method_fields))]
fn store_method_field<O: Objects>(
    m: &O,
    r: &Registers,
    method: Word,
    i: u32,
    value: Word,
) -> Result<Deed, Dead>
    requires header { i ≡ 0 → RowReads O.Objects.own
        (check_header O.names (word method) (word value)) itself m.now r.now (Ok tt) }
    ensures does { RowLeaves O.Objects.own
        (store_method_field O.names (word method) i (word value))
        no_word itself m.now r.now result m.now r.now }
    ensures plain { IfOk result (λ d. copies_pixels d ≡ false) }
{
    m.fetch_method_field(method, i)?;
    if !m.is_there(value) {
        return Err(Dead::Kind);
    }
    if i == 0 {
        Ok(Deed::StoreHeader {
            method,
            header: value,
        })
    } else {
        Ok(Deed::StoreLiteral {
            method,
            number: i - 1,
            value,
        })
    }
}

/// A value that is stored in a Method, as an answer.
#[tactic(auto, using(st_frames::proofs::Doing::rows), unfolding(st_model::specs::Storage::store_in_method))]
fn store_in_method<O: Objects>(m: &O, r: &Registers, put: Put, i: u32) -> Result<Answer, Dead>
    requires header { i ≡ 0 → RowReads O.Objects.own
        (check_header O.names (word put.indexed.object) (word put.value)) itself m.now r.now (Ok tt) }
    ensures does { RowLeaves O.Objects.own
        (store_in_method O.names (word put.indexed.object) (word put.value) i)
        answer_word answer_deed m.now r.now result m.now r.now }
    ensures plain { IfOk result (λ a. copies_pixels a.deed ≡ false) }
{
    let word = put.value;
    let deed = store_method_field(m, r, put.indexed.object, i, word)?;
    Ok(Answer { word, deed })
}

/// Stores a value in a Method, and answers it.
#[tactic(auto, using(st_frames::proofs::Doing::rows), unfolding(st_frames::specs::inside::Answering::succeed_by))]
fn answer_in_method<O: Objects>(
    m: &mut O,
    r: &mut Registers,
    put: Put,
    i: u32,
) -> Result<Tried, Dead>
    requires header { i ≡ 0 → RowReads O.Objects.own
        (check_header O.names (word put.indexed.object) (word put.value)) itself m.old r.old (Ok tt) }
    requires room { 1 ≤ O.room m.old }
    ensures does { RowTries O.Objects.own
        (succeed_by O.names 2 (store_in_method O.names (word put.indexed.object) (word put.value) i))
        m.old r.old result m.new r.new }
    ensures takes { Takes O.Objects.own 1 m.old m.new }
{
    let answer = store_in_method(m, r, put, i)?;
    succeed_leaving(m, r, 2, answer)
}

/// Primitive 69: the second argument becomes the header of the receiver, a Method, or the literal that the first one numbers.
#[tactic(auto, using(st_frames::proofs::Tries::effects), unfolding(st_model::specs::Storage::primitive_object_at_put))]
pub fn primitive_object_at_put<O: Objects>(m: &mut O, r: &mut Registers) -> Result<Tried, Dead>
    requires room { 1 ≤ O.room m.old }
    ensures does { RowTries O.Objects.own (primitive_object_at_put O.names) m.old r.old result m.new r.new }
    ensures takes { Takes O.Objects.own 1 m.old m.new }
{
    let put = put_operands(m, r)?;
    match place_to_store(m, r, put) {
        Ok(place) => answer_in_method(m, r, put, place),
        Err(_) => Ok(Tried::Failed),
    }
}

/// How many words the body of a Method has.
fn method_words(literals: u32, bytes: u32) -> u32
    requires literals { literals < 64 }
    requires bytes { bytes < 16384 }
    ensures { result ≡ method_words literals bytes }
{
    1 + literals + (bytes + 1) / 2
}

/// The shape of a new Method of the class CompiledMethod.
#[tactic(auto, using(st_frames::proofs::Doing::checks, st_frames::proofs::Tries::tests, st_frames::proofs::Tries::counts, crate::proofs::Makeable::methods), unfolding(st_model::specs::Storage::method_shape))]
fn method_shape<O: Objects>(
    m: &O,
    r: &Registers,
    class: Word,
    count: Word,
    header: Word,
) -> Result<MethodShape, Dead>
    ensures does { RowReads O.Objects.own
        (method_shape O.names (word class) (word count) (word header))
        method_shape_in m.now r.now result }
    ensures class { IfOk result (λ s. s.class ≡ class) }
{
    let methods = page(m, PageObject::MethodClass);
    if !class.same(methods) {
        return Err(Dead::Kind);
    }
    let bytes = positive_small(m, r, count)?;
    let header = bits_or_die(m, r, header)?;
    if 65533 < method_words(header % 64, bytes) {
        return Err(Dead::Field);
    }
    Ok(MethodShape {
        class,
        header,
        bytes,
    })
}

/// A new Method, whose header is left to be stored. Where there is no room for it, nil is no Method of so many literals, or
/// becomes one with this header.
#[tactic(auto, using(st_frames::proofs::Doing::rows, st_frames::proofs::Tries::counts, crate::proofs::Makeable::methods), unfolding(st_model::specs::Storage::new_method))]
fn new_method<O: Objects>(m: &mut O, r: &Registers, shape: MethodShape) -> Result<Answer, Dead>
    requires room { 5 ≤ O.room m.old }
    ensures does { RowLeaves O.Objects.own (new_method O.names (word shape.class) (method_shape_in shape))
        answer_word answer_deed m.old r.now result m.new r.now }
    ensures takes { Takes O.Objects.own 5 m.old m.new }
    ensures plain { IfOk result (λ a. copies_pixels a.deed ≡ false) }
{
    let literals = shape.header % 64;
    let word = m.make(
        shape.class,
        Kind::Method,
        2 * literals + 2 + shape.bytes,
        literals,
    )?;
    let header = small_word(shape.header);
    check_header(m, r, word, header)?;
    let deed = store_method_field(m, r, word, 0, header)?;
    Ok(Answer { word, deed })
}

/// Primitive 79: a new Method with the header that the second argument says, and as many bytes as the first.
#[tactic(auto, using(st_frames::proofs::Tries::effects), unfolding(st_model::specs::Storage::primitive_new_method))]
pub fn primitive_new_method<O: Objects>(m: &mut O, r: &mut Registers) -> Result<Tried, Dead>
    requires room { 6 ≤ O.room m.old }
    ensures does { RowTries O.Objects.own (primitive_new_method O.names) m.old r.old result m.new r.new }
    ensures takes { Takes O.Objects.own 6 m.old m.new }
{
    let receiver = under(m, r, 2)?;
    let count = under(m, r, 1)?;
    let header = top(m, r)?;
    match method_shape(m, r, receiver, count, header) {
        Ok(shape) => {
            let answer = new_method(m, r, shape)?;
            succeed_leaving(m, r, 2, answer)
        }
        Err(_) => Ok(Tried::Failed),
    }
}
