ghost use Rattle.std.specs.Prelude.{◌≡◌, ◌<◌, ◌≤◌, ◌+◌, ◌-◌, IfOk, Ok, true, false};
ghost use Rattle.st_model.specs.declared.kind.Kind.TheVariants.{Bytes};
ghost use Rattle.st_model.specs.Values.{Small, word};
ghost use Rattle.st_model.specs.inside.Calls.{itself};
ghost use Rattle.st_model.specs.Primitives.{truth};
ghost use Rattle.st_model.specs.Storage.{has_characters, is_at_end, primitive_at_end, stream_place, position_below, stream_standing, stream_element, take_next, primitive_next, stream_unit, stream_putting, put_next, primitive_next_put};
ghost use Rattle.st_model.specs.Steps.{store_field};
ghost use Rattle.st_model.specs.Deeds.{copies_pixels};
ghost use Rattle.st_frames.specs.inside.Answering.{IsOfKind, succeed_by, answer_word, answer_deed};
ghost use Rattle.st_storage.specs.inside.Storing.{element_unit, are_characters, standing_in, StandsIn, putting_in};
ghost use Rattle.st_frames.specs.inside.Rows.{RowReads, RowDoes, RowLeaves, RowTries, Takes};

use crate::elements::place_of_element;
use crate::fetching::fetch_element;
use crate::numbers::fixed_fields;
use crate::putting::store_element;
use crate::shapes::{Element, Elements, Putting, Standing, Storing};
use crate::storing::unit_of_element;
use crate::strings::{character_byte, fetch_character};
use st_frames::{
    Answer, Registers, Tried, check_bytes, fetch_integer, page, small, succeed_leaving,
    succeed_with, top, under,
};
use st_memory::Objects;
use st_model::{Dead, Deed, Kind, PageObject, Word};

/// What the elements of a collection are.
#[tactic(auto, using(st_frames::proofs::Doing::rows), unfolding(st_model::specs::Storage::has_characters, st_model::specs::Storage::characters_or_not))]
fn has_characters<O: Objects>(m: &O, r: &Registers, v: Word) -> Result<Elements, Dead>
    ensures does { RowReads O.Objects.own (has_characters O.names (word v))
        are_characters m.now r.now result }
{
    let class = m.fetch_class(v)?;
    let array = page(m, PageObject::ArrayClass);
    let string = page(m, PageObject::StringClass);
    if class.same(array) {
        Ok(Elements::Objects)
    } else if class.same(string) {
        Ok(Elements::Characters)
    } else {
        Err(Dead::Kind)
    }
}

/// Whether a stream is at its limit, or at the end of its collection.
#[tactic(auto, using(st_frames::proofs::Doing::rows), unfolding(st_model::specs::Storage::is_at_end))]
fn is_at_end<O: Objects>(m: &O, r: &Registers, stream: Word) -> Result<bool, Dead>
    ensures does { RowReads O.Objects.own (is_at_end O.names (word stream)) itself m.now r.now result }
{
    let collection = m.fetch_field(stream, 0)?;
    has_characters(m, r, collection)?;
    let position = fetch_integer(m, stream, 1)?;
    let limit = fetch_integer(m, stream, 2)?;
    let size = m.fetch_size(collection)?;
    Ok(limit <= position || size as i32 <= position)
}

/// True or false of the page.
#[tactic(auto, using(st_frames::proofs::Doing::rows, st_frames::proofs::Doing::pages), unfolding(st_model::specs::Primitives::truth))]
fn truth<O: Objects>(m: &O, r: &Registers, holds: bool) -> Word
    ensures does { RowReads O.Objects.own (truth O.names holds) word m.now r.now (Ok result) }
{
    if holds {
        page(m, PageObject::TrueObject)
    } else {
        page(m, PageObject::FalseObject)
    }
}

/// Primitive 67: whether the receiver, a stream, is at its end.
#[tactic(auto, using(st_frames::proofs::Tries::tries), unfolding(st_model::specs::Storage::primitive_at_end))]
pub fn primitive_at_end<O: Objects>(m: &mut O, r: &mut Registers) -> Result<Tried, Dead>
    requires room { 1 ≤ O.room m.old }
    ensures does { RowTries O.Objects.own (primitive_at_end O.names) m.old r.old result m.new r.new }
    ensures takes { Takes O.Objects.own 1 m.old m.new }
{
    let receiver = top(m, r)?;
    match is_at_end(m, r, receiver) {
        Ok(holds) => {
            let answer = truth(m, r, holds);
            succeed_with(m, r, 0, answer)
        }
        Err(_) => Ok(Tried::Failed),
    }
}

/// The place of element number i of a stream's collection: of an Array behind its fixed fields, and of a String where the table has
/// its Character.
#[tactic(auto, using(st_frames::proofs::Doing::rows), unfolding(st_model::specs::Storage::stream_place, st_model::specs::Storage::place_of_object, st_model::specs::Storage::place_of_character))]
fn stream_place<O: Objects>(
    m: &O,
    r: &Registers,
    v: Word,
    i: u32,
    elements: Elements,
) -> Result<u32, Dead>
    requires { i ≤ 16384 }
    ensures does { RowReads O.Objects.own
        (stream_place O.names (word v) i (are_characters elements)) itself m.now r.now result }
    ensures bytes { IfOk result (λ p. are_characters elements ≡ true →
        IsOfKind O.Objects.own m.now v Bytes) }
{
    match elements {
        Elements::Objects => {
            let fixed = fixed_fields(m, r, v)?;
            place_of_element(m, r, v, fixed, i)
        }
        Elements::Characters => {
            check_bytes(m, r, v)?;
            let place = place_of_element(m, r, v, 0, i)?;
            fetch_character(m, r, v, place)?;
            Ok(place)
        }
    }
}

/// The position of a stream, which is at least 0 and below the limit in field i.
#[tactic(auto, using(st_frames::proofs::Doing::rows, crate::proofs::Valued::positions), unfolding(st_model::specs::Storage::position_below))]
fn position_below<O: Objects>(m: &O, r: &Registers, stream: Word, i: u32) -> Result<u32, Dead>
    ensures does { RowReads O.Objects.own (position_below O.names (word stream) i)
        itself m.now r.now result }
    ensures low { IfOk result (λ n. n < 16383) }
{
    let position = fetch_integer(m, stream, 1)?;
    let limit = fetch_integer(m, stream, i)?;
    if limit <= position {
        return Err(Dead::Field);
    }
    if position < 0 {
        return Err(Dead::Field);
    }
    Ok(position as u32)
}

/// Where a stream stands, with its limit in field i.
#[tactic(auto, using(st_frames::proofs::Doing::rows), unfolding(st_model::specs::Storage::stream_standing, st_model::specs::Storage::standing_at))]
fn stream_standing<O: Objects>(m: &O, r: &Registers, stream: Word, i: u32) -> Result<Standing, Dead>
    ensures does { RowReads O.Objects.own (stream_standing O.names (word stream) i)
        standing_in m.now r.now result }
    ensures of { IfOk result (λ s. s.stream ≡ stream) }
    ensures stands { IfOk result (StandsIn O.Objects.own m.now) }
{
    let collection = m.fetch_field(stream, 0)?;
    let elements = has_characters(m, r, collection)?;
    let position = position_below(m, r, stream, i)?;
    let place = stream_place(m, r, collection, position + 1, elements)?;
    Ok(Standing {
        stream,
        collection,
        position,
        place,
        elements,
    })
}

/// The element of a stream's collection at a place.
#[tactic(auto, using(st_frames::proofs::Doing::rows), unfolding(st_model::specs::Storage::stream_element))]
fn stream_element<O: Objects>(m: &mut O, r: &Registers, s: Standing) -> Result<Answer, Dead>
    requires room { 1 ≤ O.room m.old }
    ensures does { RowLeaves O.Objects.own
        (stream_element O.names (word s.collection) s.place (are_characters s.elements))
        answer_word answer_deed m.old r.now result m.new r.now }
    ensures takes { Takes O.Objects.own 1 m.old m.new }
    ensures plain { IfOk result (λ a. copies_pixels a.deed ≡ false) }
{
    match s.elements {
        Elements::Objects => fetch_element(m, r, s.collection, s.place),
        Elements::Characters => {
            let word = fetch_character(m, r, s.collection, s.place)?;
            Ok(Answer {
                word,
                deed: Deed::Nothing,
            })
        }
    }
}

/// Stores the position of a stream that passes one element more.
#[tactic(auto, using(st_frames::proofs::Doing::rows))]
fn store_position<O: Objects>(m: &mut O, r: &Registers, s: Standing) -> Result<(), Dead>
    requires room { 1 ≤ O.room m.old }
    ensures does { RowDoes O.Objects.own
        (store_field O.names (word s.stream) 1 (Small (s.position + 1)))
        itself m.old r.now result m.new r.now }
    ensures takes { Takes O.Objects.own 1 m.old m.new }
{
    m.store_field(s.stream, 1, small(s.position + 1))
}

/// The next element of a stream, whose position rises by 1.
#[tactic(auto, using(st_frames::proofs::Doing::rows), unfolding(st_model::specs::Storage::take_next))]
fn take_next<O: Objects>(m: &mut O, r: &Registers, s: Standing) -> Result<Answer, Dead>
    requires stands { StandsIn O.Objects.own m.old s }
    requires room { 2 ≤ O.room m.old }
    ensures does { RowLeaves O.Objects.own (take_next O.names (word s.stream) (standing_in s))
        answer_word answer_deed m.old r.now result m.new r.now }
    ensures takes { Takes O.Objects.own 2 m.old m.new }
    ensures plain { IfOk result (λ a. copies_pixels a.deed ≡ false) }
{
    let answer = stream_element(m, r, s)?;
    store_position(m, r, s)?;
    Ok(answer)
}

/// Primitive 65: the next element of the receiver, a stream, whose position rises by 1.
#[tactic(auto, using(st_frames::proofs::Tries::effects), unfolding(st_model::specs::Storage::primitive_next))]
pub fn primitive_next<O: Objects>(m: &mut O, r: &mut Registers) -> Result<Tried, Dead>
    requires room { 3 ≤ O.room m.old }
    ensures does { RowTries O.Objects.own (primitive_next O.names) m.old r.old result m.new r.new }
    ensures takes { Takes O.Objects.own 3 m.old m.new }
{
    let receiver = top(m, r)?;
    match stream_standing(m, r, receiver, 2) {
        Ok(standing) => {
            let answer = take_next(m, r, standing)?;
            succeed_leaving(m, r, 0, answer)
        }
        Err(_) => Ok(Tried::Failed),
    }
}

/// What a value is as an element of a stream's collection.
#[tactic(auto, using(st_frames::proofs::Doing::rows), unfolding(st_model::specs::Storage::stream_unit))]
fn stream_unit<O: Objects>(
    m: &O,
    r: &Registers,
    v: Word,
    x: Word,
    elements: Elements,
) -> Result<Element, Dead>
    requires bytes { are_characters elements ≡ true → IsOfKind O.Objects.own m.now v Bytes }
    ensures does { RowReads O.Objects.own
        (stream_unit O.names (word v) (word x) (are_characters elements))
        element_unit m.now r.now result }
    ensures kind { IfOk result (λ e. IsOfKind O.Objects.own m.now v e.kind) }
{
    match elements {
        Elements::Objects => unit_of_element(m, r, v, x),
        Elements::Characters => {
            let byte = character_byte(m, r, x)?;
            let unit = u16::from(byte);
            Ok(Element {
                kind: Kind::Bytes,
                unit,
            })
        }
    }
}

/// A value, to be stored as the next element of a stream.
#[tactic(auto, using(st_frames::proofs::Doing::rows), unfolding(st_model::specs::Storage::stream_putting, st_model::specs::Storage::putting_at))]
fn stream_putting<O: Objects>(m: &O, r: &Registers, stream: Word, x: Word) -> Result<Putting, Dead>
    ensures does { RowReads O.Objects.own (stream_putting O.names (word stream) (word x))
        putting_in m.now r.now result }
    ensures of { IfOk result (λ p. p.standing.stream ≡ stream) }
    ensures value { IfOk result (λ p. p.value ≡ x) }
    ensures stands { IfOk result (λ p. StandsIn O.Objects.own m.now p.standing) }
    ensures kind { IfOk result (λ p. IsOfKind O.Objects.own m.now p.standing.collection p.kind) }
{
    let standing = stream_standing(m, r, stream, 3)?;
    let element = stream_unit(m, r, standing.collection, x, standing.elements)?;
    Ok(Putting {
        standing,
        value: x,
        kind: element.kind,
        unit: element.unit,
    })
}

/// Stores the next element of a stream, whose position rises by 1 from what it was.
#[tactic(auto, using(st_frames::proofs::Doing::rows), unfolding(st_model::specs::Storage::put_next))]
fn put_next<O: Objects>(m: &mut O, r: &Registers, p: Putting) -> Result<Answer, Dead>
    requires stands { StandsIn O.Objects.own m.old p.standing }
    requires kind { IsOfKind O.Objects.own m.old p.standing.collection p.kind }
    requires room { 2 ≤ O.room m.old }
    ensures does { RowLeaves O.Objects.own
        (put_next O.names (word p.standing.stream) (word p.value) (putting_in p))
        answer_word answer_deed m.old r.now result m.new r.now }
    ensures takes { Takes O.Objects.own 2 m.old m.new }
    ensures plain { IfOk result (λ a. copies_pixels a.deed ≡ false) }
{
    let storing = Storing {
        object: p.standing.collection,
        value: p.value,
        place: p.standing.place,
        kind: p.kind,
        unit: p.unit,
    };
    let deed = store_element(m, r, storing)?;
    store_position(m, r, p.standing)?;
    Ok(Answer {
        word: p.value,
        deed,
    })
}

/// Stores the next element of a stream, and answers it.
#[tactic(auto, using(st_frames::proofs::Doing::rows), unfolding(st_frames::specs::inside::Answering::succeed_by))]
fn answer_put<O: Objects>(m: &mut O, r: &mut Registers, p: Putting) -> Result<Tried, Dead>
    requires stands { StandsIn O.Objects.own m.old p.standing }
    requires kind { IsOfKind O.Objects.own m.old p.standing.collection p.kind }
    requires room { 3 ≤ O.room m.old }
    ensures does { RowTries O.Objects.own
        (succeed_by O.names 1 (put_next O.names (word p.standing.stream) (word p.value) (putting_in p)))
        m.old r.old result m.new r.new }
    ensures takes { Takes O.Objects.own 3 m.old m.new }
{
    let answer = put_next(m, r, p)?;
    succeed_leaving(m, r, 1, answer)
}

/// Primitive 66: the argument becomes the next element of the receiver, a stream, whose position rises by 1.
#[tactic(auto, using(st_frames::proofs::Tries::effects), unfolding(st_model::specs::Storage::primitive_next_put))]
pub fn primitive_next_put<O: Objects>(m: &mut O, r: &mut Registers) -> Result<Tried, Dead>
    requires room { 3 ≤ O.room m.old }
    ensures does { RowTries O.Objects.own (primitive_next_put O.names) m.old r.old result m.new r.new }
    ensures takes { Takes O.Objects.own 3 m.old m.new }
{
    let receiver = under(m, r, 1)?;
    let argument = top(m, r)?;
    match stream_putting(m, r, receiver, argument) {
        Ok(putting) => answer_put(m, r, putting),
        Err(_) => Ok(Tried::Failed),
    }
}
