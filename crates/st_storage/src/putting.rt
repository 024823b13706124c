ghost use Rattle.std.specs.Prelude.{◌≡◌, ◌<◌, ◌≤◌, ◌+◌, false, IfOk};
ghost use Rattle.st_model.specs.Values.{word};
ghost use Rattle.st_model.specs.Storage.{store_element, store_and_answer, primitive_at_put, primitive_string_at_put, primitive_instance_variable_at_put};
ghost use Rattle.st_model.specs.Steps.{store_word, store_byte};
ghost use Rattle.st_model.specs.inside.Calls.{itself};
ghost use Rattle.st_model.specs.Deeds.{copies_pixels};
ghost use Rattle.st_frames.specs.inside.Answering.{IsOfKind, succeed_by, answer_word, answer_deed, no_word};
ghost use Rattle.st_storage.specs.inside.Storing.{storing_in};
ghost use Rattle.st_frames.specs.inside.Rows.{RowLeaves, RowTries, Takes};

use crate::shapes::Storing;
use crate::storing::{put_operands, storing_behind_fixed, storing_by_index};
use crate::strings::storing_character;
use st_frames::{Answer, Registers, Tried, succeed_leaving};
use st_memory::Objects;
use st_model::{Dead, Deed, Kind, Word};

/// A word of an object is left to be stored.
fn store_word<O: Objects>(
    m: &O,
    r: &Registers,
    v: Word,
    place: u32,
    unit: u16,
) -> Result<Deed, Dead>
    ensures does { RowLeaves O.Objects.own (store_word O.names (word v) place unit)
        no_word itself m.now r.now result m.now r.now }
    ensures plain { IfOk result (λ d. copies_pixels d ≡ false) }
{
    m.fetch_word(v, place)?;
    Ok(Deed::StoreWord {
        object: v,
        place,
        word: unit,
    })
}

/// A byte of an object is left to be stored.
fn store_byte<O: Objects>(m: &O, r: &Registers, v: Word, place: u32, byte: u8) -> Result<Deed, Dead>
    ensures does { RowLeaves O.Objects.own (store_byte O.names (word v) place byte)
        no_word itself m.now r.now result m.now r.now }
    ensures plain { IfOk result (λ d. copies_pixels d ≡ false) }
{
    m.fetch_byte(v, place)?;
    Ok(Deed::StoreByte {
        object: v,
        place,
        byte,
    })
}

/// Stores a value as an element, or leaves its word or byte to be stored.
#[tactic(auto, using(st_frames::proofs::Doing::rows), unfolding(st_model::specs::Storage::store_element, st_model::specs::Storage::store_by))]
pub fn store_element<O: Objects>(m: &mut O, r: &Registers, s: Storing) -> Result<Deed, Dead>
    requires kind { IsOfKind O.Objects.own m.old s.object s.kind }
    requires room { 1 ≤ O.room m.old }
    ensures does { RowLeaves O.Objects.own
        (store_element O.names (word s.object) s.place (word s.value) s.unit)
        no_word itself m.old r.now result m.new r.now }
    ensures takes { Takes O.Objects.own 1 m.old m.new }
    ensures plain { IfOk result (λ d. copies_pixels d ≡ false) }
{
    match s.kind {
        Kind::Pointers => {
            m.store_field(s.object, s.place, s.value)?;
            Ok(Deed::Nothing)
        }
        Kind::Words => store_word(m, r, s.object, s.place, s.unit),
        Kind::Bytes | Kind::Method => store_byte(m, r, s.object, s.place, s.unit as u8),
    }
}

/// Stores a value as an element, and answers it.
#[tactic(auto, using(st_frames::proofs::Doing::rows), unfolding(st_model::specs::Storage::store_and_answer))]
fn store_and_answer<O: Objects>(m: &mut O, r: &Registers, s: Storing) -> Result<Answer, Dead>
    requires kind { IsOfKind O.Objects.own m.old s.object s.kind }
    requires room { 1 ≤ O.room m.old }
    ensures does { RowLeaves O.Objects.own
        (store_and_answer O.names (word s.object) (word s.value) (storing_in s))
        answer_word answer_deed m.old r.now result m.new r.now }
    ensures takes { Takes O.Objects.own 1 m.old m.new }
    ensures plain { IfOk result (λ a. copies_pixels a.deed ≡ false) }
{
    let word = s.value;
    let deed = store_element(m, r, s)?;
    Ok(Answer { word, deed })
}

/// Stores a value as an element, and answers it to a primitive of two arguments.
#[tactic(auto, using(st_frames::proofs::Doing::rows), unfolding(st_frames::specs::inside::Answering::succeed_by))]
fn answer_stored<O: Objects>(m: &mut O, r: &mut Registers, s: Storing) -> Result<Tried, Dead>
    requires kind { IsOfKind O.Objects.own m.old s.object s.kind }
    requires room { 2 ≤ O.room m.old }
    ensures does { RowTries O.Objects.own
        (succeed_by O.names 2 (store_and_answer O.names (word s.object) (word s.value) (storing_in s)))
        m.old r.old result m.new r.new }
    ensures takes { Takes O.Objects.own 2 m.old m.new }
{
    let answer = store_and_answer(m, r, s)?;
    succeed_leaving(m, r, 2, answer)
}

/// Primitive 61: the second argument becomes the element of the receiver that the first one numbers, behind the fixed fields. Where
/// it fails nothing is changed.
#[tactic(auto, using(st_frames::proofs::Tries::effects), unfolding(st_model::specs::Storage::primitive_at_put))]
pub fn primitive_at_put<O: Objects>(m: &mut O, r: &mut Registers) -> Result<Tried, Dead>
    requires room { 2 ≤ O.room m.old }
    ensures does { RowTries O.Objects.own (primitive_at_put O.names) m.old r.old result m.new r.new }
    ensures takes { Takes O.Objects.own 2 m.old m.new }
{
    let put = put_operands(m, r)?;
    match storing_behind_fixed(m, r, put) {
        Ok(storing) => answer_stored(m, r, storing),
        Err(_) => Ok(Tried::Failed),
    }
}

/// Primitive 74: the second argument becomes the element of the receiver that the first one numbers, where fixed fields count.
#[tactic(auto, using(st_frames::proofs::Tries::effects), unfolding(st_model::specs::Storage::primitive_instance_variable_at_put))]
pub fn primitive_instance_variable_at_put<O: Objects>(
    m: &mut O,
    r: &mut Registers,
) -> Result<Tried, Dead>
    requires room { 2 ≤ O.room m.old }
    ensures does { RowTries O.Objects.own (primitive_instance_variable_at_put O.names)
        m.old r.old result m.new r.new }
    ensures takes { Takes O.Objects.own 2 m.old m.new }
{
    let put = put_operands(m, r)?;
    match storing_by_index(m, r, put) {
        Ok(storing) => answer_stored(m, r, storing),
        Err(_) => Ok(Tried::Failed),
    }
}

/// Primitive 64: the second argument, a Character, becomes that of the receiver that the first one numbers.
#[tactic(auto, using(st_frames::proofs::Tries::effects), unfolding(st_model::specs::Storage::primitive_string_at_put))]
pub fn primitive_string_at_put<O: Objects>(m: &mut O, r: &mut Registers) -> Result<Tried, Dead>
    requires room { 2 ≤ O.room m.old }
    ensures does { RowTries O.Objects.own (primitive_string_at_put O.names) m.old r.old result m.new r.new }
    ensures takes { Takes O.Objects.own 2 m.old m.new }
{
    let put = put_operands(m, r)?;
    match storing_character(m, r, put) {
        Ok(storing) => answer_stored(m, r, storing),
        Err(_) => Ok(Tried::Failed),
    }
}
