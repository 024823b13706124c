ghost use Rattle.std.specs.Prelude.{◌≡◌, ◌<◌, ◌≤◌, ◌+◌, false, IfOk};
ghost use Rattle.st_model.specs.Values.{word};
ghost use Rattle.st_model.specs.Storage.{fetch_element, primitive_at, primitive_size, primitive_instance_variable_at};
ghost use Rattle.st_model.specs.Deeds.{copies_pixels};
ghost use Rattle.st_frames.specs.inside.Answering.{succeed_by, answer_word, answer_deed};
ghost use Rattle.st_frames.specs.inside.Rows.{RowLeaves, RowTries, Takes};

use crate::elements::{count_elements, place_at, place_behind_fixed};
use crate::large::answer_integer;
use crate::shapes::Indexed;
use st_frames::{Answer, Registers, Tried, number, small, succeed_leaving, top, under};
use st_memory::Objects;
use st_model::{Dead, Deed, Kind, Word};

/// The element at a place: a field, or the number of a word or byte.
#[tactic(auto, using(st_frames::proofs::Doing::rows), unfolding(st_model::specs::Storage::fetch_element, st_model::specs::Storage::element_by, st_model::specs::Storage::word_number, st_model::specs::Storage::byte_number))]
pub fn fetch_element<O: Objects>(
    m: &mut O,
    r: &Registers,
    object: Word,
    place: u32,
) -> Result<Answer, Dead>
    requires room { 1 ≤ O.room m.old }
    ensures does { RowLeaves O.Objects.own (fetch_element O.names (word object) place)
        answer_word answer_deed m.old r.now result m.new r.now }
    ensures takes { Takes O.Objects.own 1 m.old m.new }
    ensures plain { IfOk result (λ a. copies_pixels a.deed ≡ false) }
{
    let deed = Deed::Nothing;
    match m.fetch_kind(object)? {
        Kind::Pointers => {
            let word = m.fetch_field(object, place)?;
            Ok(Answer { word, deed })
        }
        Kind::Words => {
            let found = m.fetch_word(object, place)?;
            number(m, r, u128::from(found))
        }
        Kind::Bytes | Kind::Method => {
            let byte = m.fetch_byte(object, place)?;
            let word = small(u32::from(byte));
            Ok(Answer { word, deed })
        }
    }
}

/// Answers the element at a place.
#[tactic(auto, using(st_frames::proofs::Doing::rows), unfolding(st_frames::specs::inside::Answering::succeed_by))]
fn answer_element<O: Objects>(
    m: &mut O,
    r: &mut Registers,
    object: Word,
    place: u32,
) -> Result<Tried, Dead>
    requires room { 2 ≤ O.room m.old }
    ensures does { RowTries O.Objects.own
        (succeed_by O.names 1 (fetch_element O.names (word object) place)) m.old r.old result m.new r.new }
    ensures takes { Takes O.Objects.own 2 m.old m.new }
{
    let answer = fetch_element(m, r, object, place)?;
    succeed_leaving(m, r, 1, answer)
}

/// Primitive 60: the element of the receiver that the argument numbers, behind the fixed fields. Where it fails nothing is changed.
#[tactic(auto, using(st_frames::proofs::Tries::effects), unfolding(st_model::specs::Storage::primitive_at))]
pub fn primitive_at<O: Objects>(m: &mut O, r: &mut Registers) -> Result<Tried, Dead>
    requires room { 2 ≤ O.room m.old }
    ensures does { RowTries O.Objects.own (primitive_at O.names) m.old r.old result m.new r.new }
    ensures takes { Takes O.Objects.own 2 m.old m.new }
{
    let object = under(m, r, 1)?;
    let index = top(m, r)?;
    match place_behind_fixed(m, r, Indexed { object, index }) {
        Ok(place) => answer_element(m, r, object, place),
        Err(_) => Ok(Tried::Failed),
    }
}

/// Primitive 73: the element of the receiver that the argument numbers, where fixed fields count.
#[tactic(auto, using(st_frames::proofs::Tries::effects), unfolding(st_model::specs::Storage::primitive_instance_variable_at))]
pub fn primitive_instance_variable_at<O: Objects>(
    m: &mut O,
    r: &mut Registers,
) -> Result<Tried, Dead>
    requires room { 2 ≤ O.room m.old }
    ensures does { RowTries O.Objects.own (primitive_instance_variable_at O.names)
        m.old r.old result m.new r.new }
    ensures takes { Takes O.Objects.own 2 m.old m.new }
{
    let object = under(m, r, 1)?;
    let index = top(m, r)?;
    match place_at(m, r, Indexed { object, index }, 0) {
        Ok(place) => answer_element(m, r, object, place),
        Err(_) => Ok(Tried::Failed),
    }
}

/// Primitive 62: how many elements the receiver has.
#[tactic(auto, using(st_frames::proofs::Tries::effects), unfolding(st_model::specs::Storage::primitive_size))]
pub fn primitive_size<O: Objects>(m: &mut O, r: &mut Registers) -> Result<Tried, Dead>
    requires room { 2 ≤ O.room m.old }
    ensures does { RowTries O.Objects.own (primitive_size O.names) m.old r.old result m.new r.new }
    ensures takes { Takes O.Objects.own 2 m.old m.new }
{
    let receiver = top(m, r)?;
    match count_elements(m, r, receiver) {
        Ok(n) => answer_integer(m, r, n),
        Err(_) => Ok(Tried::Failed),
    }
}
