ghost use Rattle.std.specs.Prelude.{◌≡◌, ◌<◌, IfOk, Ok};
ghost use Rattle.st_model.specs.Values.{word};
ghost use Rattle.st_model.specs.Formed.{unit_limit};
ghost use Rattle.st_model.specs.inside.Calls.{itself};
ghost use Rattle.st_model.specs.Storage.{word_of_value, unit_by, unit_of_element, storing_at, storing_by_index, storing_behind_fixed};
ghost use Rattle.st_frames.specs.inside.Answering.{IsOfKind};
ghost use Rattle.st_storage.specs.inside.Storing.{element_unit, storing_in, IsStoringOf, put_in, put_operands};
ghost use Rattle.st_model.specs.Steps.{top, under};
ghost use Rattle.st_frames.specs.inside.Rows.{RowReads};

use crate::elements::{place_at, place_behind_fixed};
use crate::numbers::byte_or_die;
use crate::shapes::{Element, Indexed, Put, Storing};
use st_frames::{Registers, positive_value, top, under};
use st_memory::Objects;
use st_model::{Dead, Kind, Word};

/// What a primitive is given that puts a value: the object, the index and the value.
#[inline(always)]
#[tactic(auto, using(st_frames::proofs::Doing::rows), unfolding(crate::specs::inside::Storing::put_operands))]
pub fn put_operands<O: Objects>(m: &O, r: &Registers) -> Result<Put, Dead>
    ensures does { RowReads O.Objects.own (put_operands O.names) put_in m.now r.now result }
    ensures object { IfOk result (λ p. RowReads O.Objects.own
        (under O.names 2) word m.now r.now (Ok p.indexed.object)) }
    ensures index { IfOk result (λ p. RowReads O.Objects.own
        (under O.names 1) word m.now r.now (Ok p.indexed.index)) }
    ensures value { IfOk result (λ p. RowReads O.Objects.own
        (top O.names) word m.now r.now (Ok p.value)) }
{
    let object = under(m, r, 2)?;
    let index = under(m, r, 1)?;
    let value = top(m, r)?;
    let indexed = Indexed { object, index };
    Ok(Put { indexed, value })
}

/// The word that a number from 0 to 65535 says.
#[tactic(auto, using(st_frames::proofs::Doing::checks), unfolding(st_model::specs::Storage::word_of_value))]
fn word_of_value<O: Objects>(m: &O, r: &Registers, x: Word) -> Result<u16, Dead>
    ensures does { RowReads O.Objects.own (word_of_value O.names (word x)) itself m.now r.now result }
{
    let n = positive_value(m, r, x)?;
    if n < 65536 {
        Ok(n as u16)
    } else {
        Err(Dead::Field)
    }
}

/// The word or byte that a value is as an element of an object of this kind.
#[tactic(auto, using(st_frames::proofs::Doing::rows), unfolding(st_model::specs::Storage::unit_by))]
fn unit_by<O: Objects>(m: &O, r: &Registers, x: Word, kind: Kind) -> Result<u16, Dead>
    ensures does { RowReads O.Objects.own (unit_by O.names (word x) kind) itself m.now r.now result }
    ensures fits { IfOk result (λ u. u < unit_limit kind) }
{
    match kind {
        Kind::Pointers => Ok(0),
        Kind::Words => word_of_value(m, r, x),
        Kind::Bytes | Kind::Method => {
            let byte = byte_or_die(m, r, x)?;
            Ok(u16::from(byte))
        }
    }
}

/// What a value is as an element of an object.
#[tactic(auto, using(st_frames::proofs::Doing::rows), unfolding(st_model::specs::Storage::unit_of_element))]
pub fn unit_of_element<O: Objects>(m: &O, r: &Registers, v: Word, x: Word) -> Result<Element, Dead>
    ensures does { RowReads O.Objects.own (unit_of_element O.names (word v) (word x))
        element_unit m.now r.now result }
    ensures kind { IfOk result (λ u. IsOfKind O.Objects.own m.now v u.kind) }
{
    let kind = m.fetch_kind(v)?;
    let unit = unit_by(m, r, x, kind)?;
    Ok(Element { kind, unit })
}

/// A value, to be stored as the element at a place.
#[tactic(auto, using(st_frames::proofs::Doing::rows), unfolding(st_model::specs::Storage::storing_at))]
fn storing_at<O: Objects>(m: &O, r: &Registers, put: Put, place: u32) -> Result<Storing, Dead>
    ensures does { RowReads O.Objects.own
        (storing_at O.names (word put.indexed.object) (word put.value) place)
        storing_in m.now r.now result }
    ensures of { IfOk result (IsStoringOf put) }
    ensures kind { IfOk result (λ s. IsOfKind O.Objects.own m.now s.object s.kind) }
{
    let object = put.indexed.object;
    let value = put.value;
    let Element { kind, unit } = unit_of_element(m, r, object, value)?;
    Ok(Storing {
        object,
        value,
        place,
        kind,
        unit,
    })
}

/// A value, to be stored at the place that an index names.
#[tactic(auto, using(st_frames::proofs::Doing::rows), unfolding(st_model::specs::Storage::storing_by_index))]
pub fn storing_by_index<O: Objects>(m: &O, r: &Registers, put: Put) -> Result<Storing, Dead>
    ensures does { RowReads O.Objects.own
        (storing_by_index O.names (word put.indexed.object) (word put.indexed.index) (word put.value))
        storing_in m.now r.now result }
    ensures of { IfOk result (IsStoringOf put) }
    ensures kind { IfOk result (λ s. IsOfKind O.Objects.own m.now s.object s.kind) }
{
    let place = place_at(m, r, put.indexed, 0)?;
    storing_at(m, r, put, place)
}

/// A value, to be stored at the place that an index names behind the fixed fields.
#[tactic(auto, using(st_frames::proofs::Doing::rows), unfolding(st_model::specs::Storage::storing_behind_fixed))]
pub fn storing_behind_fixed<O: Objects>(m: &O, r: &Registers, put: Put) -> Result<Storing, Dead>
    ensures does { RowReads O.Objects.own
        (storing_behind_fixed O.names (word put.indexed.object) (word put.indexed.index) (word put.value))
        storing_in m.now r.now result }
    ensures of { IfOk result (IsStoringOf put) }
    ensures kind { IfOk result (λ s. IsOfKind O.Objects.own m.now s.object s.kind) }
{
    let place = place_behind_fixed(m, r, put.indexed)?;
    storing_at(m, r, put, place)
}
