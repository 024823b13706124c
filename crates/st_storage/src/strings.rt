ghost use Rattle.std.specs.Prelude.{◌≡◌, ◌<◌, ◌≤◌, ◌+◌, IfOk};
ghost use Rattle.st_model.specs.declared.kind.Kind.TheVariants.{Bytes};
ghost use Rattle.st_model.specs.Values.{word};
ghost use Rattle.st_model.specs.inside.Calls.{itself};
ghost use Rattle.st_model.specs.Storage.{fetch_character, place_in_bytes, character_at, primitive_string_at, character_byte, storing_character};
ghost use Rattle.st_frames.specs.inside.Answering.{IsOfKind};
ghost use Rattle.st_storage.specs.inside.Storing.{storing_in, IsStoringOf};
ghost use Rattle.st_frames.specs.inside.Rows.{RowReads, RowTries, Takes};

use crate::elements::place_at;
use crate::numbers::byte_or_die;
use crate::shapes::{Indexed, Put, Storing};
use st_frames::{Registers, Tried, check_bytes, check_class, page, succeed_with, top, under};
use st_memory::Objects;
use st_model::{Dead, Kind, PageObject, Word};

/// The Character of a byte.
#[tactic(auto, using(st_frames::proofs::Doing::rows), unfolding(st_model::specs::Storage::fetch_character))]
pub fn fetch_character<O: Objects>(m: &O, r: &Registers, v: Word, i: u32) -> Result<Word, Dead>
    ensures does { RowReads O.Objects.own (fetch_character O.names (word v) i) word m.now r.now result }
{
    let byte = m.fetch_byte(v, i)?;
    let characters = page(m, PageObject::Characters);
    m.fetch_field(characters, u32::from(byte))
}

/// The place that an index names in an object of kind Bytes.
#[tactic(auto, using(st_frames::proofs::Doing::rows), unfolding(st_model::specs::Storage::place_in_bytes))]
fn place_in_bytes<O: Objects>(m: &O, r: &Registers, x: Indexed) -> Result<u32, Dead>
    ensures does { RowReads O.Objects.own (place_in_bytes O.names (word x.object) (word x.index))
        itself m.now r.now result }
    ensures bytes { IfOk result (λ i. IsOfKind O.Objects.own m.now x.object Bytes) }
{
    check_bytes(m, r, x.object)?;
    place_at(m, r, x, 0)
}

/// The Character that an index names.
#[tactic(auto, using(st_frames::proofs::Doing::rows), unfolding(st_model::specs::Storage::character_at))]
fn character_at<O: Objects>(m: &O, r: &Registers, x: Indexed) -> Result<Word, Dead>
    ensures does { RowReads O.Objects.own (character_at O.names (word x.object) (word x.index))
        word m.now r.now result }
{
    let place = place_in_bytes(m, r, x)?;
    fetch_character(m, r, x.object, place)
}

/// Primitive 63: the Character that the argument numbers in the receiver.
#[tactic(auto, using(st_frames::proofs::Tries::tries), unfolding(st_model::specs::Storage::primitive_string_at))]
pub fn primitive_string_at<O: Objects>(m: &mut O, r: &mut Registers) -> Result<Tried, Dead>
    requires room { 1 ≤ O.room m.old }
    ensures does { RowTries O.Objects.own (primitive_string_at O.names) m.old r.old result m.new r.new }
    ensures takes { Takes O.Objects.own 1 m.old m.new }
{
    let object = under(m, r, 1)?;
    let index = top(m, r)?;
    match character_at(m, r, Indexed { object, index }) {
        Ok(answer) => succeed_with(m, r, 1, answer),
        Err(_) => Ok(Tried::Failed),
    }
}

/// The byte of a Character.
#[tactic(auto, using(st_frames::proofs::Doing::rows), unfolding(st_model::specs::Storage::character_byte))]
pub fn character_byte<O: Objects>(m: &O, r: &Registers, x: Word) -> Result<u8, Dead>
    ensures does { RowReads O.Objects.own (character_byte O.names (word x)) itself m.now r.now result }
{
    check_class(m, r, x, PageObject::CharacterClass)?;
    let code = m.fetch_field(x, 0)?;
    byte_or_die(m, r, code)
}

/// A Character, to be stored at the place that an index names in an object of kind Bytes.
#[tactic(auto, using(st_frames::proofs::Doing::rows), unfolding(st_model::specs::Storage::storing_character, st_model::specs::Storage::character_storing_at))]
pub fn storing_character<O: Objects>(m: &O, r: &Registers, put: Put) -> Result<Storing, Dead>
    ensures does { RowReads O.Objects.own
        (storing_character O.names (word put.indexed.object) (word put.indexed.index) (word put.value))
        storing_in m.now r.now result }
    ensures of { IfOk result (IsStoringOf put) }
    ensures kind { IfOk result (λ s. IsOfKind O.Objects.own m.now s.object s.kind) }
{
    let place = place_in_bytes(m, r, put.indexed)?;
    let byte = character_byte(m, r, put.value)?;
    let unit = u16::from(byte);
    Ok(Storing {
        object: put.indexed.object,
        value: put.value,
        place,
        kind: Kind::Bytes,
        unit,
    })
}
