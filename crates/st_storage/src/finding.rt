ghost use Rattle.std.specs.Prelude.{◌≡◌, ◌<◌, ◌≤◌, ◌+◌, ◌^◌, IfOk};
ghost use Rattle.st_model.specs.Values.{word};
ghost use Rattle.st_model.specs.inside.Calls.{itself};
ghost use Rattle.st_model.specs.Storage.{check_objects, exchange_and_answer, primitive_become, half_pointer, primitive_as_oop, kept_object_at, primitive_as_object, first_kept_instance, primitive_some_instance, instance_after, primitive_next_instance};
ghost use Rattle.st_frames.specs.inside.Answering.{succeed_by};
ghost use Rattle.st_frames.specs.inside.Rows.{RowReads, RowTries, Takes};

use crate::numbers::small_word;
use st_frames::{Registers, Tried, bits_or_die, succeed_with, top, under};
use st_memory::Objects;
use st_model::{Dead, Word};

/// Two objects, of which none is a SmallInteger.
#[tactic(auto, using(st_frames::proofs::Doing::rows), unfolding(st_model::specs::Storage::check_objects, st_model::specs::Storage::check_object))]
fn check_objects<O: Objects>(m: &O, r: &Registers, v: Word, w: Word) -> Result<(), Dead>
    ensures does { RowReads O.Objects.own (check_objects O.names (word v) (word w))
        itself m.now r.now result }
{
    m.fetch_kind(v)?;
    m.fetch_kind(w)?;
    Ok(())
}

/// Exchanges what two words name, and answers the first.
#[tactic(auto, using(st_frames::proofs::Doing::rows), unfolding(st_frames::specs::inside::Answering::succeed_by, st_model::specs::Storage::exchange_and_answer))]
fn exchange_and_answer<O: Objects>(
    m: &mut O,
    r: &mut Registers,
    v: Word,
    w: Word,
) -> Result<Tried, Dead>
    requires room { 2 ≤ O.room m.old }
    ensures does { RowTries O.Objects.own
        (succeed_by O.names 1 (exchange_and_answer O.names (word v) (word w)))
        m.old r.old result m.new r.new }
    ensures takes { Takes O.Objects.own 2 m.old m.new }
{
    m.exchange(v, w)?;
    succeed_with(m, r, 1, v)
}

/// Primitive 72: receiver and argument, which are objects, become each other.
#[tactic(auto, using(st_frames::proofs::Tries::effects), unfolding(st_model::specs::Storage::primitive_become))]
pub fn primitive_become<O: Objects>(m: &mut O, r: &mut Registers) -> Result<Tried, Dead>
    requires room { 2 ≤ O.room m.old }
    ensures does { RowTries O.Objects.own (primitive_become O.names) m.old r.old result m.new r.new }
    ensures takes { Takes O.Objects.own 2 m.old m.new }
{
    let receiver = under(m, r, 1)?;
    let argument = top(m, r)?;
    match check_objects(m, r, receiver, argument) {
        Ok(_objects) => exchange_and_answer(m, r, receiver, argument),
        Err(_) => Ok(Tried::Failed),
    }
}

/// Half of the pointer of an object.
#[tactic(auto, using(st_frames::proofs::Doing::rows), unfolding(st_model::specs::Storage::half_pointer, st_model::specs::Storage::check_object))]
fn half_pointer<O: Objects>(m: &O, r: &Registers, v: Word) -> Result<u32, Dead>
    ensures does { RowReads O.Objects.own (half_pointer O.names (word v)) itself m.now r.now result }
    ensures half { IfOk result (λ n. n < 2 ^ 31) }
{
    m.fetch_kind(v)?;
    Ok(m.half_word(v))
}

/// Primitive 75: the pointer of the receiver, with its lowest bit set.
#[tactic(auto, using(st_frames::proofs::Tries::tries), unfolding(st_model::specs::Storage::primitive_as_oop))]
pub fn primitive_as_oop<O: Objects>(m: &mut O, r: &mut Registers) -> Result<Tried, Dead>
    requires room { 1 ≤ O.room m.old }
    ensures does { RowTries O.Objects.own (primitive_as_oop O.names) m.old r.old result m.new r.new }
    ensures takes { Takes O.Objects.own 1 m.old m.new }
{
    let receiver = top(m, r)?;
    match half_pointer(m, r, receiver) {
        Ok(half) => succeed_with(m, r, 0, small_word(half)),
        Err(_) => Ok(Tried::Failed),
    }
}

/// The kept object whose pointer is the word of a SmallInteger less 1.
#[tactic(auto, using(st_frames::proofs::Doing::rows), unfolding(st_model::specs::Storage::kept_object_at, st_model::specs::Steps::or_die))]
fn kept_object_at<O: Objects>(m: &O, r: &Registers, v: Word) -> Result<Word, Dead>
    ensures does { RowReads O.Objects.own (kept_object_at O.names (word v)) word m.now r.now result }
{
    let n = bits_or_die(m, r, v)?;
    match m.object_at(n) {
        Some(object) => Ok(object),
        None => Err(Dead::Kind),
    }
}

/// Primitive 76: the kept object whose pointer is the receiver's word less 1.
#[tactic(auto, using(st_frames::proofs::Tries::tries), unfolding(st_model::specs::Storage::primitive_as_object))]
pub fn primitive_as_object<O: Objects>(m: &mut O, r: &mut Registers) -> Result<Tried, Dead>
    requires room { 1 ≤ O.room m.old }
    ensures does { RowTries O.Objects.own (primitive_as_object O.names) m.old r.old result m.new r.new }
    ensures takes { Takes O.Objects.own 1 m.old m.new }
{
    let receiver = top(m, r)?;
    match kept_object_at(m, r, receiver) {
        Ok(answer) => succeed_with(m, r, 0, answer),
        Err(_) => Ok(Tried::Failed),
    }
}

/// Of the kept instances of a class the one with the least pointer.
#[tactic(auto, using(st_frames::proofs::Doing::rows), unfolding(st_model::specs::Storage::first_kept_instance, st_model::specs::Steps::or_die))]
fn first_kept_instance<O: Objects>(m: &O, r: &Registers, class: Word) -> Result<Word, Dead>
    ensures does { RowReads O.Objects.own (first_kept_instance O.names (word class))
        word m.now r.now result }
{
    match m.next_instance(class, 0) {
        Some(instance) => Ok(instance),
        None => Err(Dead::Kind),
    }
}

/// Primitive 77: of the kept instances of the receiver the one with the least pointer.
#[tactic(auto, using(st_frames::proofs::Tries::tries), unfolding(st_model::specs::Storage::primitive_some_instance))]
pub fn primitive_some_instance<O: Objects>(m: &mut O, r: &mut Registers) -> Result<Tried, Dead>
    requires room { 1 ≤ O.room m.old }
    ensures does { RowTries O.Objects.own (primitive_some_instance O.names) m.old r.old result m.new r.new }
    ensures takes { Takes O.Objects.own 1 m.old m.new }
{
    let receiver = top(m, r)?;
    match first_kept_instance(m, r, receiver) {
        Ok(answer) => succeed_with(m, r, 0, answer),
        Err(_) => Ok(Tried::Failed),
    }
}

/// Of the kept instances of an object's class that bear greater pointers the one with the least.
#[tactic(auto, using(st_frames::proofs::Doing::rows), unfolding(st_model::specs::Storage::instance_after, st_model::specs::Steps::or_die))]
fn instance_after<O: Objects>(m: &O, r: &Registers, v: Word) -> Result<Word, Dead>
    ensures does { RowReads O.Objects.own (instance_after O.names (word v)) word m.now r.now result }
{
    let half = half_pointer(m, r, v)?;
    let class = m.fetch_class(v)?;
    match m.next_instance(class, half) {
        Some(instance) => Ok(instance),
        None => Err(Dead::Kind),
    }
}

/// Primitive 78: of the kept instances of the receiver's class that bear greater pointers the one with the least.
#[tactic(auto, using(st_frames::proofs::Tries::tries), unfolding(st_model::specs::Storage::primitive_next_instance))]
pub fn primitive_next_instance<O: Objects>(m: &mut O, r: &mut Registers) -> Result<Tried, Dead>
    requires room { 1 ≤ O.room m.old }
    ensures does { RowTries O.Objects.own (primitive_next_instance O.names) m.old r.old result m.new r.new }
    ensures takes { Takes O.Objects.own 1 m.old m.new }
{
    let receiver = top(m, r)?;
    match instance_after(m, r, receiver) {
        Ok(answer) => succeed_with(m, r, 0, answer),
        Err(_) => Ok(Tried::Failed),
    }
}
