ghost use Rattle.std.specs.Prelude.{◌≡◌, ◌≤◌, ◌+◌, false, IfOk};
ghost use Rattle.st_model.specs.Values.{word};
ghost use Rattle.st_model.specs.Input.{check_four_bytes, store_time, store_seconds, primitive_second_clock, store_milliseconds, primitive_millisecond_clock};
ghost use Rattle.st_model.specs.inside.Calls.{itself};
ghost use Rattle.st_model.specs.Deeds.{copies_pixels};
ghost use Rattle.st_frames.specs.inside.Answering.{succeed_by, answer_word, answer_deed};
ghost use Rattle.st_frames.specs.inside.Rows.{RowReads, RowLeaves, RowTries, Takes};

use st_frames::{Answer, Registers, Tried, check_bytes, find_bytes, succeed_leaving, top, under};
use st_memory::Objects;
use st_model::{Dead, Deed, Word};

/// An object of kind Bytes with four bytes or more.
#[tactic(auto, using(st_frames::proofs::Doing::checks), unfolding(st_model::specs::Input::check_four_bytes))]
pub fn check_four_bytes<O: Objects>(m: &O, r: &Registers, v: Word) -> Result<(), Dead>
    ensures does { RowReads O.Objects.own (check_four_bytes O.names (word v)) itself m.now r.now result }
{
    check_bytes(m, r, v)?;
    let n = m.fetch_size(v)?;
    if n < 4 {
        return Err(Dead::Field);
    }
    Ok(())
}

/// A time is to be stored in the first four bytes of an object, which is left to be done; the receiver is the answer.
#[tactic(auto, using(st_frames::proofs::Doing::rows), unfolding(st_model::specs::Input::store_time))]
fn store_time<O: Objects>(
    m: &O,
    r: &Registers,
    object: Word,
    time: u32,
    receiver: Word,
) -> Result<Answer, Dead>
    ensures does { RowLeaves O.Objects.own (store_time O.names (word object) time (word receiver))
        answer_word answer_deed m.now r.now result m.now r.now }
    ensures plain { IfOk result (λ a. copies_pixels a.deed ≡ false) }
{
    find_bytes(m, r, object, 0, 4)?;
    Ok(Answer {
        word: receiver,
        deed: Deed::StoreTime { object, time },
    })
}

/// Stores the second clock, and answers the receiver.
#[tactic(auto, using(st_frames::proofs::Doing::rows, crate::proofs::Worlds::worlds), unfolding(st_frames::specs::inside::Answering::succeed_by, st_model::specs::Input::store_seconds))]
fn answer_seconds<O: Objects>(
    m: &mut O,
    r: &mut Registers,
    object: Word,
    receiver: Word,
) -> Result<Tried, Dead>
    requires room { 1 ≤ O.room m.old }
    ensures does { RowTries O.Objects.own
        (succeed_by O.names 1 (store_seconds O.names (word object) (word receiver)))
        m.old r.old result m.new r.new }
    ensures takes { Takes O.Objects.own 1 m.old m.new }
{
    let answer = store_time(m, r, object, r.world.second_clock(), receiver)?;
    succeed_leaving(m, r, 1, answer)
}

/// Primitive 98: the first four bytes of the argument become the second clock.
#[tactic(auto, using(st_frames::proofs::Tries::effects), unfolding(st_model::specs::Input::primitive_second_clock))]
pub fn primitive_second_clock<O: Objects>(m: &mut O, r: &mut Registers) -> Result<Tried, Dead>
    requires room { 1 ≤ O.room m.old }
    ensures does { RowTries O.Objects.own (primitive_second_clock O.names) m.old r.old result m.new r.new }
    ensures takes { Takes O.Objects.own 1 m.old m.new }
{
    let receiver = under(m, r, 1)?;
    let argument = top(m, r)?;
    match check_four_bytes(m, r, argument) {
        Ok(()) => answer_seconds(m, r, argument, receiver),
        Err(_) => Ok(Tried::Failed),
    }
}

/// Stores the millisecond clock, and answers the receiver.
#[tactic(auto, using(st_frames::proofs::Doing::rows, crate::proofs::Worlds::worlds), unfolding(st_frames::specs::inside::Answering::succeed_by, st_model::specs::Input::store_milliseconds))]
fn answer_milliseconds<O: Objects>(
    m: &mut O,
    r: &mut Registers,
    object: Word,
    receiver: Word,
) -> Result<Tried, Dead>
    requires room { 1 ≤ O.room m.old }
    ensures does { RowTries O.Objects.own
        (succeed_by O.names 1 (store_milliseconds O.names (word object) (word receiver)))
        m.old r.old result m.new r.new }
    ensures takes { Takes O.Objects.own 1 m.old m.new }
{
    let answer = store_time(m, r, object, r.world.millisecond_clock(), receiver)?;
    succeed_leaving(m, r, 1, answer)
}

/// Primitive 99: the first four bytes of the argument become the millisecond clock.
#[tactic(auto, using(st_frames::proofs::Tries::effects), unfolding(st_model::specs::Input::primitive_millisecond_clock))]
pub fn primitive_millisecond_clock<O: Objects>(m: &mut O, r: &mut Registers) -> Result<Tried, Dead>
    requires room { 1 ≤ O.room m.old }
    ensures does { RowTries O.Objects.own (primitive_millisecond_clock O.names)
        m.old r.old result m.new r.new }
    ensures takes { Takes O.Objects.own 1 m.old m.new }
{
    let receiver = under(m, r, 1)?;
    let argument = top(m, r)?;
    match check_four_bytes(m, r, argument) {
        Ok(()) => answer_milliseconds(m, r, argument, receiver),
        Err(_) => Ok(Tried::Failed),
    }
}
