//! Arithmetic on two SmallIntegers, each of which is read once: what the receiver is, is asked before the argument is read, and
//! neither is read again where both leave the stack.
ghost use Rattle.std.specs.Prelude.{◌≡◌, ◌<◌, ◌≤◌, Some, true, IfOk};
ghost use Rattle.st_model.specs.{Values.{word, is_small, integer_of}, inside.Calls.itself};
ghost use Rattle.st_ints.specs.inside.Answers.{IsSmall, IsOfSmall};
ghost use Rattle.st_control.specs.inside.AtOnce.{IsStill};
ghost use Rattle.st_frames.specs.inside.Rows.{RowReads, RowDoes, Takes};
ghost use Rattle.st_at_once.specs.inside.AtOnce.{argument_answer, replace_pair, answered_at_once, arithmetic_at_once_by, arithmetic_at_once};

use st_control::{arithmetic_number, integer_under, word_of};
use st_frames::{Registers, drop_words, page, push, under};
use st_ints::{IntAnswer, binary};
use st_memory::Objects;
use st_model::{Dead, PageObject, Word};

/// The integer of a SmallInteger, in 16 bits.
#[inline(always)]
#[tactic(auto, using(std::proofs::lemmas::Int::ints))]
fn small_value(v: Word) -> i16
    requires small { is_small (word v) ≡ true }
    ensures integer { result ≡ integer_of (word v) }
    ensures small { IsSmall result }
{
    v.integer() as i16
}

/// What primitive n, of 1 to 18, answers of a receiver and the argument at the top; an error where it fails.
#[inline(always)]
#[tactic(auto, using(crate::proofs::AtOnce::pairs), unfolding(crate::specs::inside::AtOnce::argument_answer))]
fn argument_answer<O: Objects>(
    m: &O,
    r: &Registers,
    n: u32,
    receiver: i16,
) -> Result<IntAnswer, Dead>
    requires first { 1 ≤ n }
    requires last { n ≤ 18 }
    requires receiver { IsSmall receiver }
    ensures does { RowReads O.Objects.own (argument_answer O.names n receiver) itself m.now r.now result }
    ensures small { IfOk result IsOfSmall }
{
    let argument = integer_under(m, r, 0)?;
    match binary(n as u8, receiver, argument) {
        Some(answer) => Ok(answer),
        None => Err(Dead::NotSmall),
    }
}

/// A value takes the place of receiver and argument, which were read.
#[inline(always)]
#[tactic(auto, using(st_frames::proofs::Doing::rows), unfolding(crate::specs::inside::AtOnce::replace_pair))]
fn replace_pair<O: Objects>(m: &mut O, r: &mut Registers, value: Word) -> Result<(), Dead>
    requires room { 1 ≤ O.room m.old }
    ensures does { RowDoes O.Objects.own (replace_pair O.names (word value))
        itself m.old r.old result m.new r.new }
    ensures takes { Takes O.Objects.own 1 m.old m.new }
{
    drop_words(m, r, 2)?;
    push(m, r, value)
}

/// A number or a truth takes the place of receiver and argument, which were read. Answers whether it was one: a Point isn't made.
#[inline(always)]
#[tactic(auto, using(st_control::proofs::Tries::values), unfolding(crate::specs::inside::AtOnce::answered_at_once, st_control::specs::inside::AtOnce::at_once, st_model::specs::Primitives::truth))]
fn answered_at_once<O: Objects>(
    m: &mut O,
    r: &mut Registers,
    answer: IntAnswer,
) -> Result<bool, Dead>
    requires room { 1 ≤ O.room m.old }
    requires small { IsOfSmall answer }
    ensures does { RowDoes O.Objects.own (answered_at_once O.names (Some answer))
        itself m.old r.old result m.new r.new }
    ensures takes { Takes O.Objects.own 1 m.old m.new }
    ensures still { IsStill O.Objects.own m.old result m.new }
{
    let value = match answer {
        IntAnswer::Number(n) => word_of(n),
        IntAnswer::Truth(true) => page(m, PageObject::TrueObject),
        IntAnswer::Truth(false) => page(m, PageObject::FalseObject),
        IntAnswer::Point(_, _) => return Ok(false),
    };
    replace_pair(m, r, value)?;
    Ok(true)
}

/// Does a primitive on two SmallIntegers, where the receiver that was read is one. Answers whether it succeeded.
#[inline(always)]
#[tactic(auto, using(crate::proofs::AtOnce::tries))]
fn arithmetic_at_once_by<O: Objects>(
    m: &mut O,
    r: &mut Registers,
    k: u32,
    receiver: Word,
) -> Result<bool, Dead>
    requires number { k < 16 }
    requires room { 1 ≤ O.room m.old }
    ensures does { RowDoes O.Objects.own (arithmetic_at_once_by O.names k (word receiver))
        itself m.old r.old result m.new r.new }
    ensures takes { Takes O.Objects.own 1 m.old m.new }
    ensures still { IsStill O.Objects.own m.old result m.new }
{
    if !receiver.is_small() {
        return Ok(false);
    }
    match argument_answer(m, r, arithmetic_number(k), small_value(receiver)) {
        Ok(answer) => answered_at_once(m, r, answer),
        Err(_) => Ok(false),
    }
}

/// Does the primitive that is tried first for a special selector of 0 to 15. Answers whether it succeeded.
#[inline(always)]
#[tactic(auto, using(st_frames::proofs::Doing::rows), unfolding(crate::specs::inside::AtOnce::arithmetic_at_once))]
pub fn arithmetic_at_once<O: Objects>(m: &mut O, r: &mut Registers, k: u32) -> Result<bool, Dead>
    requires number { k < 16 }
    requires room { 1 ≤ O.room m.old }
    ensures does { RowDoes O.Objects.own (arithmetic_at_once O.names k)
        itself m.old r.old result m.new r.new }
    ensures takes { Takes O.Objects.own 1 m.old m.new }
    ensures still { IsStill O.Objects.own m.old result m.new }
{
    let receiver = under(m, r, 1)?;
    arithmetic_at_once_by(m, r, k, receiver)
}
