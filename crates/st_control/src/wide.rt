ghost use Rattle.std.specs.Prelude.{◌≡◌, ◌<◌, ◌≤◌, ◌+◌, false, true, IfOk, Some};
ghost use Rattle.st_model.specs.declared.dead.Dead.TheVariants as dead;
ghost use Rattle.st_model.specs.Steps.{or_die};
ghost use Rattle.st_model.specs.Integers.{large, large_shift};
ghost use Rattle.st_model.specs.inside.Calls.{itself};
ghost use Rattle.st_model.specs.Values.{word};
ghost use Rattle.st_model.specs.Deeds.{copies_pixels};
ghost use Rattle.st_model.specs.Arithmetic.{large_under, large_answer, value_of_large, large_arithmetic, shift_answer, shift_large};
ghost use Rattle.st_frames.specs.inside.Answering.{succeed_by, answer_word, answer_deed};
ghost use Rattle.st_frames.specs.inside.Rows.{RowReads, RowLeaves, RowTries, Takes};

use crate::arithmetic::integer_under;
use st_frames::{Answer, Registers, Tried, number, page, succeed_leaving, under, value_within};
use st_ints::{LargeAnswer, large, shift};
use st_memory::Objects;
use st_model::{Dead, Deed, PageObject};

/// The integer from 0 up, of at most 16 bytes, k words below the top.
#[tactic(auto, using(st_frames::proofs::Doing::rows), unfolding(st_model::specs::Arithmetic::large_under))]
fn large_under<O: Objects>(m: &O, r: &Registers, k: u32) -> Result<u128, Dead>
    requires few { k < 32768 }
    ensures does { RowReads O.Objects.own (large_under O.names k) itself m.now r.now result }
{
    let v = under(m, r, k)?;
    value_within(m, r, 16, v)
}

/// What primitive n, of 21 to 36, answers of two integers; an error where it fails.
#[tactic(auto, using(crate::proofs::Tries::answers))]
fn large_of<O: Objects>(
    m: &O,
    r: &Registers,
    n: u32,
    receiver: u128,
    argument: u128,
) -> Result<LargeAnswer, Dead>
    requires first { 21 ≤ n }
    requires last { n ≤ 36 }
    ensures does { RowReads O.Objects.own (or_die dead.NotSmall (large n receiver argument))
        itself m.now r.now result }
{
    match large(n as u8, receiver, argument) {
        Some(answer) => Ok(answer),
        None => Err(Dead::NotSmall),
    }
}

/// What primitive n, of 21 to 36, answers of receiver and argument; an error where it fails.
#[tactic(auto, using(st_frames::proofs::Doing::rows), unfolding(st_model::specs::Arithmetic::large_answer))]
fn large_answer<O: Objects>(m: &O, r: &Registers, n: u32) -> Result<LargeAnswer, Dead>
    requires first { 21 ≤ n }
    requires last { n ≤ 36 }
    ensures does { RowReads O.Objects.own (large_answer O.names n) itself m.now r.now result }
{
    let receiver = large_under(m, r, 1)?;
    let argument = large_under(m, r, 0)?;
    large_of(m, r, n, receiver, argument)
}

/// The SmallInteger, boolean or new LargePositiveInteger of an answer.
#[tactic(auto, using(st_frames::proofs::Doing::rows, st_frames::proofs::Doing::pages), unfolding(st_model::specs::Arithmetic::value_of_large, st_model::specs::Primitives::truth))]
fn value_of_large<O: Objects>(m: &mut O, r: &Registers, answer: LargeAnswer) -> Result<Answer, Dead>
    requires room { 1 ≤ O.room m.old }
    ensures does { RowLeaves O.Objects.own (value_of_large O.names answer)
        answer_word answer_deed m.old r.now result m.new r.now }
    ensures takes { Takes O.Objects.own 1 m.old m.new }
    ensures plain { IfOk result (λ a. copies_pixels a.deed ≡ false) }
{
    let deed = Deed::Nothing;
    match answer {
        LargeAnswer::Number(n) => number(m, r, n),
        LargeAnswer::Truth(true) => Ok(Answer {
            word: page(m, PageObject::TrueObject),
            deed,
        }),
        LargeAnswer::Truth(false) => Ok(Answer {
            word: page(m, PageObject::FalseObject),
            deed,
        }),
    }
}

/// What a primitive on two integers answers takes their place.
#[tactic(auto, using(st_frames::proofs::Doing::rows), unfolding(st_frames::specs::inside::Answering::succeed_by))]
fn answer_large<O: Objects>(
    m: &mut O,
    r: &mut Registers,
    answer: LargeAnswer,
) -> Result<Tried, Dead>
    requires room { 2 ≤ O.room m.old }
    ensures does { RowTries O.Objects.own (succeed_by O.names 1 (value_of_large O.names answer))
        m.old r.old result m.new r.new }
    ensures takes { Takes O.Objects.own 2 m.old m.new }
{
    let value = value_of_large(m, r, answer)?;
    succeed_leaving(m, r, 1, value)
}

/// Primitives 21 to 36: on two integers from 0 up.
#[tactic(auto, using(st_frames::proofs::Tries::effects), unfolding(st_model::specs::Arithmetic::large_arithmetic))]
pub fn large_arithmetic<O: Objects>(m: &mut O, r: &mut Registers, n: u32) -> Result<Tried, Dead>
    requires first { 21 ≤ n }
    requires last { n ≤ 36 }
    requires room { 2 ≤ O.room m.old }
    ensures does { RowTries O.Objects.own (large_arithmetic O.names n) m.old r.old result m.new r.new }
    ensures takes { Takes O.Objects.own 2 m.old m.new }
{
    match large_answer(m, r, n) {
        Ok(answer) => answer_large(m, r, answer),
        Err(_) => Ok(Tried::Failed),
    }
}

/// What a shift of an integer answers; an error where it fails.
#[tactic(auto, using(crate::proofs::Tries::answers))]
fn shift_of<O: Objects>(m: &O, r: &Registers, receiver: u128, by: i16) -> Result<u128, Dead>
    ensures does { RowReads O.Objects.own (or_die dead.NotSmall (large_shift receiver by))
        itself m.now r.now result }
{
    match shift(receiver, by) {
        Some(n) => Ok(n),
        None => Err(Dead::NotSmall),
    }
}

/// What a shift of the receiver by the argument answers; an error where it fails.
#[tactic(auto, using(crate::proofs::Tries::passing), unfolding(st_model::specs::Arithmetic::shift_answer))]
fn shift_answer<O: Objects>(m: &O, r: &Registers) -> Result<u128, Dead>
    ensures does { RowReads O.Objects.own (shift_answer O.names) itself m.now r.now result }
{
    let receiver = large_under(m, r, 1)?;
    let by = integer_under(m, r, 0)?;
    shift_of(m, r, receiver, by)
}

/// Primitive 37: a shift.
#[tactic(auto, using(st_frames::proofs::Tries::effects), unfolding(st_model::specs::Arithmetic::shift_large))]
pub fn shift_large<O: Objects>(m: &mut O, r: &mut Registers) -> Result<Tried, Dead>
    requires room { 2 ≤ O.room m.old }
    ensures does { RowTries O.Objects.own (shift_large O.names) m.old r.old result m.new r.new }
    ensures takes { Takes O.Objects.own 2 m.old m.new }
{
    match shift_answer(m, r) {
        Ok(n) => answer_large(m, r, LargeAnswer::Number(n)),
        Err(_) => Ok(Tried::Failed),
    }
}
