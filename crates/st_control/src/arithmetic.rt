ghost use Rattle.std.specs.Prelude.{◌≡◌, ◌<◌, ◌≤◌, ◌+◌, ◌≤ℤ◌, pos, negsuc, Some, true, IfOk};
ghost use Rattle.st_model.specs.declared.dead.Dead.TheVariants as dead;
ghost use Rattle.st_model.specs.Steps.{or_die};
ghost use Rattle.st_model.specs.Values.{word, small_integer};
ghost use Rattle.st_model.specs.Integers.{binary};
ghost use Rattle.st_model.specs.inside.Calls.{itself};
ghost use Rattle.st_model.specs.Primitives.{succeed, answer_with};
ghost use Rattle.st_model.specs.Arithmetic.{arithmetic_number, new_point, value_of_answer, integer_under, integer_answer};
ghost use Rattle.st_ints.specs.inside.Answers.{IsSmall, IsOfSmall};
ghost use Rattle.st_frames.specs.inside.Rows.{RowReads, RowDoes, Takes};

use st_frames::{Registers, page, pop, push, small_integer, under};
use st_ints::{IntAnswer, binary};
use st_memory::Objects;
use st_model::{Dead, PageObject, Word};

/// An integer of a SmallInteger, in 16 bits.
#[tactic(auto, using(std::proofs::lemmas::Int::ints))]
fn in_16_bits(n: i32) -> i16
    requires low { negsuc 16383 ≤ℤ n }
    requires high { n ≤ℤ pos 16383 }
    ensures { result ≡ n }
{
    n as i16
}

/// The primitive that is tried first for a special selector of 0 to 15.
pub fn arithmetic_number(k: u32) -> u32
    requires few { k < 16 }
    ensures number { result ≡ arithmetic_number k }
    ensures first { 1 ≤ result }
    ensures last { result ≤ 18 }
{
    match k {
        11 => 18,
        12 => 17,
        13 => 12,
        14 | 15 => k,
        _ => k + 1,
    }
}

/// The integer of the SmallInteger k words below the top.
#[inline(always)]
#[tactic(auto, using(crate::proofs::Tries::integers), unfolding(st_model::specs::Arithmetic::integer_under))]
pub fn integer_under<O: Objects>(m: &O, r: &Registers, k: u32) -> Result<i16, Dead>
    requires few { k < 32768 }
    ensures does { RowReads O.Objects.own (integer_under O.names k) itself m.now r.now result }
    ensures small { IfOk result IsSmall }
{
    let v = under(m, r, k)?;
    if v.is_small() {
        Ok(in_16_bits(v.integer()))
    } else {
        Err(Dead::NotSmall)
    }
}

/// What primitive n, of 1 to 18, answers of two integers; an error where it fails.
#[tactic(auto, using(crate::proofs::Tries::answers))]
fn binary_answer<O: Objects>(
    m: &O,
    r: &Registers,
    n: u32,
    receiver: i16,
    argument: i16,
) -> Result<IntAnswer, Dead>
    requires first { 1 ≤ n }
    requires last { n ≤ 18 }
    requires receiver { IsSmall receiver }
    requires argument { IsSmall argument }
    ensures does { RowReads O.Objects.own (or_die dead.NotSmall (binary n receiver argument))
        itself m.now r.now result }
    ensures small { IfOk result IsOfSmall }
{
    match binary(n as u8, receiver, argument) {
        Some(answer) => Ok(answer),
        None => Err(Dead::NotSmall),
    }
}

/// What primitive n, of 1 to 18, answers of receiver and argument; an error where it fails.
#[tactic(auto, using(crate::proofs::Tries::passing), unfolding(st_model::specs::Arithmetic::integer_answer))]
pub fn integer_answer<O: Objects>(m: &O, r: &Registers, n: u32) -> Result<IntAnswer, Dead>
    requires first { 1 ≤ n }
    requires last { n ≤ 18 }
    ensures does { RowReads O.Objects.own (integer_answer O.names n) itself m.now r.now result }
    ensures small { IfOk result IsOfSmall }
{
    let receiver = integer_under(m, r, 1)?;
    let argument = integer_under(m, r, 0)?;
    binary_answer(m, r, n, receiver, argument)
}

/// The word of an integer from -16384 to 16383.
#[tactic(auto, using(std::proofs::lemmas::Int::ints))]
pub fn word_of(n: i16) -> Word
    requires small { IsSmall n }
    ensures { word result ≡ small_integer n }
{
    small_integer(i32::from(n))
}

/// A new Point of two integers.
#[tactic(auto, using(crate::proofs::Tries::passing), unfolding(st_model::specs::Arithmetic::new_point))]
fn new_point<O: Objects>(m: &mut O, r: &Registers, x: i16, y: i16) -> Result<Word, Dead>
    requires room { 3 ≤ O.room m.old }
    requires first { IsSmall x }
    requires second { IsSmall y }
    ensures does { RowDoes O.Objects.own (new_point O.names x y) word m.old r.now result m.new r.now }
    ensures takes { Takes O.Objects.own 3 m.old m.new }
{
    let class = page(m, PageObject::PointClass);
    let point = m.new_object(class, 2)?;
    m.store_field(point, 0, word_of(x))?;
    m.store_field(point, 1, word_of(y))?;
    Ok(point)
}

/// The SmallInteger, boolean or Point of an answer.
#[tactic(auto, using(crate::proofs::Tries::values), unfolding(st_model::specs::Arithmetic::value_of_answer, st_model::specs::Primitives::truth))]
fn value_of_answer<O: Objects>(m: &mut O, r: &Registers, answer: IntAnswer) -> Result<Word, Dead>
    requires room { 3 ≤ O.room m.old }
    requires small { IsOfSmall answer }
    ensures does { RowDoes O.Objects.own (value_of_answer O.names answer)
        word m.old r.now result m.new r.now }
    ensures takes { Takes O.Objects.own 3 m.old m.new }
{
    match answer {
        IntAnswer::Number(n) => Ok(word_of(n)),
        IntAnswer::Truth(true) => Ok(page(m, PageObject::TrueObject)),
        IntAnswer::Truth(false) => Ok(page(m, PageObject::FalseObject)),
        IntAnswer::Point(x, y) => new_point(m, r, x, y),
    }
}

/// An answer takes the place of receiver and argument.
#[tactic(auto, using(st_frames::proofs::Doing::rows), unfolding(st_model::specs::Primitives::answer_with, st_model::specs::Primitives::pop_words))]
pub fn answer_pair<O: Objects>(m: &mut O, r: &mut Registers, answer: Word) -> Result<(), Dead>
    requires room { 1 ≤ O.room m.old }
    ensures does { RowDoes O.Objects.own (answer_with O.names 1 (word answer))
        itself m.old r.old result m.new r.new }
    ensures takes { Takes O.Objects.own 1 m.old m.new }
{
    pop(m, r)?;
    pop(m, r)?;
    push(m, r, answer)
}

/// What a primitive on two SmallIntegers answers takes their place.
#[tactic(auto, using(st_frames::proofs::Doing::rows), unfolding(st_model::specs::Primitives::succeed))]
pub fn answer_integers<O: Objects>(
    m: &mut O,
    r: &mut Registers,
    answer: IntAnswer,
) -> Result<(), Dead>
    requires room { 4 ≤ O.room m.old }
    requires small { IsOfSmall answer }
    ensures does { RowDoes O.Objects.own (succeed O.names 1 (value_of_answer O.names) (Some answer))
        (λ x. true) m.old r.old result m.new r.new }
    ensures takes { Takes O.Objects.own 4 m.old m.new }
{
    let value = value_of_answer(m, r, answer)?;
    answer_pair(m, r, value)
}
