ghost use Rattle.std.specs.Prelude.{◌≡◌, ◌<◌, ◌≤◌};
ghost use Rattle.st_model.specs.{declared.deed.Deed.TheVariants.Nothing};
ghost use Rattle.st_model.specs.{Outcomes.Went, Arithmetic.arithmetic, PrimitiveTable.IsNumberedPrimitive};
ghost use Rattle.st_model.specs.Executing.{if_done, succeeds, says, asks, respond_by, respond, perform_by, respond_or_perform};
ghost use Rattle.st_step.specs.inside.{Trying.tried_number, Responding.{end_of_trial, RowResponds, StaysIfFailed, number_changes}};
ghost use Rattle.st_frames.specs.declared.registers.Registers.{Registers as Words};
ghost use Rattle.st_frames.specs.inside.Rows.{Takes, response_changes, execution_changes, deed_in, outcome_in};

use crate::perform::{primitive_perform, primitive_perform_with};
use st_control::{
    answer_integers, equivalence, flush_cache, integer_answer, large_arithmetic, receiver_class,
    shift_large, try_blocks,
};
use st_frames::{Registers, RowEnd, Tried, answer_with, look_at_words, top};
use st_memory::Objects;
use st_model::{Dead, Primitive, primitive_of};
use st_process::{try_input, try_process};
use st_storage::{primitive_say, try_storage};

/// The end of a primitive that its family tried; none where it failed.
fn end_of_trial(tried: Tried) -> Option<RowEnd>
    ensures { result ≡ end_of_trial tried }
{
    match tried {
        Tried::Done => Some(RowEnd::Went),
        Tried::Leaves => Some(RowEnd::Leaves),
        Tried::Failed => None,
    }
}

/// Tries a primitive on two SmallIntegers.
#[tactic(auto, using(crate::proofs::Tries::tries), unfolding(st_model::specs::Executing::if_done))]
fn try_arithmetic<O: Objects>(
    m: &mut O,
    r: &mut Registers,
    primitive: u32,
) -> Result<Option<RowEnd>, Dead>
    requires first { 1 ≤ primitive }
    requires last { primitive ≤ 18 }
    requires room { response_changes ≤ O.room m.old }
    ensures does { RowResponds O.Objects.own (if_done Went (arithmetic O.names primitive))
        m.old r.old result m.new r.new }
    ensures takes { Takes O.Objects.own (number_changes response_changes result) m.old m.new }
{
    match integer_answer(m, r, primitive) {
        Ok(answer) => {
            answer_integers(m, r, answer)?;
            Ok(Some(RowEnd::Went))
        }
        Err(_) => Ok(None),
    }
}

/// Says the receiver's bytes (primitive 128), or fails.
#[tactic(auto, using(st_frames::proofs::Doing::rows), unfolding(st_model::specs::Executing::says, st_model::specs::Executing::if_done))]
fn says<O: Objects>(m: &mut O, r: &mut Registers) -> Result<Option<RowEnd>, Dead>
    requires room { response_changes ≤ O.room m.old }
    ensures does { RowResponds O.Objects.own (says O.names) m.old r.old result m.new r.new }
    ensures takes { Takes O.Objects.own (number_changes response_changes result) m.old m.new }
{
    let receiver = top(m, r)?;
    if primitive_say(m, r, receiver)? {
        r.said = receiver;
        Ok(Some(RowEnd::Says))
    } else {
        Ok(None)
    }
}

/// Something is asked for (primitives 97, 113 and 114), and the receiver stays as the answer.
#[tactic(auto, using(st_frames::proofs::Doing::rows), unfolding(st_model::specs::Executing::succeeds, st_model::specs::Executing::asks))]
fn asks<O: Objects>(m: &mut O, r: &mut Registers, end: RowEnd) -> Result<Option<RowEnd>, Dead>
    requires asked { (q : Words) → deed_in q end ≡ Nothing }
    requires room { response_changes ≤ O.room m.old }
    ensures does { RowResponds O.Objects.own (succeeds (asks O.names (outcome_in r.new end)))
        m.old r.old result m.new r.new }
    ensures takes { Takes O.Objects.own (number_changes response_changes result) m.old m.new }
{
    let receiver = top(m, r)?;
    answer_with(m, r, 0, receiver)?;
    Ok(Some(end))
}

/// Tries a primitive with so many arguments; 83 and 84 fail. None tells that it failed.
#[inline(always)]
#[tactic(auto, using(crate::proofs::NumberChanges::trials), unfolding(st_model::specs::Executing::respond_by, st_model::specs::Executing::succeeds, st_model::specs::Executing::goes_on))]
fn respond_by<O: Objects>(
    m: &mut O,
    r: &mut Registers,
    primitive: Primitive,
    arguments: u32,
) -> Result<Option<RowEnd>, Dead>
    requires numbered { IsNumberedPrimitive primitive }
    requires few { arguments < 16384 }
    requires room { response_changes ≤ O.room m.old }
    ensures does { RowResponds O.Objects.own (respond_by O.names arguments primitive)
        m.old r.old result m.new r.new }
    ensures takes { Takes O.Objects.own (number_changes response_changes result) m.old m.new }
{
    match primitive {
        Primitive::Arithmetic(k) => return try_arithmetic(m, r, u32::from(k)),
        Primitive::LargeArithmetic(k) => return Ok(end_of_trial(large_arithmetic(
            m,
            r,
            u32::from(k),
        )?)),
        Primitive::LargeBitShift => return Ok(end_of_trial(shift_large(m, r)?)),
        Primitive::Storage(p) => return Ok(end_of_trial(try_storage(m, r, p)?)),
        Primitive::Blocks(p) => return Ok(end_of_trial(try_blocks(m, r, p, arguments)?)),
        Primitive::Perform | Primitive::PerformWith => return Ok(None),
        Primitive::Processes(p) => return Ok(end_of_trial(try_process(m, r, p)?)),
        Primitive::FlushCache => flush_cache(m, r, arguments)?,
        Primitive::Input(p) => return Ok(end_of_trial(try_input(m, r, p)?)),
        Primitive::Snapshot => return asks(m, r, RowEnd::Snapshot),
        Primitive::Equivalent => equivalence(m, r)?,
        Primitive::Class => receiver_class(m, r)?,
        Primitive::Quit => return asks(m, r, RowEnd::Quit),
        Primitive::ExitToDebugger => return asks(m, r, RowEnd::Debugger),
        Primitive::Say => return says(m, r),
    }
    Ok(Some(RowEnd::Went))
}

/// Tries the primitive of this number with so many arguments; 83 and 84 fail. None tells that it failed.
#[inline(always)]
#[tactic(auto, using(st_frames::proofs::Doing::rows), unfolding(st_model::specs::Executing::respond, st_model::specs::Executing::respond_if_any))]
pub fn respond<O: Objects>(
    m: &mut O,
    r: &mut Registers,
    number: u32,
    arguments: u32,
) -> Result<Option<RowEnd>, Dead>
    requires few { arguments < 16384 }
    requires room { response_changes ≤ O.room m.old }
    ensures does { RowResponds O.Objects.own (respond O.names number arguments)
        m.old r.old result m.new r.new }
    ensures takes { Takes O.Objects.own (number_changes response_changes result) m.old m.new }
{
    match primitive_of(number, arguments) {
        Some(primitive) => respond_by(m, r, primitive, arguments),
        None => Ok(None),
    }
}

/// Tries a primitive with so many arguments, which may be 83 or 84. None tells that it failed.
#[inline(always)]
#[tactic(auto, using(crate::proofs::Performed::plain), unfolding(st_model::specs::Executing::perform_by))]
fn perform_by<O: Objects>(
    m: &mut O,
    r: &mut Registers,
    primitive: Primitive,
    arguments: u32,
) -> Result<Option<RowEnd>, Dead>
    requires numbered { IsNumberedPrimitive primitive }
    requires few { arguments < 16384 }
    requires room { execution_changes ≤ O.room m.old }
    ensures does { RowResponds O.Objects.own (perform_by O.names arguments primitive)
        m.old r.old result m.new r.new }
    ensures takes { Takes O.Objects.own (number_changes execution_changes result) m.old m.new }
    ensures still { StaysIfFailed O.Objects.own m.old r.old result m.new r.new }
{
    match primitive {
        Primitive::Perform => primitive_perform(m, r, arguments.saturating_sub(1)),
        Primitive::PerformWith => primitive_perform_with(m, r),
        _ => respond_by(m, r, primitive, arguments),
    }
}

/// Tries the primitive of this number with so many arguments, which may be 83 or 84. None tells that it failed.
#[inline(always)]
#[tactic(auto, using(st_frames::proofs::Doing::rows), unfolding(st_model::specs::Executing::respond_or_perform, st_model::specs::Executing::respond_if_any))]
pub fn respond_or_perform<O: Objects>(
    m: &mut O,
    r: &mut Registers,
    number: u32,
    arguments: u32,
) -> Result<Option<RowEnd>, Dead>
    requires few { arguments < 16384 }
    requires room { execution_changes ≤ O.room m.old }
    ensures does { RowResponds O.Objects.own (respond_or_perform O.names number arguments)
        m.old r.old result m.new r.new }
    ensures takes { Takes O.Objects.own (number_changes execution_changes result) m.old m.new }
    ensures still { StaysIfFailed O.Objects.own m.old r.old result m.new r.new }
{
    match primitive_of(number, arguments) {
        Some(primitive) => perform_by(m, r, primitive, arguments),
        None => Ok(None),
    }
}

/// Looks at receiver and arguments, and tries the primitive of this number. None says that it failed.
#[tactic(auto, using(st_frames::proofs::Doing::rows), unfolding(crate::specs::inside::Trying::tried_number))]
pub fn tried_number<O: Objects>(
    m: &mut O,
    r: &mut Registers,
    primitive: u32,
    arguments: u32,
) -> Result<Option<RowEnd>, Dead>
    requires few { arguments < 16384 }
    requires room { execution_changes ≤ O.room m.old }
    ensures does { RowResponds O.Objects.own (tried_number O.names primitive arguments)
        m.old r.old result m.new r.new }
    ensures takes { Takes O.Objects.own (number_changes execution_changes result) m.old m.new }
    ensures still { StaysIfFailed O.Objects.own m.old r.old result m.new r.new }
{
    look_at_words(m, r, arguments)?;
    respond_or_perform(m, r, primitive, arguments)
}
