//! The walk of a method's code.

ghost use Rattle.std.specs.Prelude.{◌≡◌, ◌+◌, ◌*◌, IfOk, IfErr};
ghost use Rattle.st_code.specs.inside.MethodDrafts.{parts_view};
ghost use Rattle.st_meaning.specs.declared.deed.Value.TheVariants.{Constant};
ghost use Rattle.st_meaning.specs.{inside.Deeds.{answers_view, deeds_view, Lists, IsFault}, inside.Meanings.{most, Walk}};
ghost use Rattle.st_meaning.specs.inside.Courses.{boolean, Tests, IsLongTest, IsBehind, Continues, IsTooLong};
ghost use Rattle.st_meaning.specs.inside.Courses.{becomes, advances, Jumps, IsLongJump, IsLong, IsSound};

use crate::code::{Walked, arity, walk_code};
use crate::course::{Course, MOST};
use crate::deed::{AnswerList, Deed, Deeds, Value, ValueList};
use crate::fault::MeaningFault;
use st_code::MethodParts;
use st_emit::sum;
use st_resolved::instruction;
use std::alloc::{AllocError, Global};

/// The boolean that a pseudo variable is, by its number.
fn boolean_of(n: u8) -> Option<bool>
    ensures { result ≡ boolean (Constant n) }
{
    match n {
        1 => Some(true),
        2 => Some(false),
        _ => None,
    }
}

/// The boolean that a value is.
fn boolean(value: Value) -> Option<bool>
    ensures { result ≡ boolean value }
{
    match value {
        Value::Constant(n) => boolean_of(n),
        Value::Number(_) => None,
        Value::First(_) => None,
        Value::Literal(_) => None,
        Value::Block(_) => None,
        Value::Answer(_) => None,
    }
}

/// Whether a jump on this boolean jumps. Where a value is no boolean, that is the last deed.
pub fn test(course: &mut Course<'_>, on: bool, value: Value) -> Result<Option<bool>, MeaningFault>
    requires { IsSound course.old }
    ensures jumps { IfOk result (Tests on value course.old course.new) }
    ensures long { IfErr result (IsLong (IsLongTest on value course.old)) }
    ensures sound { IsSound course.new }
{
    let Some(holds) = boolean(value) else {
        course.did(Deed::Unsure { value })?;
        return Ok(None);
    };
    if holds { Ok(Some(on)) } else { Ok(Some(!on)) }
}

/// Pushes a value, with which the code goes on at this place.
#[tactic(auto, using(crate::proofs::Stacks::pushed_view))]
fn go_on(
    stack: &mut ValueList,
    value: Option<Value>,
    at: usize,
) -> Result<Option<usize>, AllocError>
    ensures { IfOk result (IsBehind value at stack.old.items stack.new.items) }
{
    match value {
        Some(value) => {
            stack.push(value)?;
            Ok(Some(at))
        }
        None => Ok(None),
    }
}

/// A jump ahead on a boolean, from this place on.
fn jump_on(
    course: &mut Course<'_>,
    on: bool,
    value: Value,
    distance: usize,
    at: usize,
) -> Result<Option<usize>, MeaningFault>
    requires { IsSound course.old }
    ensures goes { IfOk result (Jumps on value distance at course.old course.new) }
    ensures long { IfErr result (IsLong (IsLongJump on value distance at course.old)) }
    ensures sound { IsSound course.new }
{
    let Some(jumps) = test(course, on, value)? else {
        return Ok(None);
    };
    if jumps {
        Ok(Some(sum(at, distance)?))
    } else {
        Ok(Some(at))
    }
}

/// What becomes of what an instruction does, behind which the code goes on at this place: where it goes on, or the end.
fn done(
    alloc: Global,
    course: &mut Course<'_>,
    stack: &mut ValueList,
    walked: Walked<'_>,
    at: usize,
) -> Result<Option<usize>, MeaningFault>
    requires { IsSound course.old }
    ensures goes { IfOk result (Continues (becomes walked.entry at stack.old.items course.old)
        stack.new.items course.new) }
    ensures long { IfErr result (IsLong (IsTooLong (becomes walked.entry at stack.old.items course.old))) }
    ensures sound { IsSound course.new }
{
    match walked {
        Walked::Went => Ok(Some(at)),
        Walked::Stored(variable, value) => {
            course.assign(variable, value)?;
            Ok(Some(at))
        }
        Walked::Sent {
            receiver,
            selector,
            arguments,
            above,
        } => {
            let answer = course.answer(alloc, receiver, selector, arguments, above)?;
            Ok(go_on(stack, answer, at)?)
        }
        Walked::Copied => {
            let block = course.make()?;
            Ok(go_on(stack, Some(block), at)?)
        }
        Walked::Returned(value) => {
            course.did(Deed::Return { value })?;
            Ok(None)
        }
        Walked::Ahead(distance) => Ok(Some(sum(at, distance)?)),
        Walked::Back(distance) => {
            course.back()?;
            Ok(Some(at.saturating_sub(distance)))
        }
        Walked::Tested(on, value, distance) => jump_on(course, on, value, distance, at),
        Walked::Stuck => Ok(None),
    }
}

/// One instruction at a place: where the code goes on, or the end.
fn advance(
    alloc: Global,
    course: &mut Course<'_>,
    stack: &mut ValueList,
    parts: &MethodParts,
    at: usize,
) -> Result<Option<usize>, MeaningFault>
    requires { IsSound course.old }
    ensures goes { IfOk result (Continues (advances (parts_view parts.now) at stack.old.items course.old)
        stack.new.items course.new) }
    ensures long { IfErr result (IsLong (IsTooLong
        (advances (parts_view parts.now) at stack.old.items course.old))) }
    ensures sound { IsSound course.new }
{
    if at >= parts.bytes.len() {
        return Ok(None);
    }
    let Some(found) = instruction(&parts.bytes[at..]) else {
        return Ok(None);
    };
    let walked = walk_code(alloc, stack, &course.held, &parts.literals, found.step)?;
    done(alloc, course, stack, walked, sum(at, found.size)?)
}

/// So many instructions are enough for each walk of so many bytes. A number that passes every memory is want of memory.
fn enough_steps(bytes: usize) -> Result<usize, AllocError>
    ensures { IfOk result (λ n. n ≡ (most + 1) * (bytes + 1)) }
{
    (MOST + 1).checked_mul(sum(bytes, 1)?).ok_or(AllocError)
}

/// The walk of a method's code: what it does in one context, where each message takes the next answer. It ends where the
/// code returns, or finds no boolean where one has to be, or where the answers end; code that no compiler makes also where
/// it can't go on.
pub fn walk(alloc: Global, parts: &MethodParts, answers: &AnswerList) -> Result<Deeds, MeaningFault>
    ensures list { IfOk result (λ r.
        Lists (Walk (parts_view parts.now) (answers_view answers.now.items)) (deeds_view r.items)) }
    ensures fault { IfErr result (IsFault (Walk (parts_view parts.now) (answers_view answers.now.items))) }
{
    let mut course = Course::before_all(alloc, arity(&parts.selector), answers)?;
    let mut stack = Vec::new(alloc);
    let mut at = 0;
    let mut left = enough_steps(parts.bytes.len())?;
    while left > 0 {
        left -= 1;
        match advance(alloc, &mut course, &mut stack, parts, at)? {
            Some(next) => at = next,
            None => return Ok(course.deeds),
        }
    }
    Ok(course.deeds)
}
