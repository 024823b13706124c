//! What the nodes of a method do.

ghost use Rattle.std.specs.Prelude.{◌≡◌, [], IfOk, IfErr, OnOk};
ghost use Rattle.st_meaning.specs.{inside.Meanings.most, inside.Courses.{IsLong, IsSound}};
ghost use Rattle.st_meaning.specs.inside.Traced.{Gives, GivesAll, IsOver, IsPassed, IsFirstOn, IsLeftOn, IsCut};
ghost use Rattle.st_meaning.specs.inside.Traced.{EndsTurn, IsTurnCut, Repeats, IsRepeatCut};
ghost use Rattle.st_meaning.specs.inside.Traced.{node_in, start_in, acts_in, act_in, messages_in, message_in, arguments_in};
ghost use Rattle.st_meaning.specs.inside.Traced.{sided_in, chosen_in, body_in, nodes_in, loop_in, method_in};

use crate::arena::{Act, Message, Node, Start, Statements};
use crate::course::Course;
use crate::deed::{Deed, FALSE, NIL, RECEIVER, TRUE, Value, ValueList};
use crate::fault::MeaningFault;
use crate::walking::test;
use st_emit::{Loop, OneSided, TwoSided};
use std::alloc::Global;

/// How a turn of a loop ends: another one follows, the loop is left, or the method is at its end.
enum TurnEnd {
    Again,
    Left,
    Over,
}

/// The boolean on which the block of a form is passed, and what is its value then.
fn passed(side: OneSided) -> (bool, Value)
    ensures { IsPassed side result.0 result.1 }
{
    match side {
        OneSided::IfTrue => (false, NIL),
        OneSided::IfFalse => (true, NIL),
        OneSided::And => (false, FALSE),
        OneSided::Or => (true, TRUE),
    }
}

/// The boolean on which the first block of a form is done.
fn first_on(side: TwoSided) -> bool
    ensures { IsFirstOn side result }
{
    match side {
        TwoSided::TrueFirst => true,
        TwoSided::FalseFirst => false,
    }
}

/// The boolean on which a loop is left.
fn leaves_on(kind: Loop) -> bool
    ensures { IsLeftOn kind result }
{
    match kind {
        Loop::WhileTrue => false,
        Loop::WhileFalse => true,
    }
}

/// The node at a place: its value, or none where the method is at its end.
#[cycle(tracing)]
fn node(
    alloc: Global,
    course: &mut Course<'_>,
    nodes: &[Node],
    place: usize,
    bound: usize,
) -> Result<Option<Value>, MeaningFault>
    requires { IsSound course.old }
    ensures goes { IfOk result (Gives (node_in nodes.now bound place) course.old course.new) }
    ensures long { IfErr result (IsLong (IsCut (node_in nodes.now bound place) course.old)) }
    ensures sound { IsSound course.new }
{
    if place >= nodes.len() {
        return Ok(Some(NIL));
    }
    let before = &nodes[..place];
    let node = &nodes[place];
    match start(alloc, course, before, &node.start, bound)? {
        Some(value) => acts(alloc, course, before, &node.acts, value, bound),
        None => Ok(None),
    }
}

/// What a node begins with.
#[cycle(tracing)]
fn start(
    alloc: Global,
    course: &mut Course<'_>,
    before: &[Node],
    start: &Start,
    bound: usize,
) -> Result<Option<Value>, MeaningFault>
    requires { IsSound course.old }
    ensures goes { IfOk result (Gives (start_in before.now bound start.now) course.old course.new) }
    ensures long { IfErr result (IsLong (IsCut (start_in before.now bound start.now) course.old)) }
    ensures sound { IsSound course.new }
{
    match start {
        Start::Known(value) => Ok(Some(*value)),
        Start::Held(variable) => Ok(Some(course.held.value(*variable))),
        Start::Block => {
            let block = course.make()?;
            Ok(Some(block))
        }
        Start::Loop(kind, condition, repeated) => looped(
            alloc, course, before, *kind, condition, repeated, bound,
        ),
    }
}

/// What is done to a value, one after the other.
#[cycle(tracing)]
fn acts(
    alloc: Global,
    course: &mut Course<'_>,
    before: &[Node],
    acts: &[Act],
    begun: Value,
    bound: usize,
) -> Result<Option<Value>, MeaningFault>
    requires { IsSound course.old }
    ensures goes { IfOk result (Gives (acts_in before.now bound acts.now begun) course.old course.new) }
    ensures long { IfErr result (IsLong (IsCut (acts_in before.now bound acts.now begun) course.old)) }
    ensures sound { IsSound course.new }
{
    let mut value = begun;
    for one in acts {
        match act(alloc, course, before, one, value, bound)? {
            Some(next) => value = next,
            None => return Ok(None),
        }
    }
    Ok(Some(value))
}

/// One thing that is done to a value.
#[cycle(tracing)]
fn act(
    alloc: Global,
    course: &mut Course<'_>,
    before: &[Node],
    act: &Act,
    value: Value,
    bound: usize,
) -> Result<Option<Value>, MeaningFault>
    requires { IsSound course.old }
    ensures goes { IfOk result (Gives (act_in before.now bound act.now value) course.old course.new) }
    ensures long { IfErr result (IsLong (IsCut (act_in before.now bound act.now value) course.old)) }
    ensures sound { IsSound course.new }
{
    match act {
        Act::Assign(variable) => {
            course.assign(*variable, value)?;
            Ok(Some(value))
        }
        Act::Send(above, messages) => sends(alloc, course, before, *above, messages, value, bound),
        Act::One(side, inside) => one_sided(alloc, course, before, *side, inside, value, bound),
        Act::Two(side, first, second) => two_sided(
            alloc, course, before, *side, first, second, value, bound,
        ),
    }
}

/// Messages to one receiver.
#[cycle(tracing)]
fn sends(
    alloc: Global,
    course: &mut Course<'_>,
    before: &[Node],
    above: bool,
    messages: &[Message],
    receiver: Value,
    bound: usize,
) -> Result<Option<Value>, MeaningFault>
    requires { IsSound course.old }
    ensures goes { IfOk result
        (Gives (messages_in before.now bound above receiver messages.now) course.old course.new) }
    ensures long { IfErr result
        (IsLong (IsCut (messages_in before.now bound above receiver messages.now) course.old)) }
    ensures sound { IsSound course.new }
{
    let mut value = receiver;
    for one in messages {
        match message(alloc, course, before, above, one, receiver, bound)? {
            Some(answer) => value = answer,
            None => return Ok(None),
        }
    }
    Ok(Some(value))
}

/// A message to a receiver: its answer.
#[cycle(tracing)]
fn message(
    alloc: Global,
    course: &mut Course<'_>,
    before: &[Node],
    above: bool,
    message: &Message,
    receiver: Value,
    bound: usize,
) -> Result<Option<Value>, MeaningFault>
    requires { IsSound course.old }
    ensures goes { IfOk result
        (Gives (message_in before.now bound above receiver message.now) course.old course.new) }
    ensures long { IfErr result
        (IsLong (IsCut (message_in before.now bound above receiver message.now) course.old)) }
    ensures sound { IsSound course.new }
{
    match arguments(alloc, course, before, &message.arguments, bound)? {
        Some(values) => course.answer(alloc, receiver, &message.selector, values, above),
        None => Ok(None),
    }
}

/// The values of arguments.
#[cycle(tracing)]
fn arguments(
    alloc: Global,
    course: &mut Course<'_>,
    before: &[Node],
    places: &[usize],
    bound: usize,
) -> Result<Option<ValueList>, MeaningFault>
    requires { IsSound course.old }
    ensures goes { IfOk result (GivesAll (arguments_in before.now bound places.now) course.old course.new) }
    ensures long { IfErr result (IsLong (IsCut (arguments_in before.now bound places.now) course.old)) }
    ensures sound { IsSound course.new }
{
    let mut values = Vec::new(alloc);
    for place in places {
        match node(alloc, course, before, *place, bound)? {
            Some(value) => values.push(value)?,
            None => return Ok(None),
        }
    }
    Ok(Some(values))
}

/// A form with one block.
#[cycle(tracing)]
fn one_sided(
    alloc: Global,
    course: &mut Course<'_>,
    before: &[Node],
    side: OneSided,
    inside: &Statements,
    value: Value,
    bound: usize,
) -> Result<Option<Value>, MeaningFault>
    requires { IsSound course.old }
    ensures goes { IfOk result
        (Gives (sided_in before.now bound side value inside.now) course.old course.new) }
    ensures long { IfErr result
        (IsLong (IsCut (sided_in before.now bound side value inside.now) course.old)) }
    ensures sound { IsSound course.new }
{
    let (on, other) = passed(side);
    match test(course, on, value)? {
        Some(passes) => if passes {
            Ok(Some(other))
        } else {
            body(alloc, course, before, inside, bound)
        },
        None => Ok(None),
    }
}

/// A form with two blocks.
#[cycle(tracing)]
fn two_sided(
    alloc: Global,
    course: &mut Course<'_>,
    before: &[Node],
    side: TwoSided,
    first: &Statements,
    second: &Statements,
    value: Value,
    bound: usize,
) -> Result<Option<Value>, MeaningFault>
    requires { IsSound course.old }
    ensures goes { IfOk result
        (Gives (chosen_in before.now bound side value first.now second.now) course.old course.new) }
    ensures long { IfErr result
        (IsLong (IsCut (chosen_in before.now bound side value first.now second.now) course.old)) }
    ensures sound { IsSound course.new }
{
    match test(course, first_on(side), value)? {
        Some(is_first) => if is_first {
            body(alloc, course, before, first, bound)
        } else {
            body(alloc, course, before, second, bound)
        },
        None => Ok(None),
    }
}

/// The statements of a block of a form: their value, or that the method is at its end.
#[cycle(tracing)]
fn body(
    alloc: Global,
    course: &mut Course<'_>,
    before: &[Node],
    inside: &Statements,
    bound: usize,
) -> Result<Option<Value>, MeaningFault>
    requires { IsSound course.old }
    ensures goes { IfOk result (Gives (body_in before.now bound inside.now) course.old course.new) }
    ensures long { IfErr result (IsLong (IsCut (body_in before.now bound inside.now) course.old)) }
    ensures sound { IsSound course.new }
{
    match statements(alloc, course, before, &inside.nodes, bound)? {
        Some(value) => if inside.returns {
            course.did(Deed::Return { value })?;
            Ok(None)
        } else {
            Ok(Some(value))
        },
        None => Ok(None),
    }
}

/// Statements one after the other: the value of the last one.
#[cycle(tracing)]
fn statements(
    alloc: Global,
    course: &mut Course<'_>,
    before: &[Node],
    places: &[usize],
    bound: usize,
) -> Result<Option<Value>, MeaningFault>
    requires { IsSound course.old }
    ensures goes { IfOk result (Gives (nodes_in before.now bound places.now) course.old course.new) }
    ensures long { IfErr result (IsLong (IsCut (nodes_in before.now bound places.now) course.old)) }
    ensures sound { IsSound course.new }
{
    let mut value = NIL;
    for place in places {
        match node(alloc, course, before, *place, bound)? {
            Some(next) => value = next,
            None => return Ok(None),
        }
    }
    Ok(Some(value))
}

/// A loop. The last turn that is allowed jumps back too often.
#[cycle(tracing)]
fn looped(
    alloc: Global,
    course: &mut Course<'_>,
    before: &[Node],
    kind: Loop,
    condition: &Statements,
    repeated: &Statements,
    bound: usize,
) -> Result<Option<Value>, MeaningFault>
    requires { IsSound course.old }
    ensures goes { IfOk result
        (Gives (loop_in before.now bound kind condition.now repeated.now) course.old course.new) }
    ensures long { IfErr result
        (IsLong (IsCut (loop_in before.now bound kind condition.now repeated.now) course.old)) }
    ensures sound { IsSound course.new }
{
    let mut left = bound;
    while left > 0 {
        left -= 1;
        match turn(alloc, course, before, kind, condition, repeated, bound)? {
            TurnEnd::Again => {}
            TurnEnd::Left => return Ok(Some(NIL)),
            TurnEnd::Over => return Ok(None),
        }
    }
    Err(MeaningFault::Long)
}

/// One turn of a loop.
#[cycle(tracing)]
fn turn(
    alloc: Global,
    course: &mut Course<'_>,
    before: &[Node],
    kind: Loop,
    condition: &Statements,
    repeated: &Statements,
    bound: usize,
) -> Result<TurnEnd, MeaningFault>
    requires { IsSound course.old }
    ensures goes { IfOk result
        (EndsTurn before.now bound kind condition.now repeated.now course.old course.new) }
    ensures long { IfErr result
        (IsLong (IsTurnCut before.now bound kind condition.now repeated.now course.old)) }
    ensures sound { IsSound course.new }
{
    match body(alloc, course, before, condition, bound)? {
        Some(value) => match test(course, leaves_on(kind), value)? {
            Some(leaves) => if leaves {
                Ok(TurnEnd::Left)
            } else {
                again(alloc, course, before, repeated, bound)
            },
            None => Ok(TurnEnd::Over),
        },
        None => Ok(TurnEnd::Over),
    }
}

/// What is repeated, and the jump back.
#[cycle(tracing)]
fn again(
    alloc: Global,
    course: &mut Course<'_>,
    before: &[Node],
    repeated: &Statements,
    bound: usize,
) -> Result<TurnEnd, MeaningFault>
    requires { IsSound course.old }
    ensures goes { IfOk result (Repeats before.now bound repeated.now course.old course.new) }
    ensures long { IfErr result (IsLong (IsRepeatCut before.now bound repeated.now course.old)) }
    ensures sound { IsSound course.new }
{
    match body(alloc, course, before, repeated, bound)? {
        Some(_) => {
            course.back()?;
            Ok(TurnEnd::Again)
        }
        None => Ok(TurnEnd::Over),
    }
}

/// The statements of a method. Without a `^` it returns its receiver.
pub fn method(
    alloc: Global,
    course: &mut Course<'_>,
    nodes: &[Node],
    inside: &Statements,
    bound: usize,
) -> Result<(), MeaningFault>
    requires { IsSound course.old }
    ensures over { OnOk result (IsOver (method_in nodes.now bound inside.now) course.old course.new) }
    ensures long { IfErr result (IsLong (IsCut (method_in nodes.now bound inside.now) course.old)) }
{
    match statements(alloc, course, nodes, &inside.nodes, bound)? {
        Some(value) => if inside.returns {
            course.did(Deed::Return { value })
        } else {
            course.did(Deed::Return { value: RECEIVER })
        },
        None => Ok(()),
    }
}
