//! Expressions and statements as instructions. A walk goes along an expression's chain, so that it is as deep as the
//! brackets of its text, and not as its receivers and assigned values.

ghost use Rattle.std.specs.Prelude.{◌≡◌, ◌<◌, ◌≤◌, IfOk, OnOk, length, if◌then◌else◌, ◌==◌, false};
ghost use Rattle.st_scan.specs.Views.{expression_view, statements_view, is_super};
ghost use Rattle.st_scan.specs.inside.Chains.{IsStart};
ghost use Rattle.st_emit.specs.inside.Emits.{value_at, effect_at, return_at, values_at, message_at, cascade_at, sent_at, side_at, choice_at};
ghost use Rattle.st_emit.specs.inside.Emits.{loop_at, link_at, chain_at, body_at, method_at, block_at, code_in};
ghost use Rattle.st_emit.specs.inside.Emits.{after, after_all, after_messages, after_side, after_loop, after_link, after_chain};
ghost use Rattle.st_emit.specs.inside.Emits.{after_begun, after_statements, after_block, Begins, BeginsNoLoop, LeadsTo, CountsTo};
ghost use Rattle.st_emit.specs.inside.Found.{statements_size};
ghost use Rattle.st_emit.specs.Nodes.{is_above};
ghost use Rattle.st_emit.specs.inside.Shapes.{IsEnd};
ghost use Rattle.st_emit.specs.inside.Drafts.{Adds};

use crate::counting::{names_in_statements, sum};
use crate::declared_names::{DeclaredNames, places_of};
use crate::draft::Draft;
use crate::emit::{literal, name, number, place_of_name, pop_arguments, send};
use crate::form::{Lookup, TwoSided, leaves_on, other_side, passes_on};
use crate::instruction::{Constant, Instruction, size_of};
use crate::level::{around_block, beside, joined, within};
use crate::names::{Around, inner_scope};
use crate::selector::BLOCK_COPY;
use crate::shape::{
    Choice, Repetition, Shape, Side, assigned, before_others, first_repetition, is_super, not_last,
    only_message, returned_constant, returning, shape_of,
};
use st_scan::{Expression, Link, Message, Name, Signed, Statement};
use std::alloc::{AllocError, Global};

/// The values of expressions, one behind the other.
#[cycle(emitting)]
fn values(
    alloc: Global,
    draft: &mut Draft,
    around: Around<'_>,
    es: &[Expression],
) -> Result<usize, AllocError>
    ensures added { OnOk result (Adds (values_at around.entry es.now) draft.old draft.new) }
    ensures next { IfOk result (λ n. n ≡ after_all around.entry es.now) }
{
    let mut next = around.next;
    for e in es {
        next = value(alloc, draft, Around { next, ..around }, e)?;
    }
    Ok(next)
}

/// One message that is no conditional form, behind its receiver.
#[cycle(emitting)]
fn message(
    alloc: Global,
    draft: &mut Draft,
    around: Around<'_>,
    lookup: Lookup,
    m: &Message,
) -> Result<usize, AllocError>
    ensures added { OnOk result (Adds (message_at lookup around.entry m.now) draft.old draft.new) }
    ensures next { IfOk result (λ n. n ≡ after_all around.entry m.now.arguments.items) }
{
    let next = values(alloc, draft, around, &m.arguments)?;
    send(alloc, draft, lookup, &m.selector, m.arguments.len())?;
    Ok(next)
}

/// The messages of a cascade, behind their receiver.
#[cycle(emitting)]
fn cascade(
    alloc: Global,
    draft: &mut Draft,
    around: Around<'_>,
    lookup: Lookup,
    messages: &[Message],
) -> Result<usize, AllocError>
    ensures added { OnOk result (Adds (cascade_at lookup around.entry messages.now) draft.old draft.new) }
    ensures next { IfOk result (λ n. n ≡ after_messages around.entry messages.now) }
{
    let mut next = around.next;
    let mut rest = messages;
    while let Some((m, others)) = before_others(rest) {
        draft.put_push(Instruction::Duplicate)?;
        next = message(alloc, draft, Around { next, ..around }, lookup, m)?;
        draft.put_pop(Instruction::Pop, 1)?;
        rest = others;
    }
    match rest {
        [] => {
            send(alloc, draft, lookup, &[], 0)?;
            Ok(next)
        }
        [m, ..] => message(alloc, draft, Around { next, ..around }, lookup, m),
    }
}

/// The side of a conditional form that stands last.
#[cycle(emitting)]
fn side(
    alloc: Global,
    draft: &mut Draft,
    around: Around<'_>,
    other: Side<'_>,
) -> Result<usize, AllocError>
    ensures added { OnOk result (Adds (side_at around.entry other.entry) draft.old draft.new) }
    ensures next { IfOk result (λ n. n ≡ after_side around.entry.next other.entry) }
{
    match other {
        Side::Constant(constant) => {
            draft.put_push(Instruction::PushConstant(constant))?;
            Ok(around.next)
        }
        Side::Statements(statements) => body(alloc, draft, around, statements),
    }
}

/// A conditional form behind its receiver: its first side, which is passed on a boolean, and the other one. The jumps are
/// written again when the sizes of what they pass are known.
#[cycle(emitting)]
fn choice(
    alloc: Global,
    draft: &mut Draft,
    around: Around<'_>,
    form: Choice<'_>,
) -> Result<usize, AllocError>
    ensures added { OnOk result (Adds (choice_at around.entry form.entry) draft.old draft.new) }
    ensures next { IfOk result (λ n. n ≡ after_side form.entry.behind form.entry.other) }
{
    let test = draft.steps.len();
    draft.put_pop(Instruction::JumpIf(form.on, 0), 1)?;
    let begun = draft.level;
    body(alloc, draft, around, form.first)?;
    let inside = draft.size_from(test + 1)?;
    let over = draft.steps.len();
    draft.put(Instruction::Jump(0))?;
    let ended = draft.level;
    draft.level = beside(begun, ended);
    let next = side(
        alloc,
        draft,
        Around {
            next: form.behind,
            ..around
        },
        form.other,
    )?;
    let jump = Instruction::Jump(draft.size_from(over + 1)?);
    draft.steps[over] = jump;
    draft.steps[test] = Instruction::JumpIf(form.on, sum(inside, size_of(jump))?);
    draft.level = joined(ended, draft.level);
    Ok(next)
}

/// One message, behind its receiver.
#[cycle(emitting)]
fn sent(
    alloc: Global,
    draft: &mut Draft,
    around: Around<'_>,
    m: &Message,
) -> Result<usize, AllocError>
    ensures added { OnOk result (Adds (sent_at around.entry m.now) draft.old draft.new) }
    ensures next { IfOk result (λ n. n ≡ after_all around.entry m.now.arguments.items) }
{
    match shape_of(m) {
        Shape::Plain => message(alloc, draft, around, Lookup::InClass, m),
        Shape::One(side, a) => {
            let behind = names_in_statements(around.next, a)?;
            let form = Choice {
                on: passes_on(side),
                first: a,
                behind,
                other: Side::Constant(other_side(side)),
            };
            choice(alloc, draft, around, form)
        }
        Shape::Two(TwoSided::TrueFirst, a, b) => {
            let behind = names_in_statements(around.next, a)?;
            let form = Choice {
                on: false,
                first: a,
                behind,
                other: Side::Statements(b),
            };
            choice(alloc, draft, around, form)
        }
        Shape::Two(TwoSided::FalseFirst, a, b) => {
            let behind = names_in_statements(around.next, a)?;
            let form = Choice {
                on: false,
                first: b,
                behind: around.next,
                other: Side::Statements(a),
            };
            let second = Around {
                next: behind,
                ..around
            };
            choice(alloc, draft, second, form)?;
            names_in_statements(behind, b)
        }
    }
}

/// What a link does, behind what it is done to. A loop is no link.
#[cycle(emitting)]
fn linked(
    alloc: Global,
    draft: &mut Draft,
    around: Around<'_>,
    lookup: Lookup,
    link: Link<'_>,
) -> Result<usize, AllocError>
    ensures added { OnOk result (Adds (link_at lookup around.entry link.entry) draft.old draft.new) }
    ensures next { IfOk result (λ n. n ≡ after_link around.entry link.entry) }
{
    match link {
        Link::Assign(target) => {
            let place = place_of_name(draft, around, target)?;
            draft.put(Instruction::Store(place))?;
            Ok(around.next)
        }
        Link::Send(messages) => match only_message(lookup, messages) {
            Some(m) => sent(alloc, draft, around, m),
            None => cascade(alloc, draft, around, lookup, messages),
        },
    }
}

/// Statements in a block, with the last value left.
#[cycle(emitting)]
fn body(
    alloc: Global,
    draft: &mut Draft,
    around: Around<'_>,
    statements: &[Statement],
) -> Result<usize, AllocError>
    ensures added { OnOk result (Adds (body_at around.entry statements.now) draft.old draft.new) }
    ensures next { IfOk result (λ n. n ≡ after_statements around.entry statements.now) }
{
    if statements.is_empty() {
        draft.put_push(Instruction::PushConstant(Constant::Nil))?;
        return Ok(around.next);
    }
    let (next, rest) = leading(alloc, draft, around, statements)?;
    last(alloc, draft, Around { next, ..around }, rest)
}

/// All statements that others follow.
#[cycle(emitting)]
fn leading<'s>(
    alloc: Global,
    draft: &mut Draft,
    around: Around<'_>,
    statements: &'s [Statement],
) -> Result<(usize, &'s [Statement]), AllocError>
    requires { 0 < length statements.now }
    ensures added { IfOk result (λ x. LeadsTo around.entry statements.now draft.old x.0 x.1.now draft.new) }
    ensures next { IfOk result (λ x. CountsTo around.entry statements.now x.0 x.1.now) }
    ensures end { IfOk result (λ x. IsEnd (statements_view x.1.now)) }
    ensures within { IfOk result (λ x. statements_size x.1.now ≤ statements_size statements.now) }
{
    let mut next = around.next;
    let mut rest = statements;
    while let Some((first, others)) = not_last(rest) {
        next = effect(alloc, draft, Around { next, ..around }, first)?;
        rest = others;
    }
    Ok((next, rest))
}

/// The statement that no other follows.
#[cycle(emitting)]
fn last(
    alloc: Global,
    draft: &mut Draft,
    around: Around<'_>,
    statements: &[Statement],
) -> Result<usize, AllocError>
    requires { IsEnd (statements_view statements.now) }
    ensures added { OnOk result (Adds (body_at around.entry statements.now) draft.old draft.new) }
    ensures next { IfOk result (λ n. n ≡ after_statements around.entry statements.now) }
{
    match statements {
        [] => unreachable!(),
        [
            Statement {
                returns: true,
                value: e,
            },
            ..
        ] => returned(alloc, draft, around, e),
        [
            Statement {
                returns: false,
                value: e,
            },
            ..
        ] => value(alloc, draft, around, e),
    }
}

/// An expression after `^`.
#[cycle(emitting)]
pub fn returned(
    alloc: Global,
    draft: &mut Draft,
    around: Around<'_>,
    e: &Expression,
) -> Result<usize, AllocError>
    ensures added { OnOk result (Adds (return_at around.entry e.now) draft.old draft.new) }
    ensures next { IfOk result (λ n. n ≡ after around.entry e.now) }
{
    if let Some(constant) = returned_constant(e) {
        draft.put_end(Instruction::ReturnConstant(constant))?;
        return Ok(around.next);
    }
    let next = value(alloc, draft, around, e)?;
    draft.put_end(Instruction::ReturnTop)?;
    Ok(next)
}

/// An expression whose value isn't used.
#[cycle(emitting)]
pub fn effect(
    alloc: Global,
    draft: &mut Draft,
    around: Around<'_>,
    e: &Expression,
) -> Result<usize, AllocError>
    ensures added { OnOk result (Adds (effect_at around.entry e.now) draft.old draft.new) }
    ensures next { IfOk result (λ n. n ≡ after around.entry e.now) }
{
    match assigned(e) {
        Some((target, inner)) => {
            let next = value(alloc, draft, around, inner)?;
            let place = place_of_name(draft, around, target)?;
            draft.put_pop(Instruction::PopStore(place), 1)?;
            Ok(next)
        }
        None => {
            let next = value(alloc, draft, around, e)?;
            draft.put_pop(Instruction::Pop, 1)?;
            Ok(next)
        }
    }
}

/// A loop. Its jump out is written again when the size of what it passes is known.
#[cycle(emitting)]
fn looped(
    alloc: Global,
    draft: &mut Draft,
    around: Around<'_>,
    repetition: Repetition<'_>,
) -> Result<usize, AllocError>
    ensures added { OnOk result (Adds (loop_at around.entry repetition.entry) draft.old draft.new) }
    ensures next { IfOk result (λ n. n ≡ after_loop around.entry repetition.entry) }
{
    let on = leaves_on(repetition.kind);
    let begin = draft.steps.len();
    let next = body(alloc, draft, around, repetition.condition)?;
    let test = draft.steps.len();
    draft.put_pop(Instruction::JumpIf(on, 0), 1)?;
    let begun = draft.level;
    let next = body(alloc, draft, Around { next, ..around }, repetition.body)?;
    let inside = draft.size_from(test + 1)?;
    draft.put(Instruction::Pop)?;
    draft.steps[test] = Instruction::JumpIf(on, sum(inside, 3)?);
    let passed = sum(draft.size_from(begin)?, 2)?;
    draft.put(Instruction::JumpBack(passed))?;
    draft.level = beside(begun, draft.level);
    draft.put_push(Instruction::PushConstant(Constant::Nil))?;
    Ok(next)
}

/// The body of a block: its arguments are popped, and its value is returned but behind a `^`.
#[cycle(emitting)]
fn block_body(
    alloc: Global,
    draft: &mut Draft,
    around: Around<'_>,
    names: &[Name],
    statements: &[Statement],
) -> Result<usize, AllocError>
    ensures added { OnOk result (Adds (code_in around.entry names.now statements.now) draft.old draft.new) }
    ensures next { IfOk result (λ n. n ≡ after_block around.entry names.now statements.now) }
{
    draft.level = within(names.len(), draft.level);
    pop_arguments(draft, around.next, names.len())?;
    let places = places_of(alloc, names)?;
    let frame = DeclaredNames {
        names,
        places: &places,
        first: around.next,
        assignable: false,
    };
    let scope = inner_scope(alloc, around.scope, frame)?;
    let inner = Around {
        names: around.names,
        scope: &scope,
        next: sum(around.next, names.len())?,
    };
    let next = body(alloc, draft, inner, statements)?;
    if !returning(statements) {
        draft.put(Instruction::ReturnBlock)?;
    }
    Ok(next)
}

/// A block. The jump past its body is written again when the size of the body is known.
#[cycle(emitting)]
fn block(
    alloc: Global,
    draft: &mut Draft,
    around: Around<'_>,
    names: &[Name],
    statements: &[Statement],
) -> Result<usize, AllocError>
    ensures added { OnOk result (Adds (block_at around.entry names.now statements.now) draft.old draft.new) }
    ensures next { IfOk result (λ n. n ≡ after_block around.entry names.now statements.now) }
{
    draft.put_push(Instruction::PushConstant(Constant::Context))?;
    let size = names.len() as u128;
    number(draft, Signed { minus: false, size })?;
    draft.put_pop(Instruction::SendSpecial(BLOCK_COPY), 1)?;
    let outside = draft.level;
    let past = draft.steps.len();
    draft.put(Instruction::JumpPast(0))?;
    let next = block_body(alloc, draft, around, names, statements)?;
    draft.steps[past] = Instruction::JumpPast(draft.size_from(past + 1)?);
    draft.level = around_block(outside, draft.level);
    Ok(next)
}

/// A variable, a literal or a block.
#[cycle(emitting)]
fn start(
    alloc: Global,
    draft: &mut Draft,
    around: Around<'_>,
    e: &Expression,
) -> Result<usize, AllocError>
    requires { IsStart (expression_view e.now) }
    ensures added { OnOk result (Adds (value_at around.entry e.now) draft.old draft.new) }
    ensures next { IfOk result (λ n. n ≡ after around.entry e.now) }
{
    match e {
        Expression::Variable(n) => {
            name(draft, around, n)?;
            Ok(around.next)
        }
        Expression::Literal(element) => {
            literal(alloc, draft, &element.what)?;
            Ok(around.next)
        }
        Expression::Block { names, body } => block(alloc, draft, around, names, body),
        Expression::Assign { .. } | Expression::Send { .. } => unreachable!(),
    }
}

/// What an expression begins with: a loop, which is its first part with its first link, or its first part. Gives the
/// next number too, and how many links were taken.
#[cycle(emitting)]
fn beginning<'t>(
    alloc: Global,
    draft: &mut Draft,
    around: Around<'_>,
    first: &'t Expression,
    links: &[Link<'t>],
) -> Result<(usize, usize), AllocError>
    requires { IsStart (expression_view first.now) }
    ensures added { IfOk result (λ x. Begins around.entry first.now links.now x.1 draft.old draft.new) }
    ensures next { IfOk result (λ x. x.0 ≡ after_begun around.entry first.now links.now x.1) }
    ensures within { IfOk result (λ x. x.1 ≤ length links.now) }
    ensures no_loop { IfOk result (λ x. x.1 ≡ 0 → BeginsNoLoop first.now links.now) }
{
    match first_repetition(first, links) {
        Some(repetition) => {
            let next = looped(alloc, draft, around, repetition)?;
            Ok((next, 1))
        }
        None => {
            let next = start(alloc, draft, around, first)?;
            Ok((next, 0))
        }
    }
}

/// What an expression begins with, and its links in order.
#[cycle(emitting)]
fn follow<'t>(
    alloc: Global,
    draft: &mut Draft,
    around: Around<'_>,
    first: &'t Expression,
    links: &[Link<'t>],
) -> Result<usize, AllocError>
    requires { IsStart (expression_view first.now) }
    ensures added { OnOk result (Adds (chain_at around.entry first.now links.now) draft.old draft.new) }
    ensures next { IfOk result (λ n. n ≡ after_chain around.entry first.now links.now) }
{
    let (mut next, taken) = beginning(alloc, draft, around, first, links)?;
    for i in taken..links.len() {
        let lookup = lookup_behind(i, first);
        next = linked(alloc, draft, Around { next, ..around }, lookup, links[i])?;
    }
    Ok(next)
}

/// The value of an expression: what it begins with, and its links in order.
#[cycle(emitting)]
pub fn value(
    alloc: Global,
    draft: &mut Draft,
    around: Around<'_>,
    e: &Expression,
) -> Result<usize, AllocError>
    ensures added { OnOk result (Adds (value_at around.entry e.now) draft.old draft.new) }
    ensures next { IfOk result (λ n. n ≡ after around.entry e.now) }
{
    let chain = e.chain(alloc)?;
    follow(alloc, draft, around, chain.start, &chain.links)
}

/// Where the messages behind i links of this first part are looked up.
pub fn lookup_behind(i: usize, first: &Expression) -> Lookup
    ensures { is_above result ≡ (if i == 0 then is_super (expression_view first.now) else false) }
{
    if i == 0 && is_super(first) {
        Lookup::InSuperclass
    } else {
        Lookup::InClass
    }
}

/// The statements of a method. Without a `^` it returns its receiver.
pub fn method_body(
    alloc: Global,
    draft: &mut Draft,
    around: Around<'_>,
    statements: &[Statement],
) -> Result<usize, AllocError>
    ensures added { OnOk result (Adds (method_at around.entry statements.now) draft.old draft.new) }
    ensures next { IfOk result (λ n. n ≡ after_statements around.entry statements.now) }
{
    let mut next = around.next;
    for statement in statements {
        let here = Around { next, ..around };
        if statement.returns {
            return returned(alloc, draft, here, &statement.value);
        }
        next = effect(alloc, draft, here, &statement.value)?;
    }
    draft.put(Instruction::ReturnConstant(Constant::Receiver))?;
    Ok(next)
}
