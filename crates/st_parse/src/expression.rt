//! Expressions, statements and blocks. Each function here reads from the first leaf on, and answers what it read and the
//! leaves behind it, or the first fault. `room` is how many more brackets may be open.

ghost use Rattle.std.specs.Prelude.{◌≡◌, ◌∷◌, [], true, false};
ghost use Rattle.st_scan.specs.Views.{names_view, expression_view};
ghost use Rattle.st_grammar.specs.Reading.{bracket_at, primary_at, unary_at, operations_step, operations_at};
ghost use Rattle.st_grammar.specs.Reading.{binary_at, parts_step, parts_at, messages_at, message_at};
ghost use Rattle.st_grammar.specs.Reading.{cascade_step, cascades_at, sends_at, cascade_at, expression_at};
ghost use Rattle.st_grammar.specs.Reading.{statement_step, body_at, statements_at, argument_body_at};
ghost use Rattle.st_grammar.specs.Reading.{block_at, first};
ghost use Rattle.st_parse.specs.inside.Phrases.{parts_view, body_view};
ghost use Rattle.st_parse.specs.inside.Answers.{Reads, ReadsParts, ReadsBody, ReadsStatements, within};

use crate::bodies::{Body, caret, goes_on, no_statements, period, with_statement};
use crate::kinds::{KEYWORDS, NAMES, OPERATORS};
use crate::literal::{constant_element, nested};
use crate::names::{assigned, name_of, parameter, parameters, targets};
use crate::read::Read;
use crate::sends::{
    Parts, begins_message, checked, no_parts, operation, send_if, unary_messages, with_operation,
    with_part, with_parts, with_unary,
};
use st_grammar::leaf::{Kind, Leaf};
use st_grammar::read::{ReadError, starts, token};
use st_scan::{Expression, NameList, Statement, StatementList};
use std::alloc::Global;

const CONSTANTS: [Kind; 2] = [Kind::Number, Kind::Constant];

/// Brackets in a primary that is an expression in parentheses.
#[cycle(reading)]
#[tactic(auto, unfolding(st_grammar::specs::Reading::bracket_at))]
fn inside_group<'a>(
    alloc: Global,
    text: &[u8],
    room: u32,
    leaves: &'a [Leaf],
) -> Read<'a, Expression>
    ensures { Reads result (bracket_at text.now room false leaves.now) }
{
    if room == 0 {
        return Err(ReadError::too_deep(leaves));
    }
    let (inside, rest) = expression(alloc, text, room - 1, leaves)?;
    let (_close, rest) = token(&[Kind::Close], rest)?;
    Ok((inside, rest))
}

/// What is inside the brackets of a block, and its end.
#[cycle(reading)]
#[tactic(auto, unfolding(st_grammar::specs::Reading::bracket_at))]
fn inside_block<'a>(
    alloc: Global,
    text: &[u8],
    room: u32,
    leaves: &'a [Leaf],
) -> Read<'a, Expression>
    ensures { Reads result (bracket_at text.now room true leaves.now) }
{
    if room == 0 {
        return Err(ReadError::too_deep(leaves));
    }
    let (inside, rest) = block(alloc, text, room - 1, leaves)?;
    let (_close, rest) = token(&[Kind::CloseBlock], rest)?;
    Ok((inside, rest))
}

/// A primary: a name, a literal, a block, or an expression in parentheses.
#[cycle(reading)]
#[tactic(auto, unfolding(st_grammar::specs::Reading::primary_at, st_grammar::specs::Reading::name_primary_at, st_grammar::specs::Reading::constant_primary_at, st_grammar::specs::Reading::array_primary_at, st_grammar::specs::Reading::block_primary_at, st_grammar::specs::Reading::group_primary_at))]
fn primary<'a>(alloc: Global, text: &[u8], room: u32, leaves: &'a [Leaf]) -> Read<'a, Expression>
    ensures { Reads result (within primary_at text.now room leaves.now) }
{
    if starts(&NAMES, leaves) {
        let (leaf, rest) = token(&NAMES, leaves)?;
        Ok((Expression::Variable(name_of(alloc, text, leaf)?), rest))
    } else if starts(&CONSTANTS, leaves) {
        let (element, rest) = constant_element(alloc, text, &CONSTANTS, leaves)?;
        Ok((Expression::Literal(element), rest))
    } else if starts(&[Kind::Opening], leaves) {
        let (element, rest) = nested(alloc, text, room, &[Kind::Opening], leaves)?;
        Ok((Expression::Literal(element), rest))
    } else if starts(&[Kind::OpenBlock], leaves) {
        let (_open, rest) = token(&[Kind::OpenBlock], leaves)?;
        let (inside, rest) = inside_block(alloc, text, room, rest)?;
        Ok((inside, rest))
    } else {
        let (_open, rest) = token(&[Kind::Open], leaves)?;
        let (inside, rest) = inside_group(alloc, text, room, rest)?;
        Ok((inside, rest))
    }
}

/// A unary expression, as an argument.
#[cycle(reading)]
#[tactic(auto, unfolding(st_grammar::specs::Reading::unary_at, st_grammar::specs::Reading::any_unary_at))]
fn unary<'a>(alloc: Global, text: &[u8], room: u32, leaves: &'a [Leaf]) -> Read<'a, Expression>
    ensures { Reads result (within unary_at text.now room leaves.now) }
{
    let (receiver, rest) = primary(alloc, text, room, leaves)?;
    let (receiver, rest) = unary_messages(alloc, text, receiver, rest)?;
    checked(receiver, rest)
}

/// A receiver with one binary message.
#[cycle(reading)]
#[tactic(auto, unfolding(st_grammar::specs::Reading::operations_step))]
fn binary_message<'a>(
    alloc: Global,
    text: &[u8],
    room: u32,
    receiver: Expression,
    leaves: &'a [Leaf],
) -> Read<'a, Expression>
    ensures { Reads result (within operations_step text.now room (expression_view receiver) leaves.now) }
{
    let (operator, rest) = token(&OPERATORS, leaves)?;
    let (argument, rest) = unary(alloc, text, room, rest)?;
    Ok((operation(alloc, text, receiver, operator, argument)?, rest))
}

/// A receiver with all binary messages that follow it.
#[cycle(reading)]
#[tactic(auto, unfolding(st_grammar::specs::Reading::operations_at))]
fn binary_messages<'a>(
    alloc: Global,
    text: &[u8],
    room: u32,
    first: Expression,
    leaves: &'a [Leaf],
) -> Read<'a, Expression>
    ensures { Reads result (within operations_at text.now room (expression_view first) leaves.now) }
{
    let mut receiver = first;
    let mut rest = leaves;
    while starts(&OPERATORS, rest) {
        let (sent, after) = binary_message(alloc, text, room, receiver, rest)?;
        receiver = sent;
        rest = after;
    }
    Ok((receiver, rest))
}

/// A binary expression, as an argument.
#[cycle(reading)]
#[tactic(auto, unfolding(st_grammar::specs::Reading::binary_at, st_grammar::specs::Reading::any_binary_at))]
fn binary<'a>(alloc: Global, text: &[u8], room: u32, leaves: &'a [Leaf]) -> Read<'a, Expression>
    ensures { Reads result (within binary_at text.now room leaves.now) }
{
    let (receiver, rest) = primary(alloc, text, room, leaves)?;
    let (receiver, rest) = unary_messages(alloc, text, receiver, rest)?;
    let (receiver, rest) = binary_messages(alloc, text, room, receiver, rest)?;
    checked(receiver, rest)
}

/// Parts of a keyword message with one more keyword and its argument.
#[cycle(reading)]
#[tactic(auto, unfolding(st_grammar::specs::Reading::parts_step), using(st_scan::proofs::Views::views))]
fn keyword_part<'a>(
    alloc: Global,
    text: &[u8],
    room: u32,
    parts: Parts,
    leaves: &'a [Leaf],
) -> Read<'a, Parts>
    ensures { ReadsParts result (within parts_step text.now room (parts_view parts) leaves.now) }
{
    let (keyword, rest) = token(&KEYWORDS, leaves)?;
    let (argument, rest) = binary(alloc, text, room, rest)?;
    Ok((with_part(text, parts, keyword, argument)?, rest))
}

/// Parts of a keyword message with all keywords that follow, and their arguments.
#[cycle(reading)]
#[tactic(auto, unfolding(st_grammar::specs::Reading::parts_at))]
fn keyword_parts<'a>(
    alloc: Global,
    text: &[u8],
    room: u32,
    first: Parts,
    leaves: &'a [Leaf],
) -> Read<'a, Parts>
    ensures { ReadsParts result (within parts_at text.now room (parts_view first) leaves.now) }
{
    let mut parts = first;
    let mut rest = leaves;
    while starts(&KEYWORDS, rest) {
        let (longer, after) = keyword_part(alloc, text, room, parts, rest)?;
        parts = longer;
        rest = after;
    }
    Ok((parts, rest))
}

/// A receiver with the unary, binary and keyword messages that follow it.
#[cycle(reading)]
#[tactic(auto, unfolding(st_grammar::specs::Reading::messages_at, st_grammar::specs::Reading::keyword_at))]
fn messages<'a>(
    alloc: Global,
    text: &[u8],
    room: u32,
    receiver: Expression,
    leaves: &'a [Leaf],
) -> Read<'a, Expression>
    ensures { Reads result (within messages_at text.now room (expression_view receiver) leaves.now) }
{
    let (receiver, rest) = unary_messages(alloc, text, receiver, leaves)?;
    let (receiver, rest) = binary_messages(alloc, text, room, receiver, rest)?;
    let (parts, rest) = keyword_parts(alloc, text, room, no_parts(alloc), rest)?;
    Ok((send_if(alloc, receiver, parts)?, rest))
}

/// A cascade with one more message.
#[cycle(reading)]
#[tactic(auto, unfolding(st_grammar::specs::Reading::message_at, st_grammar::specs::Reading::unary_message_at, st_grammar::specs::Reading::binary_message_at, st_grammar::specs::Reading::keyword_message_at))]
fn message<'a>(
    alloc: Global,
    text: &[u8],
    room: u32,
    cascade: Expression,
    leaves: &'a [Leaf],
) -> Read<'a, Expression>
    ensures { Reads result (within message_at text.now room (expression_view cascade) leaves.now) }
{
    if starts(&NAMES, leaves) {
        with_unary(alloc, text, cascade, leaves)
    } else if starts(&OPERATORS, leaves) {
        let (operator, rest) = token(&OPERATORS, leaves)?;
        let (value, rest) = unary(alloc, text, room, rest)?;
        Ok((with_operation(alloc, text, cascade, operator, value)?, rest))
    } else {
        let (first, rest) = keyword_part(alloc, text, room, no_parts(alloc), leaves)?;
        let (parts, rest) = keyword_parts(alloc, text, room, first, rest)?;
        Ok((with_parts(cascade, parts)?, rest))
    }
}

/// A cascade with one more message, behind its semicolon.
#[cycle(reading)]
#[tactic(auto, unfolding(st_grammar::specs::Reading::cascade_step))]
fn next_message<'a>(
    alloc: Global,
    text: &[u8],
    room: u32,
    cascade: Expression,
    leaves: &'a [Leaf],
) -> Read<'a, Expression>
    ensures { Reads result (within cascade_step text.now room (expression_view cascade) leaves.now) }
{
    let (_semicolon, rest) = token(&[Kind::Semicolon], leaves)?;
    message(alloc, text, room, cascade, rest)
}

/// A cascade with all messages that follow it.
#[cycle(reading)]
#[tactic(auto, unfolding(st_grammar::specs::Reading::cascades_at))]
fn next_messages<'a>(
    alloc: Global,
    text: &[u8],
    room: u32,
    first: Expression,
    leaves: &'a [Leaf],
) -> Read<'a, Expression>
    ensures { Reads result (within cascades_at text.now room (expression_view first) leaves.now) }
{
    let mut cascade = first;
    let mut rest = leaves;
    while starts(&[Kind::Semicolon], rest) {
        let (longer, after) = next_message(alloc, text, room, cascade, rest)?;
        cascade = longer;
        rest = after;
    }
    Ok((cascade, rest))
}

/// A receiver with the messages and the cascade that follow it, if a message does.
#[cycle(reading)]
#[tactic(auto, unfolding(st_grammar::specs::Reading::sends_at))]
fn sends<'a>(
    alloc: Global,
    text: &[u8],
    room: u32,
    receiver: Expression,
    leaves: &'a [Leaf],
) -> Read<'a, Expression>
    ensures { Reads result (within sends_at text.now room (expression_view receiver) leaves.now) }
{
    if !begins_message(leaves) {
        return Ok((receiver, leaves));
    }
    let (sent, rest) = messages(alloc, text, room, receiver, leaves)?;
    next_messages(alloc, text, room, sent, rest)
}

/// A keyword expression or a cascade.
#[cycle(reading)]
#[tactic(auto, unfolding(st_grammar::specs::Reading::cascade_at, st_grammar::specs::Reading::any_cascade_at))]
fn cascade<'a>(alloc: Global, text: &[u8], room: u32, leaves: &'a [Leaf]) -> Read<'a, Expression>
    ensures { Reads result (within cascade_at text.now room leaves.now) }
{
    let (receiver, rest) = primary(alloc, text, room, leaves)?;
    let (sent, rest) = sends(alloc, text, room, receiver, rest)?;
    checked(sent, rest)
}

/// An expression: assignments and a cascade.
#[cycle(reading)]
#[tactic(auto, unfolding(st_grammar::specs::Reading::expression_at))]
fn expression<'a>(alloc: Global, text: &[u8], room: u32, leaves: &'a [Leaf]) -> Read<'a, Expression>
    ensures { Reads result (within expression_at text.now room leaves.now) }
{
    let (names, rest) = targets(alloc, text, leaves)?;
    let (value, rest) = cascade(alloc, text, room, rest)?;
    Ok((assigned(alloc, names, value)?, rest))
}

/// Statements with one more, and the period behind it.
#[cycle(reading)]
fn statement<'a>(
    alloc: Global,
    text: &[u8],
    room: u32,
    body: Body,
    leaves: &'a [Leaf],
) -> Read<'a, Body>
    ensures { ReadsBody result (within statement_step text.now room (body_view body) leaves.now) }
{
    let (returns, rest) = caret(leaves);
    let (value, rest) = expression(alloc, text, room, rest)?;
    let (period, rest) = period(rest);
    let statement = Statement { returns, value };
    Ok((with_statement(body.statements, statement, period)?, rest))
}

/// Statements with all that follow.
#[cycle(reading)]
#[tactic(auto, unfolding(st_grammar::specs::Reading::body_at))]
fn all_statements<'a>(
    alloc: Global,
    text: &[u8],
    room: u32,
    first: Body,
    leaves: &'a [Leaf],
) -> Read<'a, Body>
    ensures { ReadsBody result (within body_at text.now room (body_view first) leaves.now) }
{
    let mut body = first;
    let mut rest = leaves;
    while goes_on(&body, rest) {
        let (longer, after) = statement(alloc, text, room, body, rest)?;
        body = longer;
        rest = after;
    }
    Ok((body, rest))
}

/// Statements, maybe none.
#[cycle(reading)]
#[tactic(auto, unfolding(st_grammar::specs::Reading::statements_at))]
pub fn statements<'a>(
    alloc: Global,
    text: &[u8],
    room: u32,
    leaves: &'a [Leaf],
) -> Read<'a, StatementList>
    ensures { ReadsStatements result (within statements_at text.now room leaves.now) }
{
    let (body, rest) = all_statements(alloc, text, room, no_statements(alloc), leaves)?;
    Ok((body.statements, rest))
}

/// A block behind its arguments.
#[cycle(reading)]
#[tactic(auto, unfolding(st_grammar::specs::Reading::argument_body_at), using(st_scan::proofs::Views::views))]
fn behind_arguments<'a>(
    alloc: Global,
    text: &[u8],
    room: u32,
    names: NameList,
    leaves: &'a [Leaf],
) -> Read<'a, Expression>
    ensures { Reads result (within argument_body_at text.now room (names_view names.items) leaves.now) }
{
    if starts(&[Kind::Bar], leaves) {
        let (_bar, rest) = token(&[Kind::Bar], leaves)?;
        let (body, rest) = statements(alloc, text, room, rest)?;
        Ok((Expression::block(names, body), rest))
    } else {
        Ok((Expression::block(names, Vec::new(alloc)), leaves))
    }
}

/// What is inside a block.
#[cycle(reading)]
#[tactic(auto, unfolding(st_grammar::specs::Reading::block_at, st_grammar::specs::Reading::argument_block_at, st_grammar::specs::Reading::plain_block_at), using(st_scan::proofs::Views::views))]
fn block<'a>(alloc: Global, text: &[u8], room: u32, leaves: &'a [Leaf]) -> Read<'a, Expression>
    ensures { Reads result (within block_at text.now room leaves.now) }
{
    if starts(&[Kind::Colon], leaves) {
        let (first, rest) = parameter(alloc, text, Vec::new(alloc), leaves)?;
        let (names, rest) = parameters(alloc, text, first, rest)?;
        behind_arguments(alloc, text, room, names, rest)
    } else {
        let (body, rest) = statements(alloc, text, room, leaves)?;
        Ok((Expression::block(Vec::new(alloc), body), rest))
    }
}
