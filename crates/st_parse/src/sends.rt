//! Messages, and what an expression is with one more.

ghost use Rattle.std.specs.Prelude.{◌≡◌, ◌++◌, IfOk};
ghost use Rattle.st_scan.specs.Views.{is_super, expression_view, expressions_view};
ghost use Rattle.st_grammar.specs.Leaves.{among};
ghost use Rattle.st_grammar.specs.Reading.{first, message_starts, checked_at, names_step, names_at};
ghost use Rattle.st_grammar.specs.Reading.{unary_message_at, no_parts_yet};
ghost use Rattle.st_grammar.specs.Trees.{bytes};
ghost use Rattle.st_parse.specs.inside.Phrases.{parts_view};
ghost use Rattle.st_parse.specs.inside.Answers.{Reads, Makes, MakesParts, with_keyword, sent_message, sent_parts};
ghost use Rattle.st_parse.specs.inside.Answers.{sent_operator, also_parts, also_operator, argument_of};

use crate::kinds::{MESSAGE_STARTS, NAMES};
use crate::read::Read;
use st_grammar::leaf::{Leaf, bytes_of};
use st_grammar::read::{ReadError, starts, token};
use st_scan::{Expression, ExpressionList, Message, MessageList, Text};
use std::alloc::{AllocError, Global};

/// A keyword message's selector and arguments, so far.
#[derive(Drop)]
pub struct Parts {
    pub selector: Text,
    pub arguments: ExpressionList,
}

/// No keyword yet.
pub fn no_parts(alloc: Global) -> Parts
    ensures { parts_view result ≡ no_parts_yet }
{
    Parts {
        selector: Vec::new(alloc),
        arguments: Vec::new(alloc),
    }
}

/// One more keyword with its argument.
#[tactic(auto, using(st_scan::proofs::Views::views))]
pub fn with_part(
    text: &[u8],
    parts: Parts,
    keyword: Leaf,
    argument: Expression,
) -> Result<Parts, AllocError>
    ensures { IfOk result (MakesParts (with_keyword text.now parts keyword argument)) }
{
    let mut selector = parts.selector;
    let mut arguments = parts.arguments;
    selector.extend_from_slice(bytes_of(text, keyword.token))?;
    arguments.push(argument)?;
    Ok(Parts {
        selector,
        arguments,
    })
}

/// One message to a receiver.
#[tactic(auto, using(st_scan::proofs::Views::views))]
fn send(alloc: Global, receiver: Expression, message: Message) -> Result<Expression, AllocError>
    ensures { IfOk result (Makes (sent_message receiver message)) }
{
    let mut messages: MessageList = Vec::new(alloc);
    messages.push(message)?;
    Expression::send(alloc, receiver, messages)
}

/// A keyword message to a receiver, where there are arguments.
#[tactic(auto, using(st_scan::proofs::Views::views))]
pub fn send_if(alloc: Global, receiver: Expression, parts: Parts) -> Result<Expression, AllocError>
    ensures { IfOk result (Makes (sent_parts receiver parts)) }
{
    if parts.arguments.is_empty() {
        return Ok(receiver);
    }
    let message = Message {
        selector: parts.selector,
        arguments: parts.arguments,
    };
    send(alloc, receiver, message)
}

/// A list of one expression.
fn one(alloc: Global, e: Expression) -> Result<ExpressionList, AllocError>
    ensures { IfOk result (λ l. expressions_view l.items ≡ argument_of e) }
{
    let mut list = Vec::new(alloc);
    list.push(e)?;
    Ok(list)
}

/// A message whose selector is a leaf's bytes.
fn message_by(
    alloc: Global,
    text: &[u8],
    leaf: Leaf,
    arguments: ExpressionList,
) -> Result<Message, AllocError>
    ensures selector { IfOk result (λ m. m.selector.items ≡ bytes text.now leaf) }
    ensures arguments { IfOk result (λ m. m.arguments ≡ arguments) }
{
    let selector = bytes_of(text, leaf.token).to_vec(alloc)?;
    Ok(Message {
        selector,
        arguments,
    })
}

/// A binary message to a receiver.
pub fn operation(
    alloc: Global,
    text: &[u8],
    receiver: Expression,
    operator: Leaf,
    argument: Expression,
) -> Result<Expression, AllocError>
    ensures { IfOk result (Makes (sent_operator text.now receiver operator argument)) }
{
    let arguments = one(alloc, argument)?;
    let message = message_by(alloc, text, operator, arguments)?;
    send(alloc, receiver, message)
}

/// Whether this is a variable `super`, which stands only before a message.
fn is_super(e: &Expression) -> bool
    ensures { result ≡ is_super (expression_view e.now) }
{
    match e {
        Expression::Variable(name) => name.text.as_slice() == b"super".as_slice(),
        _ => false,
    }
}

/// An expression that is no `super` without a message.
#[tactic(auto, unfolding(st_grammar::specs::Reading::checked_at))]
pub fn checked<'a>(e: Expression, leaves: &'a [Leaf]) -> Read<'a, Expression>
    ensures { Reads result (checked_at (expression_view e) leaves.now) }
{
    if is_super(&e) {
        return Err(ReadError::expected(leaves));
    }
    Ok((e, leaves))
}

/// A receiver with one unary message.
#[tactic(auto, unfolding(st_grammar::specs::Reading::names_step))]
fn unary_message<'a>(
    alloc: Global,
    text: &[u8],
    receiver: Expression,
    leaves: &'a [Leaf],
) -> Read<'a, Expression>
    ensures { Reads result (names_step text.now (expression_view receiver) leaves.now) }
{
    let (leaf, rest) = token(&NAMES, leaves)?;
    let message = message_by(alloc, text, leaf, Vec::new(alloc))?;
    Ok((send(alloc, receiver, message)?, rest))
}

/// A receiver with all unary messages that follow it.
#[tactic(auto, unfolding(st_grammar::specs::Reading::names_at))]
pub fn unary_messages<'a>(
    alloc: Global,
    text: &[u8],
    first: Expression,
    leaves: &'a [Leaf],
) -> Read<'a, Expression>
    ensures { Reads result (names_at text.now (expression_view first) leaves.now) }
{
    let mut receiver = first;
    let mut rest = leaves;
    while starts(&NAMES, rest) {
        let (sent, after) = unary_message(alloc, text, receiver, rest)?;
        receiver = sent;
        rest = after;
    }
    Ok((receiver, rest))
}

/// Whether a message stands first.
pub fn begins_message(leaves: &[Leaf]) -> bool
    ensures { result ≡ first (among message_starts) leaves.now }
{
    starts(&MESSAGE_STARTS, leaves)
}

/// A cascade with one more unary message.
#[tactic(auto, unfolding(st_grammar::specs::Reading::unary_message_at))]
pub fn with_unary<'a>(
    alloc: Global,
    text: &[u8],
    cascade: Expression,
    leaves: &'a [Leaf],
) -> Read<'a, Expression>
    ensures { Reads result (unary_message_at text.now (expression_view cascade) leaves.now) }
{
    let (leaf, rest) = token(&NAMES, leaves)?;
    let message = message_by(alloc, text, leaf, Vec::new(alloc))?;
    Ok((cascade.with_sent(message)?, rest))
}

/// A cascade with one more binary message.
pub fn with_operation(
    alloc: Global,
    text: &[u8],
    cascade: Expression,
    operator: Leaf,
    argument: Expression,
) -> Result<Expression, AllocError>
    ensures { IfOk result (Makes (also_operator text.now cascade operator argument)) }
{
    let arguments = one(alloc, argument)?;
    cascade.with_sent(message_by(alloc, text, operator, arguments)?)
}

/// A cascade with one more keyword message.
pub fn with_parts(cascade: Expression, parts: Parts) -> Result<Expression, AllocError>
    ensures { IfOk result (Makes (also_parts cascade parts)) }
{
    let message = Message {
        selector: parts.selector,
        arguments: parts.arguments,
    };
    cascade.with_sent(message)
}
