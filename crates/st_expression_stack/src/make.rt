//! The trees that are made of what is read. Their places are 0.

ghost use Rattle.std.specs.Prelude.{◌≡◌, false, IfOk, option_map, Some};
ghost use Rattle.st_scan.specs.Views.{name_view, content_view, elements_view, expression_view};
ghost use Rattle.st_scan.specs.Views.{statements_view, statement, no_statements};
ghost use Rattle.st_emit.specs.{Nodes.is_above, inside.Views.{literal_view, members_view}};
ghost use Rattle.st_expression_stack.specs.Choosing.{called, constant_text, constant_tree, small_signed, small_tree};
ghost use Rattle.st_expression_stack.specs.Choosing.{named_content, content_of, elements_of, literal_tree, received, alone};
ghost use Rattle.st_expression_stack.specs.Choosing.{one_sided_by, loop_selector};
ghost use Rattle.st_expression_stack.specs.inside.Stacks.{text_now};
ghost use Rattle.st_expression_stack.specs.inside.Made.{message_to, block_to, blocks_to, sides_to, choice_to, loop_of};

use crate::item::Statements;
use st_emit::{Constant, Literal, Lookup, constant_named};
use st_model::Oop;
use st_scan::{
    Content, Element, ElementList, Expression, ExpressionList, Message, MessageList, Name,
    NameList, Signed, Statement, StatementList, Text,
};
use std::alloc::{AllocError, Global};

/// A name without a place.
pub fn called(text: Text) -> Name
    ensures { name_view result ≡ called text.items }
{
    Name { text, place: 0 }
}

/// What a constant is called.
fn constant_text(constant: Constant) -> &'static [u8]
    ensures { result.now ≡ constant_text constant }
{
    match constant {
        Constant::Receiver => b"self".as_slice(),
        Constant::True => b"true".as_slice(),
        Constant::False => b"false".as_slice(),
        Constant::Nil => b"nil".as_slice(),
        Constant::Context => b"thisContext".as_slice(),
    }
}

/// A pseudo variable.
pub fn constant_tree(alloc: Global, constant: Constant) -> Result<Expression, AllocError>
    ensures { IfOk result (λ e. expression_view e ≡ constant_tree constant) }
{
    let text = constant_text(constant).to_vec(alloc)?;
    Ok(Expression::Variable(called(text)))
}

/// A number from -1 to 2, by one more than it.
fn small_signed(n: usize) -> Signed
    ensures { result ≡ small_signed n }
{
    if n == 0 {
        Signed {
            minus: true,
            size: 1,
        }
    } else {
        Signed {
            minus: false,
            size: (n - 1) as u128,
        }
    }
}

/// A number from -1 to 2 as an expression.
pub fn small_tree(n: usize) -> Expression
    ensures { expression_view result ≡ small_tree n }
{
    let what = Content::Number(small_signed(n));
    Expression::Literal(Element { place: 0, what })
}

/// nil, false or true in a literal array.
fn named_content(pointer: Oop) -> Content
    ensures { content_view result ≡ named_content pointer.0 }
{
    if pointer == Oop::NIL {
        Content::Nil
    } else if pointer == Oop::FALSE {
        Content::False
    } else {
        Content::True
    }
}

/// The elements of a literal array.
#[cycle(contents)]
fn elements_of(alloc: Global, members: &[Literal]) -> Result<ElementList, AllocError>
    ensures { IfOk result (λ es. elements_view es.items ≡ elements_of (members_view members.now)) }
{
    let mut elements = Vec::new(alloc);
    for member in members {
        let what = content_of(alloc, member)?;
        elements.push(Element { place: 0, what })?;
    }
    Ok(elements)
}

/// What stands in a tree for a literal.
#[cycle(contents)]
#[tactic(auto, using(st_emit::proofs::Members::array_view))]
fn content_of(alloc: Global, literal: &Literal) -> Result<Content, AllocError>
    ensures { IfOk result (λ c. content_view c ≡ content_of (literal_view literal.now)) }
{
    match literal {
        Literal::Number { minus, size } => Ok(Content::Number(Signed {
            minus: *minus,
            size: *size,
        })),
        Literal::Character(byte) => Ok(Content::Character(*byte)),
        Literal::Bytes(text) => Ok(Content::Bytes(text.to_vec(alloc)?)),
        Literal::Symbol(text) => Ok(Content::Symbol(text.to_vec(alloc)?)),
        Literal::Array(members) => Ok(Content::array(elements_of(alloc, members)?)),
        Literal::Named(pointer) => Ok(named_content(*pointer)),
        Literal::Owner => Ok(Content::Nil),
    }
}

/// A literal as an expression.
pub fn literal_tree(alloc: Global, literal: &Literal) -> Result<Expression, AllocError>
    ensures { IfOk result (λ e. expression_view e ≡ literal_tree (literal_view literal.now)) }
{
    let what = content_of(alloc, literal)?;
    Ok(Expression::Literal(Element { place: 0, what }))
}

/// What receives messages: an expression, or `super` in its place.
pub fn received(
    alloc: Global,
    lookup: Lookup,
    receiver: Expression,
) -> Result<Expression, AllocError>
    ensures { IfOk result (λ e. expression_view e ≡ received (is_above lookup) (expression_view receiver)) }
{
    match lookup {
        Lookup::InClass => Ok(receiver),
        Lookup::InSuperclass => {
            let text = b"super".as_slice().to_vec(alloc)?;
            Ok(Expression::Variable(called(text)))
        }
    }
}

/// The constant that an expression is.
fn constant_of(e: &Expression) -> Option<Constant>
    ensures { result ≡ alone (statement false (expression_view e.now) no_statements) }
{
    match e {
        Expression::Variable(name) => constant_named(&name.text),
        _ => None,
    }
}

/// The constant that a statement is.
fn constant_in(only: &Statement) -> Option<Constant>
    ensures { result ≡ alone (statement only.now.returns (expression_view only.now.value) no_statements) }
{
    if only.returns {
        None
    } else {
        constant_of(&only.value)
    }
}

/// The constant that stands alone in statements.
fn alone(statements: &[Statement]) -> Option<Constant>
    ensures { result ≡ alone (statements_view statements.now) }
{
    match statements {
        [] => None,
        [only] => constant_in(only),
        [_, _, ..] => None,
    }
}

/// The selector of the form whose other side is this constant, where the block's side is passed on this boolean.
fn one_sided_as(on: bool, other: Constant) -> Option<&'static [u8]>
    ensures { option_map text_now result ≡ one_sided_by on (Some other) }
{
    match other {
        Constant::Nil => if on {
            Some(b"ifFalse:".as_slice())
        } else {
            Some(b"ifTrue:".as_slice())
        },
        Constant::False => if on { None } else { Some(b"and:".as_slice()) },
        Constant::True => if on { Some(b"or:".as_slice()) } else { None },
        Constant::Receiver => None,
        Constant::Context => None,
    }
}

/// The selector of the form whose other side is a constant, where the block's side is passed on this boolean.
fn one_sided_by(on: bool, other: Option<Constant>) -> Option<&'static [u8]>
    ensures { option_map text_now result ≡ one_sided_by on other }
{
    match other {
        Some(constant) => one_sided_as(on, constant),
        None => None,
    }
}

/// A message with these arguments.
fn with_arguments(
    alloc: Global,
    receiver: Expression,
    selector: &[u8],
    arguments: ExpressionList,
) -> Result<Expression, AllocError>
    ensures { IfOk result (λ e. expression_view e ≡ message_to receiver selector.now arguments.items) }
{
    let selector = selector.to_vec(alloc)?;
    let mut messages: MessageList = Vec::new(alloc);
    messages.push(Message {
        selector,
        arguments,
    })?;
    Expression::send(alloc, receiver, messages)
}

/// A message with one block.
fn with_block(
    alloc: Global,
    receiver: Expression,
    selector: &[u8],
    first: StatementList,
) -> Result<Expression, AllocError>
    ensures { IfOk result (λ e. expression_view e ≡ block_to receiver selector.now first.items) }
{
    let names: NameList = Vec::new(alloc);
    let mut arguments: ExpressionList = Vec::new(alloc);
    arguments.push(Expression::block(names, first))?;
    with_arguments(alloc, receiver, selector, arguments)
}

/// A message with two blocks.
fn with_blocks(
    alloc: Global,
    receiver: Expression,
    selector: &[u8],
    first: StatementList,
    second: StatementList,
) -> Result<Expression, AllocError>
    ensures { IfOk result (λ e. expression_view e
        ≡ blocks_to receiver selector.now first.items second.items) }
{
    let mut arguments: ExpressionList = Vec::new(alloc);
    let names: NameList = Vec::new(alloc);
    arguments.push(Expression::block(names, first))?;
    let names: NameList = Vec::new(alloc);
    arguments.push(Expression::block(names, second))?;
    with_arguments(alloc, receiver, selector, arguments)
}

/// A conditional form of two blocks. The one with the less number stands first in the text.
#[tactic(auto, using(crate::proofs::TreeTurns::sides))]
fn two_sides(
    alloc: Global,
    condition: Expression,
    first: Statements,
    second: Statements,
) -> Result<Expression, AllocError>
    ensures { IfOk result (λ e. expression_view e ≡ sides_to condition first second) }
{
    if second.least < first.least {
        with_blocks(
            alloc,
            condition,
            b"ifFalse:ifTrue:".as_slice(),
            second.list,
            first.list,
        )
    } else {
        with_blocks(
            alloc,
            condition,
            b"ifTrue:ifFalse:".as_slice(),
            first.list,
            second.list,
        )
    }
}

/// A conditional form. Its first side in the code is passed on this boolean.
pub fn choice_tree(
    alloc: Global,
    on: bool,
    condition: Expression,
    first: Statements,
    second: Statements,
) -> Result<Expression, AllocError>
    ensures { IfOk result (λ e. expression_view e ≡ choice_to on condition first second) }
{
    match one_sided_by(on, alone(&second.list)) {
        Some(selector) => with_block(alloc, condition, selector, first.list),
        None => two_sides(alloc, condition, first, second),
    }
}

/// The selector of the loop that ends on this boolean.
fn loop_selector(on: bool) -> &'static [u8]
    ensures { result.now ≡ loop_selector on }
{
    if on {
        b"whileFalse:".as_slice()
    } else {
        b"whileTrue:".as_slice()
    }
}

/// A loop that ends on this boolean.
pub fn loop_tree(
    alloc: Global,
    on: bool,
    condition: StatementList,
    body: StatementList,
) -> Result<Expression, AllocError>
    ensures { IfOk result (λ e. expression_view e ≡ loop_of on condition.items body.items) }
{
    let names: NameList = Vec::new(alloc);
    let receiver = Expression::block(names, condition);
    with_block(alloc, receiver, loop_selector(on), body)
}
