//! Which form a message has.

ghost use Rattle.std.specs.Prelude.{◌≡◌, ◌<◌, ◌≤◌, IfSome, MatchOption, option_map, length};
ghost use Rattle.st_scan.specs.declared.tree.Expression.{size-Expression};
ghost use Rattle.st_scan.specs.declared.tree.Message.{size-Message};
ghost use Rattle.st_scan.specs.Views.{expression_view, expressions_view, statements_view, is_super};
ghost use Rattle.st_scan.specs.inside.Chains.{link_size, links_size};
ghost use Rattle.st_emit.specs.inside.Shapes.{shape_view, one_sided_shape, two_sided_shape, repetition_view, returning, returned_constant};
ghost use Rattle.st_emit.specs.inside.Found.{statements_size, messages_size, message_shape, loop_of, loop_by, loop_among, loop_linked};
ghost use Rattle.st_emit.specs.inside.Found.{first_loop, IsNotPlain, IsPlain, IsUnassigned, IsAssignment, IsBefore, EndsAtOnce};
ghost use Rattle.st_emit.specs.inside.Found.{IsFirstOf, IsOnlyOrNone};
ghost use Rattle.st_emit.specs.inside.Sizes.{IsShapeBelow};

use crate::form::{Form, Lookup, Loop, OneSided, TwoSided};
use crate::instruction::Constant;
use crate::names::constant_named;
use crate::selector::form_named;
use st_scan::{Expression, Link, Message, Name, Statement};

/// A message that is sent, or a conditional form with the statements of its blocks, in the order of the text.
#[derive(Clone, Copy)]
pub enum Shape<'t> {
    Plain,
    One(OneSided, &'t [Statement]),
    Two(TwoSided, &'t [Statement], &'t [Statement]),
}

/// What stands last in a conditional form.
#[derive(Clone, Copy)]
pub enum Side<'t> {
    Constant(Constant),
    Statements(&'t [Statement]),
}

/// A conditional form behind its receiver: the boolean on which its first side is passed, that side, and the other one,
/// whose variables are numbered from `behind` on.
#[derive(Clone, Copy)]
pub struct Choice<'t> {
    pub on: bool,
    pub first: &'t [Statement],
    pub behind: usize,
    pub other: Side<'t>,
}

/// A loop, with the statements of its two blocks.
#[derive(Clone, Copy)]
pub struct Repetition<'t> {
    pub kind: Loop,
    pub condition: &'t [Statement],
    pub body: &'t [Statement],
}

/// Whether an expression is the name super.
pub fn is_super(e: &Expression) -> bool
    ensures { result ≡ is_super (expression_view e.now) }
{
    match e {
        Expression::Variable(n) => n.text.as_slice() == b"super".as_slice(),
        _ => false,
    }
}

/// The statements of an expression that is a block without arguments.
#[tactic(auto, using(st_scan::proofs::Views::views))]
fn plain_body(e: &Expression) -> Option<&[Statement]>
    ensures view { MatchOption result (IsNotPlain e.now) (λ b. IsPlain e.now b.now) }
    ensures below { IfSome result (λ b. statements_size b.now < size-Expression e.now) }
{
    match e {
        Expression::Variable(_) => None,
        Expression::Literal(_) => None,
        Expression::Assign { .. } => None,
        Expression::Send { .. } => None,
        Expression::Block { names, body } => match names.as_slice() {
            [] => Some(body),
            _ => None,
        },
    }
}

/// A form with one block.
fn one_sided(side: OneSided, m: &Message) -> Shape<'_>
    ensures shape { shape_view result ≡ one_sided_shape side (expressions_view m.now.arguments.items) }
    ensures below { IsShapeBelow (size-Message m.now) result }
{
    match m.arguments.as_slice() {
        [a] => match plain_body(a) {
            Some(statements) => Shape::One(side, statements),
            None => Shape::Plain,
        },
        [] => Shape::Plain,
        [_, _, ..] => Shape::Plain,
    }
}

/// A form with two blocks.
fn two_sided(side: TwoSided, m: &Message) -> Shape<'_>
    ensures shape { shape_view result ≡ two_sided_shape side (expressions_view m.now.arguments.items) }
    ensures below { IsShapeBelow (size-Message m.now) result }
{
    match m.arguments.as_slice() {
        [a, b] => match plain_body(a) {
            Some(first) => match plain_body(b) {
                Some(second) => Shape::Two(side, first, second),
                None => Shape::Plain,
            },
            None => Shape::Plain,
        },
        [] => Shape::Plain,
        [_] => Shape::Plain,
        [_, _, _, ..] => Shape::Plain,
    }
}

/// The shape of one message to another receiver than super.
pub fn shape_of(m: &Message) -> Shape<'_>
    ensures shape { shape_view result ≡ message_shape m.now }
    ensures below { IsShapeBelow (size-Message m.now) result }
{
    match form_named(&m.selector) {
        Form::One(side) => one_sided(side, m),
        Form::Two(side) => two_sided(side, m),
        _ => Shape::Plain,
    }
}

/// The loop of these blocks, if the selector is that of one.
fn repeated<'t>(
    m: &Message,
    start: &'t Expression,
    argument: &'t Expression,
) -> Option<Repetition<'t>>
    ensures repetition { option_map repetition_view result ≡ loop_of m.now start.now argument.now }
    ensures condition { IfSome result (λ r. statements_size r.condition.now < size-Expression start.now) }
    ensures body { IfSome result (λ r. statements_size r.body.now < size-Expression argument.now) }
{
    let Form::Repeated(kind) = form_named(&m.selector) else {
        return None;
    };
    Some(Repetition {
        kind,
        condition: plain_body(start)?,
        body: plain_body(argument)?,
    })
}

/// The loop that an expression is with its first message.
fn repetition_with<'t>(start: &'t Expression, m: &'t Message) -> Option<Repetition<'t>>
    ensures repetition { option_map repetition_view result ≡ loop_by m.now start.now }
    ensures condition { IfSome result (λ r. statements_size r.condition.now < size-Expression start.now) }
    ensures body { IfSome result (λ r. statements_size r.body.now < size-Message m.now) }
{
    match m.arguments.as_slice() {
        [a] => repeated(m, start, a),
        [] => None,
        [_, _, ..] => None,
    }
}

/// The loop that an expression is with the messages of its first link.
fn repetition_among<'t>(start: &'t Expression, messages: &'t [Message]) -> Option<Repetition<'t>>
    ensures repetition { option_map repetition_view result ≡ loop_among messages.now start.now }
    ensures condition { IfSome result (λ r. statements_size r.condition.now < size-Expression start.now) }
    ensures body { IfSome result (λ r. statements_size r.body.now < messages_size messages.now) }
{
    match messages {
        [m] => repetition_with(start, m),
        [] => None,
        [_, _, ..] => None,
    }
}

/// The loop that an expression is with its first link.
fn repetition_of<'t>(start: &'t Expression, link: Link<'t>) -> Option<Repetition<'t>>
    ensures repetition { option_map repetition_view result ≡ loop_linked link.entry start.now }
    ensures condition { IfSome result (λ r. statements_size r.condition.now < size-Expression start.now) }
    ensures body { IfSome result (λ r. statements_size r.body.now < link_size link.entry) }
{
    match link {
        Link::Assign(_) => None,
        Link::Send(messages) => repetition_among(start, messages),
    }
}

/// The loop that an expression begins with.
pub fn first_repetition<'t>(start: &'t Expression, links: &[Link<'t>]) -> Option<Repetition<'t>>
    ensures repetition { option_map repetition_view result ≡ first_loop links.now start.now }
    ensures condition { IfSome result (λ r. statements_size r.condition.now < size-Expression start.now) }
    ensures body { IfSome result (λ r. statements_size r.body.now < links_size links.now) }
{
    match links {
        [] => None,
        [link, ..] => repetition_of(start, *link),
    }
}

/// Whether statements end with one after `^`.
pub fn returning(statements: &[Statement]) -> bool
    ensures { result ≡ returning (statements_view statements.now) }
{
    for s in statements {
        if s.returns {
            return true;
        }
    }
    false
}

/// The constant that is returned by a code of its own.
pub fn returned_constant(e: &Expression) -> Option<Constant>
    ensures { result ≡ returned_constant (expression_view e.now) }
{
    match e {
        Expression::Variable(n) => match constant_named(&n.text) {
            Some(Constant::Context) => None,
            constant => constant,
        },
        _ => None,
    }
}

/// An assignment's target and value.
pub fn assigned(e: &Expression) -> Option<(&Name, &Expression)>
    ensures view { MatchOption result (IsUnassigned e.now) (λ x. IsAssignment e.now x.0.now x.1.now) }
    ensures below { IfSome result (λ x. size-Expression x.1.now < size-Expression e.now) }
{
    match e {
        Expression::Assign { target, value } => Some((target, value)),
        Expression::Variable(_) => None,
        Expression::Literal(_) => None,
        Expression::Block { .. } => None,
        Expression::Send { .. } => None,
    }
}

/// The first of two or more statements, if it doesn't return, and the others.
pub fn not_last(statements: &[Statement]) -> Option<(&Expression, &[Statement])>
    ensures view { IfSome result (λ x. IsBefore statements.now x.0.now x.1.now) }
    ensures end { MatchOption result (EndsAtOnce statements.now) (λ x. 0 < length x.1.now) }
    ensures fewer { IfSome result (λ x. length x.1.now < length statements.now) }
    ensures first { IfSome result (λ x. size-Expression x.0.now ≤ statements_size statements.now) }
    ensures others { IfSome result (λ x. statements_size x.1.now ≤ statements_size statements.now) }
{
    match statements {
        [
            Statement {
                returns: false,
                value,
            },
            others @ ..,
        ] if !others.is_empty() => Some((value, others)),
        _ => None,
    }
}

/// The first of two or more messages, and the others.
pub fn before_others(messages: &[Message]) -> Option<(&Message, &[Message])>
    ensures view { IfSome result (λ x. IsFirstOf messages.now x.0.now x.1.now) }
    ensures end { MatchOption result (length messages.now ≤ 1) (λ x. 0 < length x.1.now) }
    ensures fewer { IfSome result (λ x. length x.1.now < length messages.now) }
    ensures first { IfSome result (λ x. size-Message x.0.now ≤ messages_size messages.now) }
    ensures others { IfSome result (λ x. messages_size x.1.now ≤ messages_size messages.now) }
{
    match messages {
        [m, others @ ..] if !others.is_empty() => Some((m, others)),
        _ => None,
    }
}

/// The one message to another receiver than super.
pub fn only_message(lookup: Lookup, messages: &[Message]) -> Option<&Message>
    ensures view { IsOnlyOrNone lookup messages.now result }
    ensures within { IfSome result (λ m. size-Message m.now ≤ messages_size messages.now) }
{
    if matches!(lookup, Lookup::InSuperclass) {
        return None;
    }
    match messages {
        [m] => Some(m),
        [] => None,
        [_, _, ..] => None,
    }
}
