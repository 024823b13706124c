//! Nodes of a tree as they are made. A walk goes along an expression's chain, so that it is as deep as the brackets of its
//! text.

ghost use Rattle.std.specs.Prelude.{◌≡◌, ◌<◌, ◌≤◌, ◌++◌, ◌∷◌, [], IfOk, OnOk, length};
ghost use Rattle.st_scan.specs.Views.{name_view, content_view, expression_view, messages_view};
ghost use Rattle.st_scan.specs.inside.Chains.{IsStart as IsFirst};
ghost use Rattle.st_emit.specs.inside.Around.{context};
ghost use Rattle.st_emit.specs.inside.Emits.{after, after_all, after_messages, after_loop, after_link, after_chain};
ghost use Rattle.st_emit.specs.{inside.Emits.{after_statements, after_begun, BeginsNoLoop}, Nodes.is_above};
ghost use Rattle.st_emit.specs.{Resolving.{name_node, content_node, number_node}, inside.Shapes.IsCascade};
ghost use Rattle.st_meaning.specs.inside.Meant.{IsNode, IsStart, IsAct, IsArguments, IsBody};
ghost use Rattle.st_meaning.specs.inside.Sketches.{IsFew, Builds, MakesMessage, MakesMessages, MakesSends, literals_of, node_naming};
ghost use Rattle.st_meaning.specs.inside.Sketches.{chain_naming, begun_naming, arguments_naming, sent_naming, two_naming};
ghost use Rattle.st_meaning.specs.inside.Sketches.{link_naming, body_naming, loop_naming};

use crate::arena::{Act, Arena, Message, MessageList, Node, NodePlaces, Start, Statements};
use crate::code::{constant_value, number_value, small_value};
use crate::deed::Value;
use crate::short::{byte_of, variable_of};
use st_emit::{
    Around, Draft, Literal, Lookup, Repetition, Shape, TwoSided, by_selector, constant_named,
    emit_value, first_repetition, literal_of, lookup_behind, names_in_statements, only_message,
    place_of_name, shape_of, small_number,
};
use st_scan::{Content, Expression, Link, Message as Sent, Name, Signed, Statement};
use std::alloc::{AllocError, Global};

/// Nodes as they are made, and the literals that are named so far.
#[derive(Drop)]
pub struct Sketch {
    pub draft: Draft,
    pub nodes: Arena,
}

impl Sketch {
    /// Nothing yet.
    pub fn new(alloc: Global) -> Sketch
        ensures draft { literals_of result ≡ [] }
        ensures nodes { result.nodes.items ≡ [] }
    {
        Sketch {
            draft: Draft::new(alloc),
            nodes: Vec::new(alloc),
        }
    }

    /// A node more: its place.
    fn put(&mut self, node: Node) -> Result<usize, AllocError>
        ensures place { IfOk result (λ i. i ≡ length self.old.nodes.items) }
        ensures nodes { OnOk result (self.new.nodes.items ≡ self.old.nodes.items ++ node ∷ []) }
        ensures draft { self.new.draft ≡ self.old.draft }
    {
        let place = self.nodes.len();
        self.nodes.push(node)?;
        Ok(place)
    }
}

/// What a name means.
fn named(sketch: &mut Sketch, around: Around<'_>, name: &Name) -> Result<Start, AllocError>
    requires { IsFew around }
    ensures { IfOk result (λ s. Builds (name_node (context around.entry) (name_view name.now)) (IsStart s)
        sketch.old sketch.new) }
{
    match constant_named(&name.text) {
        Some(constant) => Ok(Start::Known(constant_value(constant))),
        None => {
            let place = place_of_name(&mut sketch.draft, around, name)?;
            Ok(Start::Held(variable_of(place)))
        }
    }
}

/// A number.
fn number(sketch: &mut Sketch, n: Signed) -> Result<Start, AllocError>
    ensures { IfOk result (λ s. Builds (number_node n) (IsStart s) sketch.old sketch.new) }
{
    if let Some(small) = small_number(n) {
        return Ok(Start::Known(small_value(small)));
    }
    let place = sketch.draft.named(Literal::Number {
        minus: n.minus,
        size: n.size,
    })?;
    Ok(Start::Known(number_value(n, byte_of(place))))
}

/// A literal.
fn literal(alloc: Global, sketch: &mut Sketch, what: &Content) -> Result<Start, AllocError>
    ensures { IfOk result (λ s. Builds (content_node (content_view what.now)) (IsStart s)
        sketch.old sketch.new) }
{
    if let Content::Number(n) = what {
        return number(sketch, *n);
    }
    let place = sketch.draft.named(literal_of(alloc, what)?)?;
    Ok(Start::Known(Value::Literal(byte_of(place))))
}

/// Arguments, in order; and the next number.
#[cycle(sketching)]
fn arguments(
    alloc: Global,
    sketch: &mut Sketch,
    around: Around<'_>,
    es: &[Expression],
) -> Result<(NodePlaces, usize), AllocError>
    requires { IsFew around }
    ensures built { IfOk result (λ r.
        Builds (arguments_naming around.entry es.now) (IsArguments r.0.items) sketch.old sketch.new) }
    ensures next { IfOk result (λ r. r.1 ≡ after_all around.entry es.now) }
{
    let mut places = Vec::new(alloc);
    let mut next = around.next;
    for e in es {
        let (place, behind) = value(alloc, sketch, Around { next, ..around }, e)?;
        places.push(place)?;
        next = behind;
    }
    Ok((places, next))
}

/// One message that is no conditional form.
#[cycle(sketching)]
fn message(
    alloc: Global,
    sketch: &mut Sketch,
    around: Around<'_>,
    lookup: Lookup,
    m: &Sent,
) -> Result<(Message, usize), AllocError>
    requires { IsFew around }
    ensures built { IfOk result (λ r.
        MakesMessage (is_above lookup) around.entry m.now sketch.old sketch.new r.0) }
    ensures next { IfOk result (λ r. r.1 ≡ after_all around.entry m.now.arguments.items) }
{
    let (arguments, next) = arguments(alloc, sketch, around, &m.arguments)?;
    by_selector(alloc, &mut sketch.draft, lookup, &m.selector)?;
    let selector = m.selector.to_vec(alloc)?;
    Ok((
        Message {
            selector,
            arguments,
        },
        next,
    ))
}

/// The messages of a cascade.
#[cycle(sketching)]
fn cascade(
    alloc: Global,
    sketch: &mut Sketch,
    around: Around<'_>,
    lookup: Lookup,
    messages: &[Sent],
) -> Result<(MessageList, usize), AllocError>
    requires { IsFew around }
    ensures built { IfOk result (λ r.
        MakesMessages (is_above lookup) around.entry messages.now sketch.old sketch.new r.0.items) }
    ensures next { IfOk result (λ r. r.1 ≡ after_messages around.entry messages.now) }
{
    let mut made = Vec::new(alloc);
    let mut next = around.next;
    for m in messages {
        let (one, behind) = message(alloc, sketch, Around { next, ..around }, lookup, m)?;
        made.push(one)?;
        next = behind;
    }
    Ok((made, next))
}

/// A message without others.
fn alone(alloc: Global, message: Message) -> Result<MessageList, AllocError>
    ensures { IfOk result (λ list. list.items ≡ message ∷ []) }
{
    Ok(vec![in alloc; message]?)
}

/// One message to another receiver than super.
#[cycle(sketching)]
fn sent(
    alloc: Global,
    sketch: &mut Sketch,
    around: Around<'_>,
    m: &Sent,
) -> Result<(Act, usize), AllocError>
    requires { IsFew around }
    ensures built { IfOk result (λ r.
        Builds (sent_naming around.entry m.now) (IsAct r.0) sketch.old sketch.new) }
    ensures next { IfOk result (λ r. r.1 ≡ after_all around.entry m.now.arguments.items) }
{
    match shape_of(m) {
        Shape::Plain => {
            let (one, next) = message(alloc, sketch, around, Lookup::InClass, m)?;
            let list = alone(alloc, one)?;
            Ok((Act::Send(false, list), next))
        }
        Shape::One(side, a) => {
            let (inside, next) = body(alloc, sketch, around, a)?;
            Ok((Act::One(side, inside), next))
        }
        Shape::Two(side, a, b) => {
            let behind = names_in_statements(around.next, a)?;
            two_sided(
                alloc,
                sketch,
                around,
                Around {
                    next: behind,
                    ..around
                },
                side,
                a,
                b,
            )
        }
    }
}

/// A form with two blocks. Of `ifFalse:ifTrue:` the second one's code stands first.
#[cycle(sketching)]
fn two_sided(
    alloc: Global,
    sketch: &mut Sketch,
    around: Around<'_>,
    behind: Around<'_>,
    side: TwoSided,
    a: &[Statement],
    b: &[Statement],
) -> Result<(Act, usize), AllocError>
    requires few { IsFew around }
    requires few_behind { IsFew behind }
    ensures built { IfOk result (λ r.
        Builds (two_naming side around.entry behind.entry a.now b.now) (IsAct r.0) sketch.old sketch.new) }
    ensures next { IfOk result (λ r. r.1 ≡ after_statements behind.entry b.now) }
{
    match side {
        TwoSided::TrueFirst => {
            let (first, _) = body(alloc, sketch, around, a)?;
            let (second, next) = body(alloc, sketch, behind, b)?;
            Ok((Act::Two(side, first, second), next))
        }
        TwoSided::FalseFirst => {
            let (second, next) = body(alloc, sketch, behind, b)?;
            let (first, _) = body(alloc, sketch, around, a)?;
            Ok((Act::Two(side, first, second), next))
        }
    }
}

/// What a link does. A loop is no link.
#[cycle(sketching)]
fn linked(
    alloc: Global,
    sketch: &mut Sketch,
    around: Around<'_>,
    lookup: Lookup,
    link: Link<'_>,
) -> Result<(Act, usize), AllocError>
    requires { IsFew around }
    ensures built { IfOk result (λ r.
        Builds (link_naming (is_above lookup) around.entry link.entry) (IsAct r.0) sketch.old sketch.new) }
    ensures next { IfOk result (λ r. r.1 ≡ after_link around.entry link.entry) }
{
    match link {
        Link::Assign(target) => {
            let place = place_of_name(&mut sketch.draft, around, target)?;
            Ok((Act::Assign(variable_of(place)), around.next))
        }
        Link::Send(messages) => match only_message(lookup, messages) {
            Some(m) => sent(alloc, sketch, around, m),
            None => sends(alloc, sketch, around, lookup, messages),
        },
    }
}

/// Whether messages go to super.
fn is_above(lookup: Lookup) -> bool
    ensures { result ≡ is_above lookup }
{
    matches!(lookup, Lookup::InSuperclass)
}

/// Messages that are no conditional form. No tree of a text has a send without messages.
#[cycle(sketching)]
fn sends(
    alloc: Global,
    sketch: &mut Sketch,
    around: Around<'_>,
    lookup: Lookup,
    messages: &[Sent],
) -> Result<(Act, usize), AllocError>
    requires few { IsFew around }
    requires cascade { IsCascade (is_above lookup) (messages_view messages.now) }
    ensures built { IfOk result (λ r.
        MakesSends (is_above lookup) around.entry messages.now sketch.old sketch.new r.0) }
    ensures next { IfOk result (λ r. r.1 ≡ after_messages around.entry messages.now) }
{
    let above = is_above(lookup);
    if messages.is_empty() {
        by_selector(alloc, &mut sketch.draft, lookup, &[])?;
        let one = Message {
            selector: Vec::new(alloc),
            arguments: Vec::new(alloc),
        };
        let list = alone(alloc, one)?;
        return Ok((Act::Send(above, list), around.next));
    }
    let (made, next) = cascade(alloc, sketch, around, lookup, messages)?;
    Ok((Act::Send(above, made), next))
}

/// The statements of a block of a form, or of a method.
#[cycle(sketching)]
pub fn body(
    alloc: Global,
    sketch: &mut Sketch,
    around: Around<'_>,
    statements: &[Statement],
) -> Result<(Statements, usize), AllocError>
    requires { IsFew around }
    ensures built { IfOk result (λ r.
        Builds (body_naming around.entry statements.now) (IsBody r.0) sketch.old sketch.new) }
    ensures next { IfOk result (λ r. r.1 ≡ after_statements around.entry statements.now) }
{
    let mut nodes = Vec::new(alloc);
    let mut next = around.next;
    for s in statements {
        let (place, behind) = value(alloc, sketch, Around { next, ..around }, &s.value)?;
        nodes.push(place)?;
        next = behind;
        if s.returns {
            return Ok((
                Statements {
                    nodes,
                    returns: true,
                },
                next,
            ));
        }
    }
    Ok((
        Statements {
            nodes,
            returns: false,
        },
        next,
    ))
}

/// A loop.
#[cycle(sketching)]
fn looped(
    alloc: Global,
    sketch: &mut Sketch,
    around: Around<'_>,
    repetition: Repetition<'_>,
) -> Result<(Start, usize), AllocError>
    requires { IsFew around }
    ensures built { IfOk result (λ r.
        Builds (loop_naming around.entry repetition.entry) (IsStart r.0) sketch.old sketch.new) }
    ensures next { IfOk result (λ r. r.1 ≡ after_loop around.entry repetition.entry) }
{
    let (condition, next) = body(alloc, sketch, around, repetition.condition)?;
    let (repeated, next) = body(alloc, sketch, Around { next, ..around }, repetition.body)?;
    Ok((Start::Loop(repetition.kind, condition, repeated), next))
}

/// A variable, a literal or a block. Of a block only the literals are named: what it does is no deed of its method.
fn begun(
    alloc: Global,
    sketch: &mut Sketch,
    around: Around<'_>,
    e: &Expression,
) -> Result<(Start, usize), AllocError>
    requires few { IsFew around }
    requires first { IsFirst (expression_view e.now) }
    ensures built { IfOk result (λ r.
        Builds (node_naming around.entry e.now) (IsStart r.0) sketch.old sketch.new) }
    ensures next { IfOk result (λ r. r.1 ≡ after around.entry e.now) }
{
    match e {
        Expression::Variable(name) => Ok((named(sketch, around, name)?, around.next)),
        Expression::Literal(element) => Ok((literal(alloc, sketch, &element.what)?, around.next)),
        Expression::Block { .. } => {
            let next = emit_value(alloc, &mut sketch.draft, around, e)?;
            Ok((Start::Block, next))
        }
        Expression::Assign { .. } | Expression::Send { .. } => unreachable!(),
    }
}

/// What an expression begins with: a loop, which is its first part with its first link, or its first part. Gives the
/// next number too, and how many links were taken.
#[cycle(sketching)]
fn beginning<'t>(
    alloc: Global,
    sketch: &mut Sketch,
    around: Around<'_>,
    first: &'t Expression,
    links: &[Link<'t>],
) -> Result<(Start, usize, usize), AllocError>
    requires few { IsFew around }
    requires first { IsFirst (expression_view first.now) }
    ensures built { IfOk result (λ r.
        Builds (begun_naming around.entry first.now links.now r.2) (IsStart r.0) sketch.old sketch.new) }
    ensures next { IfOk result (λ r. r.1 ≡ after_begun around.entry first.now links.now r.2) }
    ensures within { IfOk result (λ r. r.2 ≤ length links.now) }
    ensures no_loop { IfOk result (λ r. r.2 ≡ 0 → BeginsNoLoop first.now links.now) }
{
    match first_repetition(first, links) {
        Some(repetition) => {
            let (start, next) = looped(alloc, sketch, around, repetition)?;
            Ok((start, next, 1))
        }
        None => {
            let (start, next) = begun(alloc, sketch, around, first)?;
            Ok((start, next, 0))
        }
    }
}

/// What an expression begins with, and its links in order.
#[cycle(sketching)]
fn follow<'t>(
    alloc: Global,
    sketch: &mut Sketch,
    around: Around<'_>,
    first: &'t Expression,
    links: &[Link<'t>],
) -> Result<(usize, usize), AllocError>
    requires few { IsFew around }
    requires first { IsFirst (expression_view first.now) }
    ensures built { IfOk result (λ r.
        Builds (chain_naming around.entry first.now links.now) (IsNode r.0) sketch.old sketch.new) }
    ensures next { IfOk result (λ r. r.1 ≡ after_chain around.entry first.now links.now) }
{
    let (start, mut next, taken) = beginning(alloc, sketch, around, first, links)?;
    let mut node = Node {
        start,
        acts: Vec::new(alloc),
    };
    for i in taken..links.len() {
        let lookup = lookup_behind(i, first);
        let (act, behind) = linked(alloc, sketch, Around { next, ..around }, lookup, links[i])?;
        node.acts.push(act)?;
        next = behind;
    }
    let place = sketch.put(node)?;
    Ok((place, next))
}

/// The node of an expression: its place, and the next number.
#[cycle(sketching)]
fn value(
    alloc: Global,
    sketch: &mut Sketch,
    around: Around<'_>,
    e: &Expression,
) -> Result<(usize, usize), AllocError>
    requires { IsFew around }
    ensures built { IfOk result (λ r.
        Builds (node_naming around.entry e.now) (IsNode r.0) sketch.old sketch.new) }
    ensures next { IfOk result (λ r. r.1 ≡ after around.entry e.now) }
{
    let chain = e.chain(alloc)?;
    follow(alloc, sketch, around, chain.start, &chain.links)
}
