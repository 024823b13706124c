//! The faults of names and numbers, each at its token: the first one in the text. A walk goes along an expression's
//! chain: the assigned names from the outside in, what the chain starts with, and the messages from the inside out.

ghost use Rattle.std.specs.Prelude.{◌≡◌, []};
ghost use Rattle.st_scan.specs.Views.{number, name_view, names_view as list_view, content_view};
ghost use Rattle.st_scan.specs.Views.{elements_view, expression_view, expressions_view, messages_view};
ghost use Rattle.st_scan.specs.Views.{statements_view};
ghost use Rattle.st_scan.specs.inside.Chains.{link_view, links_view, IsStart};
ghost use Rattle.st_code.specs.Faults.{read_fault, store_fault, declare_fault, content_fault, elements_fault};
ghost use Rattle.st_code.specs.Faults.{expression_fault, expressions_fault, messages_fault, statements_fault};
ghost use Rattle.st_emit.specs.inside.NameViews.{scope_view};
ghost use Rattle.st_code.specs.inside.ChainFaults.{target_fault, targets_fault, all_sent_fault};
ghost use Rattle.st_code.specs.Reported.{Reports};
ghost use Rattle.st_code.specs.inside.Arounds.{looked_up, walked, once_fault, block_around, chained};

use crate::fault::{Cause, CodeFault, Fault};
use st_emit::{
    Around, DeclaredNames, Variable, constant_named, inner_scope, is_among, is_declared, places_of,
    variable_named,
};
use st_scan::{Content, Element, Expression, Link, Message, Name, Signed, Statement};
use std::alloc::Global;

/// The size of the least number.
const LEAST_SIZE: u128 = 16_384;

/// A name that is read has to mean something.
fn read(around: Around<'_>, n: &Name) -> Result<(), CodeFault>
    ensures { Reports (looked_up read_fault around.entry (name_view n.now)) result }
{
    if constant_named(&n.text).is_some() {
        return Ok(());
    }
    match variable_named(around.names, around.scope, &n.text)? {
        Some(_) => Ok(()),
        None => {
            let fault = Fault {
                place: n.place,
                cause: Cause::Unknown,
            };
            Err(fault.into())
        }
    }
}

/// A name that is stored into has to mean what may be stored into.
fn stored(around: Around<'_>, n: &Name) -> Result<(), CodeFault>
    ensures { Reports (looked_up store_fault around.entry (name_view n.now)) result }
{
    if constant_named(&n.text).is_some() {
        return Err(Fault {
            place: n.place,
            cause: Cause::Store,
        }
        .into());
    }
    match variable_named(around.names, around.scope, &n.text)? {
        Some(
            Variable::Temporary {
                assignable: false,
                ..
            },
        ) => Err(Fault {
            place: n.place,
            cause: Cause::Store,
        }
        .into()),
        Some(_) => Ok(()),
        None => Err(Fault {
            place: n.place,
            cause: Cause::Unknown,
        }
        .into()),
    }
}

/// A name that is declared may not be in scope already, nor among the first ones of its frame.
fn once(
    scope: &[DeclaredNames<'_>],
    frame: DeclaredNames<'_>,
    before: usize,
    n: &Name,
) -> Result<(), CodeFault>
    ensures { Reports (once_fault scope.now frame.entry before n.now) result }
{
    if is_declared(scope, &n.text) {
        return Err(Fault {
            place: n.place,
            cause: Cause::Twice,
        }
        .into());
    }
    if is_among(frame, before, &n.text) {
        return Err(Fault {
            place: n.place,
            cause: Cause::Twice,
        }
        .into());
    }
    Ok(())
}

/// Names that are declared one after the other: none may be in scope already.
pub fn declare(scope: &[DeclaredNames<'_>], frame: DeclaredNames<'_>) -> Result<(), CodeFault>
    ensures { Reports (declare_fault 0 (list_view frame.entry.names.now) (scope_view scope.now)) result }
{
    let names = frame.names;
    for (i, n) in names.iter().enumerate() {
        once(scope, frame, i, n)?;
    }
    Ok(())
}

/// A number has to be one that is not below the least.
fn number(place: u32, n: Signed) -> Result<(), CodeFault>
    ensures { Reports (content_fault place (number n)) result }
{
    if n.minus && n.size > LEAST_SIZE {
        return Err(Fault {
            place,
            cause: Cause::Number,
        }
        .into());
    }
    Ok(())
}

/// The elements of a literal array.
#[cycle(literals)]
fn elements(es: &[Element]) -> Result<(), CodeFault>
    ensures { Reports (elements_fault (elements_view es.now)) result }
{
    for e in es {
        content(e.place, &e.what)?;
    }
    Ok(())
}

/// A literal.
#[cycle(literals)]
#[tactic(auto, using(st_scan::proofs::Views::views))]
fn content(place: u32, what: &Content) -> Result<(), CodeFault>
    ensures { Reports (content_fault place (content_view what.now)) result }
{
    match what {
        Content::Number(n) => number(place, *n),
        Content::Array(es) => elements(es),
        Content::Character(_) => Ok(()),
        Content::Bytes(_) => Ok(()),
        Content::Symbol(_) => Ok(()),
        Content::Nil => Ok(()),
        Content::False => Ok(()),
        Content::True => Ok(()),
    }
}

/// The name to which a link assigns.
fn target(around: Around<'_>, link: Link<'_>) -> Result<(), CodeFault>
    ensures { Reports (looked_up target_fault around.entry (link_view link.entry)) result }
{
    match link {
        Link::Assign(name) => stored(around, name),
        Link::Send(_) => Ok(()),
    }
}

/// The names to which the value of a chain's start is assigned, the outermost first.
fn targets(around: Around<'_>, links: &[Link<'_>]) -> Result<(), CodeFault>
    ensures { Reports (looked_up targets_fault around.entry (links_view links.now)) result }
{
    let mut left = links.len();
    while left > 0 {
        left -= 1;
        target(around, links[left])?;
    }
    Ok(())
}

/// The arguments of a message.
#[cycle(faults)]
#[tactic(auto, using(crate::proofs::Reporting::reporting))]
fn expressions(alloc: Global, around: Around<'_>, es: &[Expression]) -> Result<(), CodeFault>
    ensures { Reports (walked expressions_fault around.entry (expressions_view es.now)) result }
{
    for e in es {
        expression(alloc, around, e)?;
    }
    Ok(())
}

/// Messages.
#[cycle(faults)]
#[tactic(auto, using(crate::proofs::Reporting::reporting))]
fn messages(alloc: Global, around: Around<'_>, ms: &[Message]) -> Result<(), CodeFault>
    ensures { Reports (walked messages_fault around.entry (messages_view ms.now)) result }
{
    for m in ms {
        expressions(alloc, around, &m.arguments)?;
    }
    Ok(())
}

/// The messages of a chain, from the inside out.
#[cycle(faults)]
#[tactic(auto, using(crate::proofs::Reporting::reporting))]
fn sent(alloc: Global, around: Around<'_>, links: &[Link<'_>]) -> Result<(), CodeFault>
    ensures { Reports (looked_up all_sent_fault around.entry (links_view links.now)) result }
{
    for link in links {
        if let Link::Send(ms) = *link {
            messages(alloc, around, ms)?;
        }
    }
    Ok(())
}

/// A block.
#[cycle(faults)]
#[tactic(auto, using(crate::proofs::Reporting::reporting))]
fn block(
    alloc: Global,
    around: Around<'_>,
    arguments: &[Name],
    body: &[Statement],
) -> Result<(), CodeFault>
    ensures { Reports (block_around around.entry arguments.now body.now) result }
{
    let places = places_of(alloc, arguments)?;
    let frame = DeclaredNames {
        names: arguments,
        places: &places,
        first: 0,
        assignable: false,
    };
    declare(around.scope, frame)?;
    let scope = inner_scope(alloc, around.scope, frame)?;
    let inner = Around {
        names: around.names,
        scope: &scope,
        next: around.next,
    };
    statements(alloc, inner, body)
}

/// What a chain starts with.
#[cycle(faults)]
#[tactic(auto, using(st_scan::proofs::Views::views))]
fn start(alloc: Global, around: Around<'_>, e: &Expression) -> Result<(), CodeFault>
    requires { IsStart (expression_view e.now) }
    ensures { Reports (walked expression_fault around.entry (expression_view e.now)) result }
{
    match e {
        Expression::Variable(n) => read(around, n),
        Expression::Literal(element) => content(element.place, &element.what),
        Expression::Block {
            names: arguments,
            body,
        } => block(alloc, around, arguments, body),
        Expression::Assign { .. } => Ok(()),
        Expression::Send { .. } => Ok(()),
    }
}

/// A chain.
#[cycle(faults)]
#[tactic(auto, using(crate::proofs::Reporting::reporting))]
fn chain<'t>(
    alloc: Global,
    around: Around<'_>,
    first: &'t Expression,
    links: &[Link<'t>],
) -> Result<(), CodeFault>
    requires { IsStart (expression_view first.now) }
    ensures { Reports (walked expression_fault around.entry (chained first.now links.now)) result }
{
    targets(around, links)?;
    start(alloc, around, first)?;
    sent(alloc, around, links)
}

/// An expression.
#[cycle(faults)]
fn expression(alloc: Global, around: Around<'_>, e: &Expression) -> Result<(), CodeFault>
    ensures { Reports (walked expression_fault around.entry (expression_view e.now)) result }
{
    let parts = e.chain(alloc)?;
    chain(alloc, around, parts.start, &parts.links)
}

/// Statements.
#[cycle(faults)]
#[tactic(auto, using(crate::proofs::Reporting::reporting))]
pub fn statements(alloc: Global, around: Around<'_>, ss: &[Statement]) -> Result<(), CodeFault>
    ensures { Reports (walked statements_fault around.entry (statements_view ss.now)) result }
{
    for s in ss {
        expression(alloc, around, &s.value)?;
    }
    Ok(())
}
