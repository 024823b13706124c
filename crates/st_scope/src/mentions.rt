//! The names of variables in a method's statements, in the order of the text. A walk goes along an expression's chain: the
//! assigned names from the outside in, what the chain starts with, and the messages from the inside out.

ghost use Rattle.std.specs.Prelude.{◌≡◌, IfOk, OnOk};
ghost use Rattle.st_scan.specs.Views.{method_view, expression_view, expressions_view, messages_view};
ghost use Rattle.st_scan.specs.{Views.statements_view, inside.Chains.{link_view, links_view, IsStart}};
ghost use Rattle.st_scope.specs.Mentions.{mentioned, mentioned_in, mentioned_by, mentioned_among};
ghost use Rattle.st_scope.specs.inside.Walks.{Mentions, mentions_of, target_mentioned, targets_mentioned};
ghost use Rattle.st_scope.specs.inside.Walks.{all_sent_mentioned, chained};

use st_scan::{Expression, Link, Message, MethodTree, Name, Statement};
use std::alloc::{AllocError, Global};

/// Names as they are mentioned.
pub type Mentions<'t> = Vec<&'t Name>;

/// The name to which a link assigns.
fn target<'t>(names: &mut Mentions<'t>, link: Link<'t>) -> Result<(), AllocError>
    ensures { OnOk result (Mentions (target_mentioned (link_view link.entry)) names.old names.new) }
{
    match link {
        Link::Assign(name) => {
            names.push(name)?;
            Ok(())
        }
        Link::Send(_) => Ok(()),
    }
}

/// The names to which the value of a chain's start is assigned, the outermost first.
fn targets<'t>(names: &mut Mentions<'t>, links: &[Link<'t>]) -> Result<(), AllocError>
    ensures { OnOk result (Mentions (targets_mentioned (links_view links.now)) names.old names.new) }
{
    let mut left = links.len();
    while left > 0 {
        left -= 1;
        target(names, links[left])?;
    }
    Ok(())
}

/// The names in the arguments of a message.
#[cycle(mentions)]
fn expressions<'t>(
    alloc: Global,
    names: &mut Mentions<'t>,
    es: &'t [Expression],
) -> Result<(), AllocError>
    ensures { OnOk result (Mentions (mentioned_among (expressions_view es.now)) names.old names.new) }
{
    for e in es {
        expression(alloc, names, e)?;
    }
    Ok(())
}

/// The names in messages.
#[cycle(mentions)]
fn messages<'t>(
    alloc: Global,
    names: &mut Mentions<'t>,
    ms: &'t [Message],
) -> Result<(), AllocError>
    ensures { OnOk result (Mentions (mentioned_by (messages_view ms.now)) names.old names.new) }
{
    for m in ms {
        expressions(alloc, names, &m.arguments)?;
    }
    Ok(())
}

/// The names in the messages of a chain, from the inside out.
#[cycle(mentions)]
fn sent<'t>(alloc: Global, names: &mut Mentions<'t>, links: &[Link<'t>]) -> Result<(), AllocError>
    ensures { OnOk result (Mentions (all_sent_mentioned (links_view links.now)) names.old names.new) }
{
    for link in links {
        if let Link::Send(ms) = *link {
            messages(alloc, names, ms)?;
        }
    }
    Ok(())
}

/// The names in what a chain starts with.
#[cycle(mentions)]
#[tactic(auto, using(st_scan::proofs::Views::views))]
fn start<'t>(alloc: Global, names: &mut Mentions<'t>, e: &'t Expression) -> Result<(), AllocError>
    requires { IsStart (expression_view e.now) }
    ensures { OnOk result (Mentions (mentioned (expression_view e.now)) names.old names.new) }
{
    match e {
        Expression::Variable(name) => {
            names.push(name)?;
            Ok(())
        }
        Expression::Block { names: _, body } => statements(alloc, names, body),
        Expression::Literal(_) | Expression::Assign { .. } | Expression::Send { .. } => Ok(()),
    }
}

/// The names in a chain.
#[cycle(mentions)]
fn chain<'t>(
    alloc: Global,
    names: &mut Mentions<'t>,
    first: &'t Expression,
    links: &[Link<'t>],
) -> Result<(), AllocError>
    requires { IsStart (expression_view first.now) }
    ensures { OnOk result (Mentions (mentioned (chained first.now links.now)) names.old names.new) }
{
    targets(names, links)?;
    start(alloc, names, first)?;
    sent(alloc, names, links)
}

/// The names in an expression.
#[cycle(mentions)]
fn expression<'t>(
    alloc: Global,
    names: &mut Mentions<'t>,
    e: &'t Expression,
) -> Result<(), AllocError>
    ensures { OnOk result (Mentions (mentioned (expression_view e.now)) names.old names.new) }
{
    let parts = e.chain(alloc)?;
    chain(alloc, names, parts.start, &parts.links)
}

/// The names in statements.
#[cycle(mentions)]
fn statements<'t>(
    alloc: Global,
    names: &mut Mentions<'t>,
    ss: &'t [Statement],
) -> Result<(), AllocError>
    ensures { OnOk result (Mentions (mentioned_in (statements_view ss.now)) names.old names.new) }
{
    for s in ss {
        expression(alloc, names, &s.value)?;
    }
    Ok(())
}

/// The names in a method's statements.
pub fn mentioned(alloc: Global, t: &MethodTree) -> Result<Mentions<'_>, AllocError>
    ensures { IfOk result (λ names. mentions_of names.items ≡ mentioned_in (method_view t.now).body) }
{
    let mut names = Vec::new(alloc);
    statements(alloc, &mut names, &t.body)?;
    Ok(names)
}
