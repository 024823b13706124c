//! Expressions, statements and messages. An expression is printed along its chain, which may be as long as its text.

ghost use Rattle.std.specs.Prelude.{◌≡◌, ◌≤◌, ◌==◌, ◌++◌, not, length, OnOk};
ghost use Rattle.std.specs.List.{prefix_len};
ghost use Rattle.std.specs.Str.{byte};
ghost use Rattle.st_scan.specs.Views.{names_view, expression_view, statements_view, messages_view};
ghost use Rattle.st_scan.specs.inside.Chains.{link_view, links_view};
ghost use Rattle.st_print.specs.Words.{first_keyword, other_keywords};
ghost use Rattle.st_print.specs.Printed.{parameter_words, parameters_words, placed, statements_words};
ghost use Rattle.st_print.specs.Printed.{next_statements, messages_words, next_messages};
ghost use Rattle.st_print.specs.inside.Chained.{before_link, behind_link, before_links, behind_links};
ghost use Rattle.st_print.specs.inside.Putting.{IsPut, block_words, statement_words, sent_words, keyword_parts};

use crate::literal::literal;
use crate::rank::{Rank, is_word, rank_of_link, wanted_by};
use crate::words::put;
use st_scan::{Expression, Link, Message, Name, Statement, Text};
use std::alloc::{AllocError, Global};

/// Puts what stands before an expression for one link.
#[tactic(auto, using(crate::proofs::Spacing::spacing))]
fn before_link(out: &mut Text, wanted: Rank, link: Link<'_>) -> Result<(), AllocError>
    ensures { OnOk result (IsPut (before_link wanted (link_view link.entry)) out.old out.new) }
{
    if wanted.is_loose(rank_of_link(link)) {
        put(out, b"(")?;
    }
    match link {
        Link::Assign(target) => {
            put(out, &target.text)?;
            put(out, b"_")
        }
        Link::Send(_) => Ok(()),
    }
}

/// Puts what stands before an expression for all links, from the outermost on.
#[tactic(auto, using(crate::proofs::Spacing::spacing))]
pub fn before_links(out: &mut Text, outer: Rank, links: &[Link<'_>]) -> Result<(), AllocError>
    ensures { OnOk result (IsPut (before_links outer (links_view links.now)) out.old out.new) }
{
    let mut at = links.len();
    while at > 0 {
        let inner = at - 1;
        before_link(out, wanted_by(outer, &links[at..]), links[inner])?;
        at = inner;
    }
    Ok(())
}

/// Puts names, each with a colon before it.
#[tactic(auto, using(crate::proofs::Spacing::spacing))]
fn each_parameter(out: &mut Text, names: &[Name]) -> Result<(), AllocError>
    ensures { OnOk result (IsPut (parameter_words (names_view names.now)) out.old out.new) }
{
    for name in names {
        put(out, b":")?;
        put(out, &name.text)?;
    }
    Ok(())
}

/// Puts a block's names.
#[tactic(auto, using(crate::proofs::Spacing::spacing))]
fn parameters(out: &mut Text, names: &[Name]) -> Result<(), AllocError>
    ensures { OnOk result (IsPut (parameters_words (names_view names.now)) out.old out.new) }
{
    if names.is_empty() {
        return Ok(());
    }
    each_parameter(out, names)?;
    put(out, b"|")
}

/// How many bytes stand before the first colon.
fn name_length(selector: &[u8]) -> usize
    ensures exact { result ≡ prefix_len (λ b. not (b == byte ":")) selector.now }
    ensures within { result ≤ length selector.now }
{
    selector.iter().take_while(|b| **b != b':').count()
}

/// The first keyword of a selector, and the others.
pub fn split_keyword(selector: &[u8]) -> (&[u8], &[u8])
    ensures first { result.0.now ≡ first_keyword selector.now }
    ensures others { result.1.now ≡ other_keywords selector.now }
{
    let name = name_length(selector);
    selector.split_at((name + 1).min(selector.len()))
}

/// Puts an expression, where one of a rank is wanted.
#[cycle(printing)]
#[tactic(auto, using(crate::proofs::Spacing::spacing, st_scan::proofs::Views::views))]
pub fn expression(
    alloc: Global,
    out: &mut Text,
    wanted: Rank,
    e: &Expression,
) -> Result<(), AllocError>
    ensures { OnOk result (IsPut (placed wanted (expression_view e.now)) out.old out.new) }
{
    let chain = e.chain(alloc)?;
    before_links(out, wanted, &chain.links)?;
    match chain.start {
        Expression::Variable(name) => put(out, &name.text)?,
        Expression::Literal(element) => literal(out, &element.what)?,
        Expression::Block { names, body } => block(alloc, out, names, body)?,
        Expression::Assign { .. } => {}
        Expression::Send { .. } => {}
    }
    behind_links(alloc, out, wanted, &chain.links)
}

/// Puts what stands behind an expression for all links, from the innermost on.
#[cycle(printing)]
#[tactic(auto, using(crate::proofs::Spacing::spacing))]
fn behind_links(
    alloc: Global,
    out: &mut Text,
    outer: Rank,
    links: &[Link<'_>],
) -> Result<(), AllocError>
    ensures { OnOk result (IsPut (behind_links outer (links_view links.now)) out.old out.new) }
{
    for at in 0..links.len() {
        behind_link(alloc, out, wanted_by(outer, &links[at + 1..]), links[at])?;
    }
    Ok(())
}

/// Puts what stands behind an expression for one link.
#[cycle(printing)]
#[tactic(auto, using(crate::proofs::Spacing::spacing))]
fn behind_link(
    alloc: Global,
    out: &mut Text,
    wanted: Rank,
    link: Link<'_>,
) -> Result<(), AllocError>
    ensures { OnOk result (IsPut (behind_link wanted (link_view link.entry)) out.old out.new) }
{
    match link {
        Link::Send(sent) => messages(alloc, out, sent)?,
        Link::Assign(_) => {}
    }
    if wanted.is_loose(rank_of_link(link)) {
        put(out, b")")?;
    }
    Ok(())
}

/// Puts a block.
#[cycle(printing)]
#[tactic(auto, using(crate::proofs::Spacing::spacing))]
fn block(
    alloc: Global,
    out: &mut Text,
    names: &[Name],
    body: &[Statement],
) -> Result<(), AllocError>
    ensures { OnOk result (IsPut (block_words names.now body.now) out.old out.new) }
{
    put(out, b"[")?;
    parameters(out, names)?;
    statements(alloc, out, body)?;
    put(out, b"]")
}

/// Puts a statement.
#[cycle(printing)]
#[tactic(auto, using(crate::proofs::Spacing::spacing))]
fn statement(alloc: Global, out: &mut Text, s: &Statement) -> Result<(), AllocError>
    ensures { OnOk result (IsPut (statement_words s.now) out.old out.new) }
{
    if s.returns {
        put(out, b"^")?;
    }
    expression(alloc, out, Rank::Any, &s.value)
}

/// Puts statements.
#[cycle(printing)]
#[tactic(auto, using(crate::proofs::Spacing::spacing))]
pub fn statements(alloc: Global, out: &mut Text, body: &[Statement]) -> Result<(), AllocError>
    ensures { OnOk result (IsPut (statements_words (statements_view body.now)) out.old out.new) }
{
    if body.is_empty() {
        return Ok(());
    }
    statement(alloc, out, &body[0])?;
    next_statements(alloc, out, &body[1..])
}

/// Puts statements behind others, each with a period before it.
#[cycle(printing)]
#[tactic(auto, using(crate::proofs::Spacing::spacing))]
fn next_statements(alloc: Global, out: &mut Text, body: &[Statement]) -> Result<(), AllocError>
    ensures { OnOk result (IsPut (next_statements (statements_view body.now)) out.old out.new) }
{
    for next in body {
        put(out, b".")?;
        statement(alloc, out, next)?;
    }
    Ok(())
}

/// Puts the messages of a cascade, or the one message.
#[cycle(printing)]
#[tactic(auto, using(crate::proofs::Spacing::spacing))]
fn messages(alloc: Global, out: &mut Text, sent: &[Message]) -> Result<(), AllocError>
    ensures { OnOk result (IsPut (messages_words (messages_view sent.now)) out.old out.new) }
{
    if sent.is_empty() {
        return Ok(());
    }
    message(alloc, out, &sent[0])?;
    next_messages(alloc, out, &sent[1..])
}

/// Puts messages behind others, each with a semicolon before it.
#[cycle(printing)]
#[tactic(auto, using(crate::proofs::Spacing::spacing))]
fn next_messages(alloc: Global, out: &mut Text, sent: &[Message]) -> Result<(), AllocError>
    ensures { OnOk result (IsPut (next_messages (messages_view sent.now)) out.old out.new) }
{
    for next in sent {
        put(out, b";")?;
        message(alloc, out, next)?;
    }
    Ok(())
}

/// Puts a message.
#[cycle(printing)]
#[tactic(auto, using(crate::proofs::Spacing::spacing))]
fn message(alloc: Global, out: &mut Text, m: &Message) -> Result<(), AllocError>
    ensures { OnOk result (IsPut (sent_words m.now) out.old out.new) }
{
    let [first, ..] = m.arguments.as_slice() else {
        return put(out, &m.selector);
    };
    if is_word(&m.selector) {
        keywords(alloc, out, &m.selector, &m.arguments)
    } else {
        put(out, &m.selector)?;
        expression(alloc, out, Rank::Unary, first)
    }
}

/// Puts the keywords of a selector, each with its argument.
#[cycle(printing)]
#[tactic(auto, using(crate::proofs::Spacing::spacing))]
fn keywords(
    alloc: Global,
    out: &mut Text,
    selector: &[u8],
    arguments: &[Expression],
) -> Result<(), AllocError>
    ensures { OnOk result (IsPut (keyword_parts selector.now arguments.now) out.old out.new) }
{
    let mut rest = selector;
    for argument in arguments {
        let (keyword, others) = split_keyword(rest);
        put(out, keyword)?;
        expression(alloc, out, Rank::Binary, argument)?;
        rest = others;
    }
    Ok(())
}
