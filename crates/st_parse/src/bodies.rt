//! Statements so far, and how they end.

ghost use Rattle.std.specs.Prelude.{◌≡◌, ◌&&◌, true, not, IfOk};
ghost use Rattle.st_scan.specs.Views.{expression_view, statements_view, no_statements};
ghost use Rattle.st_grammar.specs.Reading.{first, period_at, statement_looks};
ghost use Rattle.st_parse.specs.inside.Phrases.{body_view, caret_at};
ghost use Rattle.st_parse.specs.inside.Answers.{IsBody};

use crate::kinds::STATEMENT_STARTS;
use st_grammar::leaf::{Kind, Leaf};
use st_grammar::read::is_among;
use st_scan::{Statement, StatementList};
use std::alloc::{AllocError, Global};

/// Statements so far, and whether another one may follow.
#[derive(Drop)]
pub struct Body {
    pub statements: StatementList,
    pub goes_on: bool,
}

/// No statement yet.
pub fn no_statements(alloc: Global) -> Body
    ensures { body_view result ≡ record { statements = no_statements; goes_on = true } }
{
    Body {
        statements: Vec::new(alloc),
        goes_on: true,
    }
}

/// One more statement. Another one may follow it behind a period, but none where its value is returned.
#[tactic(auto, using(st_scan::proofs::Views::views))]
pub fn with_statement(
    statements: StatementList,
    statement: Statement,
    period: bool,
) -> Result<Body, AllocError>
    ensures { let goes_on = not statement.returns && period in
        let value = expression_view statement.value in
        IfOk result (IsBody (statements_view statements.items) statement.returns value goes_on) }
{
    let goes_on = !statement.returns && period;
    let mut statements = statements;
    statements.push(statement)?;
    Ok(Body {
        statements,
        goes_on,
    })
}

/// Whether a caret stands first, and what is behind it.
pub fn caret(leaves: &[Leaf]) -> (bool, &[Leaf])
    ensures { (result.0, result.1.now) ≡ caret_at leaves.now }
{
    match leaves {
        [leaf, rest @ ..] if is_among(&[Kind::Return], *leaf) => (true, rest),
        _ => (false, leaves),
    }
}

/// Whether a period stands first, and what is behind it.
pub fn period(leaves: &[Leaf]) -> (bool, &[Leaf])
    ensures { (result.0, result.1.now) ≡ period_at leaves.now }
{
    match leaves {
        [leaf, rest @ ..] if is_among(&[Kind::Period], *leaf) => (true, rest),
        _ => (false, leaves),
    }
}

/// Whether another statement may follow, and begins.
pub fn goes_on(body: &Body, leaves: &[Leaf]) -> bool
    ensures { result ≡ first (statement_looks (body_view body.now)) leaves.now }
{
    match leaves {
        [leaf, ..] => body.goes_on && is_among(&STATEMENT_STARTS, *leaf),
        [] => false,
    }
}
