//! How many block arguments a part of a tree declares.

ghost use Rattle.std.specs.Prelude.{◌≡◌, ◌+◌, IfOk};
ghost use Rattle.st_scan.specs.Views.{expression_view, expressions_view, messages_view, statements_view};
ghost use Rattle.st_emit.specs.Resolving.{names_in, names_in_all, names_in_messages, names_in_statements};

use st_scan::{Expression, Message, Statement};
use std::alloc::AllocError;

/// A sum of counts. One that passes every memory is want of memory.
pub fn sum(a: usize, b: usize) -> Result<usize, AllocError>
    ensures { IfOk result (λ n. n ≡ a + b) }
{
    a.checked_add(b).ok_or(AllocError)
}

/// The block arguments in expressions, counted on from `start`.
#[cycle(counting)]
fn names_in_all(start: usize, es: &[Expression]) -> Result<usize, AllocError>
    ensures { IfOk result (λ n. n ≡ start + names_in_all (expressions_view es.now)) }
{
    let mut total = start;
    for e in es {
        total = names_in(total, e)?;
    }
    Ok(total)
}

/// The block arguments in messages, counted on from `start`.
#[cycle(counting)]
fn names_in_messages(start: usize, messages: &[Message]) -> Result<usize, AllocError>
    ensures { IfOk result (λ n. n ≡ start + names_in_messages (messages_view messages.now)) }
{
    let mut total = start;
    for m in messages {
        total = names_in_all(total, &m.arguments)?;
    }
    Ok(total)
}

/// The block arguments in an expression, counted on from `start`. It goes down the receivers and the assigned values by
/// a loop.
#[cycle(counting)]
#[tactic(auto, using(st_scan::proofs::Views::views))]
fn names_in(start: usize, e: &Expression) -> Result<usize, AllocError>
    ensures { IfOk result (λ n. n ≡ start + names_in (expression_view e.now)) }
{
    let mut total = start;
    let mut inner = e;
    'down: loop {
        match inner {
            Expression::Variable(_) | Expression::Literal(_) => return Ok(total),
            Expression::Block { names, body } => {
                let inside = sum(total, names.len())?;
                return names_in_statements(inside, body);
            }
            Expression::Assign { value, .. } => inner = value,
            Expression::Send { receiver, messages } => {
                total = names_in_messages(total, messages)?;
                inner = receiver;
            }
        }
    }
}

/// The block arguments in statements, up to one after `^`, counted on from `start`.
#[cycle(counting)]
pub fn names_in_statements(start: usize, statements: &[Statement]) -> Result<usize, AllocError>
    ensures { IfOk result (λ n. n ≡ start + names_in_statements (statements_view statements.now)) }
{
    let mut total = start;
    for s in statements {
        total = names_in(total, &s.value)?;
        if s.returns {
            return Ok(total);
        }
    }
    Ok(total)
}
