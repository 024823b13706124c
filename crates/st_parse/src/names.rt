//! Names: of variables, of those that are assigned to, and of a block's arguments.

ghost use Rattle.std.specs.Prelude.{◌≡◌, IfOk, MatchOption};
ghost use Rattle.st_scan.specs.Views.{name_view, names_view, expression_view};
ghost use Rattle.st_grammar.specs.Trees.{name_at};
ghost use Rattle.st_grammar.specs.Reading.{assigned_to, targets_at, name_step, parameters_step, parameters_at};
ghost use Rattle.st_parse.specs.{inside.Phrases.{NoTarget, BeginsWithTarget}, inside.Answers.{ReadsNames, Makes}};

use crate::kinds::NAMES;
use crate::read::Read;
use st_grammar::leaf::{Kind, Leaf, bytes_of};
use st_grammar::read::{is_among, starts, token};
use st_scan::{Expression, Name, NameList};
use std::alloc::{AllocError, Global};

/// The name that a leaf is.
pub fn name_of(alloc: Global, text: &[u8], leaf: Leaf) -> Result<Name, AllocError>
    ensures { IfOk result (λ n. name_view n ≡ name_at text.now leaf) }
{
    let text = bytes_of(text, leaf.token).to_vec(alloc)?;
    let place = leaf.place;
    Ok(Name { text, place })
}

/// The name that stands first with an assignment behind it, and what is behind both.
fn target(leaves: &[Leaf]) -> Option<(Leaf, &[Leaf])>
    ensures { MatchOption result (NoTarget leaves.now) (λ x. BeginsWithTarget leaves.now x.0 x.1.now) }
{
    match leaves {
        [name, assign, rest @ ..]
            if is_among(&NAMES, *name) && is_among(&[Kind::Assign], *assign) => Some((*name, rest)),
        _ => None,
    }
}

/// The names that are assigned to, and what is behind them.
#[tactic(auto, unfolding(st_grammar::specs::Reading::targets_at))]
pub fn targets<'a>(
    alloc: Global,
    text: &[u8],
    leaves: &'a [Leaf],
) -> Result<(NameList, &'a [Leaf]), AllocError>
    ensures { IfOk result (λ x. (names_view x.0.items, x.1.now) ≡ targets_at text.now leaves.now) }
{
    let mut names = Vec::new(alloc);
    let mut rest = leaves;
    while let Some((name, after)) = target(rest) {
        names.push(name_of(alloc, text, name)?)?;
        rest = after;
    }
    Ok((names, rest))
}

/// A value that is assigned to names, the last one first.
pub fn assigned(alloc: Global, names: NameList, value: Expression) -> Result<Expression, AllocError>
    ensures { IfOk result (Makes (assigned_to (names_view names.items) (expression_view value))) }
{
    let mut names = names;
    let mut value = value;
    while let Some(name) = names.pop() {
        value = Expression::assign(alloc, name, value)?;
    }
    Ok(value)
}

/// Names with one more.
#[tactic(auto, unfolding(st_grammar::specs::Reading::name_step))]
pub fn one_name<'a>(
    alloc: Global,
    text: &[u8],
    mut names: NameList,
    leaves: &'a [Leaf],
) -> Read<'a, NameList>
    ensures { ReadsNames result (name_step text.now (names_view names.items) leaves.now) }
{
    let (leaf, rest) = token(&NAMES, leaves)?;
    names.push(name_of(alloc, text, leaf)?)?;
    Ok((names, rest))
}

/// A block's arguments with one more.
#[tactic(auto, unfolding(st_grammar::specs::Reading::parameters_step, st_grammar::specs::Reading::name_step))]
pub fn parameter<'a>(
    alloc: Global,
    text: &[u8],
    names: NameList,
    leaves: &'a [Leaf],
) -> Read<'a, NameList>
    ensures { ReadsNames result (parameters_step text.now (names_view names.items) leaves.now) }
{
    let (_colon, rest) = token(&[Kind::Colon], leaves)?;
    one_name(alloc, text, names, rest)
}

/// A block's arguments with all that follow.
#[tactic(auto, unfolding(st_grammar::specs::Reading::parameters_at))]
pub fn parameters<'a>(
    alloc: Global,
    text: &[u8],
    first: NameList,
    leaves: &'a [Leaf],
) -> Read<'a, NameList>
    ensures { ReadsNames result (parameters_at text.now (names_view first.items) leaves.now) }
{
    let mut names = first;
    let mut rest = leaves;
    while starts(&[Kind::Colon], rest) {
        let (longer, after) = parameter(alloc, text, names, rest)?;
        names = longer;
        rest = after;
    }
    Ok((names, rest))
}
