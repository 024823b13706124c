//! Methods. The functions here read as those on expressions do.

ghost use Rattle.std.specs.Prelude.{◌≡◌, ◌∷◌, []};
ghost use Rattle.st_scan.specs.Views.{names_view, method_view};
ghost use Rattle.st_grammar.specs.{Faults.most, Trees.number_of};
ghost use Rattle.st_grammar.specs.Reading.{Gives, pattern_step, keyword_names_at, pattern_at};
ghost use Rattle.st_grammar.specs.Reading.{unary_pattern_at, binary_pattern_at, keyword_pattern_at};
ghost use Rattle.st_grammar.specs.Reading.{name_list_at, temporaries_at, primitive_at, options_at};
ghost use Rattle.st_grammar.specs.Reading.{temporaries_first_at, primitive_first_at, method_at, whole_at};
ghost use Rattle.st_parse.specs.{inside.Parsed.{pattern_view, options_view}, inside.Answers.{ReadsNames, ReadsPattern}};

use crate::expression::statements;
use crate::kinds::{KEYWORDS, NAMES, OPERATORS};
use crate::names::one_name;
use crate::read::Read;
use st_grammar::leaf::{Kind, Leaf, bytes_of};
use st_grammar::read::{ReadError, starts, token};
use st_scan::{Cause, MethodTree, NameList, Signed, Sort, Text};
use std::alloc::Global;

/// The most brackets that may be open.
const MOST: u32 = 200;

/// A selector and its arguments, so far.
#[derive(Drop)]
struct Pattern {
    selector: Text,
    arguments: NameList,
}

/// What stands between a method's pattern and its statements.
#[derive(Drop)]
struct Options {
    temporaries: NameList,
    primitive: Option<Signed>,
}

/// A pattern with one more keyword and the name of its argument.
#[tactic(auto, using(crate::proofs::Patterns::pattern_by_names))]
fn keyword_name<'a>(
    alloc: Global,
    text: &[u8],
    pattern: Pattern,
    leaves: &'a [Leaf],
) -> Read<'a, Pattern>
    ensures { ReadsPattern result (pattern_step text.now (pattern_view pattern) leaves.now) }
{
    let (keyword, rest) = token(&KEYWORDS, leaves)?;
    let (arguments, rest) = one_name(alloc, text, pattern.arguments, rest)?;
    let mut selector = pattern.selector;
    selector.extend_from_slice(bytes_of(text, keyword.token))?;
    let pattern = Pattern {
        selector,
        arguments,
    };
    Ok((pattern, rest))
}

/// A pattern with all keywords that follow.
#[tactic(auto, unfolding(st_grammar::specs::Reading::keyword_names_at))]
fn keyword_names<'a>(
    alloc: Global,
    text: &[u8],
    first: Pattern,
    leaves: &'a [Leaf],
) -> Read<'a, Pattern>
    ensures { ReadsPattern result (keyword_names_at text.now (pattern_view first) leaves.now) }
{
    let mut pattern = first;
    let mut rest = leaves;
    while starts(&KEYWORDS, rest) {
        let (longer, after) = keyword_name(alloc, text, pattern, rest)?;
        pattern = longer;
        rest = after;
    }
    Ok((pattern, rest))
}

/// A pattern of one name.
#[tactic(auto, unfolding(st_grammar::specs::Reading::unary_pattern_at))]
fn unary_pattern<'a>(alloc: Global, text: &[u8], leaves: &'a [Leaf]) -> Read<'a, Pattern>
    ensures { ReadsPattern result (unary_pattern_at text.now leaves.now) }
{
    let (leaf, rest) = token(&NAMES, leaves)?;
    let selector = bytes_of(text, leaf.token).to_vec(alloc)?;
    let arguments = Vec::new(alloc);
    let pattern = Pattern {
        selector,
        arguments,
    };
    Ok((pattern, rest))
}

/// A pattern of an operator and a name.
#[tactic(auto, using(crate::proofs::Patterns::binary_by_names))]
fn binary_pattern<'a>(alloc: Global, text: &[u8], leaves: &'a [Leaf]) -> Read<'a, Pattern>
    ensures { ReadsPattern result (binary_pattern_at text.now leaves.now) }
{
    let (operator, rest) = token(&OPERATORS, leaves)?;
    let (arguments, rest) = one_name(alloc, text, Vec::new(alloc), rest)?;
    let selector = bytes_of(text, operator.token).to_vec(alloc)?;
    let pattern = Pattern {
        selector,
        arguments,
    };
    Ok((pattern, rest))
}

/// A pattern of keywords and names.
#[tactic(auto, unfolding(st_grammar::specs::Reading::keyword_pattern_at))]
fn keyword_pattern<'a>(alloc: Global, text: &[u8], leaves: &'a [Leaf]) -> Read<'a, Pattern>
    ensures { ReadsPattern result (keyword_pattern_at text.now leaves.now) }
{
    let none = Pattern {
        selector: Vec::new(alloc),
        arguments: Vec::new(alloc),
    };
    let (first, rest) = keyword_name(alloc, text, none, leaves)?;
    keyword_names(alloc, text, first, rest)
}

/// A pattern.
#[tactic(auto, unfolding(st_grammar::specs::Reading::pattern_at))]
fn any_pattern<'a>(alloc: Global, text: &[u8], leaves: &'a [Leaf]) -> Read<'a, Pattern>
    ensures { ReadsPattern result (pattern_at text.now leaves.now) }
{
    if starts(&NAMES, leaves) {
        unary_pattern(alloc, text, leaves)
    } else if starts(&OPERATORS, leaves) {
        binary_pattern(alloc, text, leaves)
    } else {
        keyword_pattern(alloc, text, leaves)
    }
}

/// Names with all that follow.
#[tactic(auto, unfolding(st_grammar::specs::Reading::name_list_at))]
fn all_names<'a>(
    alloc: Global,
    text: &[u8],
    first: NameList,
    leaves: &'a [Leaf],
) -> Read<'a, NameList>
    ensures { ReadsNames result (name_list_at text.now (names_view first.items) leaves.now) }
{
    let mut names = first;
    let mut rest = leaves;
    while starts(&NAMES, rest) {
        let (longer, after) = one_name(alloc, text, names, rest)?;
        names = longer;
        rest = after;
    }
    Ok((names, rest))
}

/// Temporaries.
#[tactic(auto, unfolding(st_grammar::specs::Reading::temporaries_at))]
fn temporaries<'a>(alloc: Global, text: &[u8], leaves: &'a [Leaf]) -> Read<'a, NameList>
    ensures { ReadsNames result (temporaries_at text.now leaves.now) }
{
    let (_bar, rest) = token(&[Kind::Bar], leaves)?;
    let (names, rest) = all_names(alloc, text, Vec::new(alloc), rest)?;
    let (_bar, rest) = token(&[Kind::Bar], rest)?;
    Ok((names, rest))
}

/// The value of a number's token.
fn number_of(sort: Sort) -> Signed
    ensures { result ≡ number_of sort }
{
    match sort {
        Sort::Number(number) => number,
        _ => Signed {
            minus: false,
            size: 0,
        },
    }
}

/// The number of a primitive.
#[tactic(auto, unfolding(st_grammar::specs::Reading::primitive_at))]
fn primitive(leaves: &[Leaf]) -> Read<'_, Signed>
    ensures { Gives (λ x. (x.0, x.1.now)) result (primitive_at leaves.now) }
{
    let (_less, rest) = token(&[Kind::Less], leaves)?;
    let (_keyword, rest) = token(&[Kind::Primitive], rest)?;
    let (number, rest) = token(&[Kind::Number], rest)?;
    let (_greater, rest) = token(&[Kind::Greater], rest)?;
    Ok((number_of(number.token.sort), rest))
}

/// Temporaries, and a primitive if one follows.
#[tactic(auto, unfolding(st_grammar::specs::Reading::temporaries_first_at))]
fn temporaries_first<'a>(alloc: Global, text: &[u8], leaves: &'a [Leaf]) -> Read<'a, Options>
    ensures { Gives (λ x. (options_view x.0, x.1.now)) result (temporaries_first_at text.now leaves.now) }
{
    let (temporaries, rest) = temporaries(alloc, text, leaves)?;
    if starts(&[Kind::Less], rest) {
        let (number, rest) = primitive(rest)?;
        let primitive = Some(number);
        Ok((
            Options {
                temporaries,
                primitive,
            },
            rest,
        ))
    } else {
        let primitive = None;
        Ok((
            Options {
                temporaries,
                primitive,
            },
            rest,
        ))
    }
}

/// A primitive, and temporaries if they follow.
#[tactic(auto, unfolding(st_grammar::specs::Reading::primitive_first_at))]
fn primitive_first<'a>(alloc: Global, text: &[u8], leaves: &'a [Leaf]) -> Read<'a, Options>
    ensures { Gives (λ x. (options_view x.0, x.1.now)) result (primitive_first_at text.now leaves.now) }
{
    let (number, rest) = primitive(leaves)?;
    let primitive = Some(number);
    if starts(&[Kind::Bar], rest) {
        let (temporaries, rest) = temporaries(alloc, text, rest)?;
        Ok((
            Options {
                temporaries,
                primitive,
            },
            rest,
        ))
    } else {
        let temporaries = Vec::new(alloc);
        Ok((
            Options {
                temporaries,
                primitive,
            },
            rest,
        ))
    }
}

/// Temporaries and a primitive, each optional, in either order.
#[tactic(auto, unfolding(st_grammar::specs::Reading::options_at))]
fn any_options<'a>(alloc: Global, text: &[u8], leaves: &'a [Leaf]) -> Read<'a, Options>
    ensures { Gives (λ x. (options_view x.0, x.1.now)) result (options_at text.now leaves.now) }
{
    if starts(&[Kind::Bar], leaves) {
        temporaries_first(alloc, text, leaves)
    } else if starts(&[Kind::Less], leaves) {
        primitive_first(alloc, text, leaves)
    } else {
        let temporaries = Vec::new(alloc);
        let primitive = None;
        Ok((
            Options {
                temporaries,
                primitive,
            },
            leaves,
        ))
    }
}

/// A method, and the leaves behind it.
#[tactic(auto, unfolding(st_grammar::specs::Reading::method_at))]
fn method<'a>(alloc: Global, text: &[u8], leaves: &'a [Leaf]) -> Read<'a, MethodTree>
    ensures { Gives (λ x. (method_view x.0, x.1.now)) result (method_at text.now most leaves.now) }
{
    let (pattern, rest) = any_pattern(alloc, text, leaves)?;
    let (options, rest) = any_options(alloc, text, rest)?;
    let (body, rest) = statements(alloc, text, MOST, rest)?;
    let tree = MethodTree {
        selector: pattern.selector,
        arguments: pattern.arguments,
        temporaries: options.temporaries,
        primitive: options.primitive,
        body,
    };
    Ok((tree, rest))
}

/// The method that the leaves are, all of them.
#[tactic(auto, unfolding(st_grammar::specs::Reading::whole_at))]
pub fn whole(alloc: Global, text: &[u8], leaves: &[Leaf]) -> Result<MethodTree, ReadError>
    ensures { Gives (λ t. method_view t) result (whole_at text.now most leaves.now) }
{
    let (tree, rest) = method(alloc, text, leaves)?;
    match rest {
        [] => Ok(tree),
        _ => Err(ReadError::Fault {
            cause: Cause::Trailing,
            left: rest.len(),
        }),
    }
}
