//! Methods.

ghost use Rattle.std.specs.Prelude.{◌≡◌, ◌++◌, drop, OnOk, IfOk};
ghost use Rattle.st_scan.specs.Views.{names_view, content_view, expression_view, statements_view};
ghost use Rattle.st_scan.specs.Views.{method_view};
ghost use Rattle.st_print.specs.inside.Chained.{signed_content, signed_start};
ghost use Rattle.st_print.specs.Printed.{pattern_words, keyword_pattern, names_words, temporaries_words};
ghost use Rattle.st_print.specs.Printed.{primitive_words, expression_words, statements_words, first_signed};
ghost use Rattle.st_print.specs.Printed.{printed};
ghost use Rattle.st_print.specs.inside.Putting.{IsPut, apart_words, rest_words};

use crate::expression::{before_links, split_keyword, statements};
use crate::rank::{Rank, is_word};
use crate::words::{put, put_number};
use st_scan::{Content, Expression, MethodTree, Name, Signed, Statement, Text};
use std::alloc::{AllocError, Global};

/// Puts a pattern's keywords, each with the name of its argument.
#[tactic(auto, using(crate::proofs::Spacing::spacing))]
fn keyword_pattern(out: &mut Text, selector: &[u8], names: &[Name]) -> Result<(), AllocError>
    ensures { OnOk result (IsPut (keyword_pattern selector.now (names_view names.now)) out.old out.new) }
{
    let mut rest = selector;
    for name in names {
        let (keyword, others) = split_keyword(rest);
        put(out, keyword)?;
        put(out, &name.text)?;
        rest = others;
    }
    Ok(())
}

/// Puts a pattern.
#[tactic(auto, using(crate::proofs::Spacing::spacing))]
fn pattern(out: &mut Text, selector: &[u8], names: &[Name]) -> Result<(), AllocError>
    ensures { OnOk result (IsPut (pattern_words selector.now (names_view names.now)) out.old out.new) }
{
    let [first, ..] = names else {
        return put(out, selector);
    };
    if is_word(selector) {
        keyword_pattern(out, selector, names)
    } else {
        put(out, selector)?;
        put(out, &first.text)
    }
}

/// Puts names.
#[tactic(auto, using(crate::proofs::Spacing::spacing))]
fn all_names(out: &mut Text, names: &[Name]) -> Result<(), AllocError>
    ensures { OnOk result (IsPut (names_words (names_view names.now)) out.old out.new) }
{
    for name in names {
        put(out, &name.text)?;
    }
    Ok(())
}

/// Puts temporaries.
#[tactic(auto, using(crate::proofs::Spacing::spacing))]
fn temporaries(out: &mut Text, names: &[Name]) -> Result<(), AllocError>
    ensures { OnOk result (IsPut (temporaries_words (names_view names.now)) out.old out.new) }
{
    if names.is_empty() {
        return Ok(());
    }
    put(out, b"|")?;
    all_names(out, names)?;
    put(out, b"|")
}

/// Puts a primitive.
#[tactic(auto, using(crate::proofs::Spacing::spacing))]
fn primitive(out: &mut Text, number: Option<Signed>) -> Result<(), AllocError>
    ensures { OnOk result (IsPut (primitive_words number) out.old out.new) }
{
    let Some(number) = number else {
        return Ok(());
    };
    put(out, b"<")?;
    put(out, b"primitive:")?;
    put_number(out, number)?;
    put(out, b">")
}

/// The number with a sign that a literal is.
fn signed_content(content: &Content) -> Option<Signed>
    ensures { result ≡ signed_content (content_view content.now) }
{
    match content {
        Content::Number(number) => { if number.minus { Some(*number) } else { None } }
        Content::Character(_) => None,
        Content::Bytes(_) => None,
        Content::Symbol(_) => None,
        Content::Array(_) => None,
        Content::Nil => None,
        Content::False => None,
        Content::True => None,
    }
}

/// The number with a sign that a start is.
fn signed_start(start: &Expression) -> Option<Signed>
    ensures { result ≡ signed_start (expression_view start.now) }
{
    match start {
        Expression::Literal(element) => signed_content(&element.what),
        Expression::Variable(_) => None,
        Expression::Block { .. } => None,
        Expression::Assign { .. } => None,
        Expression::Send { .. } => None,
    }
}

/// The number with a sign that an expression begins with.
fn first_signed(alloc: Global, e: &Expression) -> Result<Option<Signed>, AllocError>
    ensures { IfOk result (λ n. n ≡ first_signed (expression_words (expression_view e.now))) }
{
    let chain = e.chain(alloc)?;
    let mut before = Vec::new(alloc);
    before_links(&mut before, Rank::Any, &chain.links)?;
    if before.is_empty() {
        Ok(signed_start(chain.start))
    } else {
        Ok(None)
    }
}

/// The number with a sign that statements begin with.
fn signed_body(alloc: Global, body: &[Statement]) -> Result<Option<Signed>, AllocError>
    ensures { IfOk result (λ n. n ≡ first_signed (statements_words (statements_view body.now))) }
{
    if body.is_empty() {
        return Ok(None);
    }
    let statement = &body[0];
    if statement.returns {
        return Ok(None);
    }
    first_signed(alloc, &statement.value)
}

/// Puts statements directly behind a pattern.
#[tactic(auto, using(crate::proofs::Spacing::spacing))]
fn statements_apart(alloc: Global, out: &mut Text, body: &[Statement]) -> Result<(), AllocError>
    ensures { OnOk result (IsPut (apart_words body.now) out.old out.new) }
{
    let Some(number) = signed_body(alloc, body)? else {
        return statements(alloc, out, body);
    };
    let mut first = Vec::new(alloc);
    put_number(&mut first, number)?;
    let mut all = Vec::new(alloc);
    statements(alloc, &mut all, body)?;
    put(out, b"(")?;
    out.extend_from_slice(&first)?;
    put(out, b")")?;
    out.extend_from_slice(&all[first.len().min(all.len())..])?;
    Ok(())
}

/// Puts what stands behind a method's pattern.
#[tactic(auto, using(crate::proofs::Spacing::spacing))]
fn behind_pattern(alloc: Global, out: &mut Text, t: &MethodTree) -> Result<(), AllocError>
    ensures { OnOk result (IsPut (rest_words (method_view t.now)) out.old out.new) }
{
    let pattern = out.len();
    temporaries(out, &t.temporaries)?;
    primitive(out, t.primitive)?;
    if out.len() == pattern {
        statements_apart(alloc, out, &t.body)
    } else {
        statements(alloc, out, &t.body)
    }
}

/// The bytes behind the first one.
fn behind_first(alloc: Global, text: &[u8]) -> Result<Text, AllocError>
    ensures { IfOk result (λ rest. rest.items ≡ drop 1 text.now) }
{
    match text {
        [_, rest @ ..] => rest.to_vec(alloc),
        [] => Ok(Vec::new(alloc)),
    }
}

/// The text of a method's tree: its tokens in order with one space between two of them, and parentheses round each receiver
/// and argument that binds too loosely where it stands, and round a number with a sign directly behind the pattern.
#[tactic(auto, using(crate::proofs::Spacing::spacing))]
pub fn print(alloc: Global, t: &MethodTree) -> Result<Text, AllocError>
    ensures { IfOk result (λ text. text.items ≡ printed (method_view t.now)) }
{
    let mut out = Vec::new(alloc);
    pattern(&mut out, &t.selector, &t.arguments)?;
    behind_pattern(alloc, &mut out, t)?;
    behind_first(alloc, &out)
}
