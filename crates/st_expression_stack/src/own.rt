//! What a method's own variables are called: `t1`, `t2` and so on, the names of the class left out.

ghost use Rattle.std.specs.Prelude.{◌≡◌, ◌∷◌, ◌++◌, [], option_map, IfOk, OnOk};
ghost use Rattle.std.specs.Fmt.{decimal};
ghost use Rattle.st_emit.specs.inside.NameViews.{texts_view};
ghost use Rattle.st_expression_stack.specs.inside.Called.{is_kept, Keeps, IsTaken, own_by, AreFirst, or_text, listed_or, items_now};
ghost use Rattle.st_expression_stack.specs.Names.{numeral, numbered, first_free, own_number};

use itoa::Buffer;
use st_emit::{TextList, sum};
use st_scan::Text;
use std::alloc::{AllocError, Global};
use std::collections::BTreeSet;

/// The names of a class, and how many it has.
#[derive(Drop)]
pub(crate) struct Taken {
    names: BTreeSet<Text>,
    count: usize,
}

/// Keeps one text more.
fn keep(alloc: Global, taken: &mut BTreeSet<Text>, text: &[u8]) -> Result<(), AllocError>
    ensures { OnOk result (Keeps (text.now ∷ []) taken.old.keys taken.new.keys) }
{
    taken.insert(text.to_vec(alloc)?)?;
    Ok(())
}

/// Keeps texts besides others.
fn keep_all(alloc: Global, taken: &mut BTreeSet<Text>, texts: &[Text]) -> Result<(), AllocError>
    ensures { OnOk result (Keeps (texts_view texts.now) taken.old.keys taken.new.keys) }
{
    for text in texts {
        keep(alloc, taken, text)?;
    }
    Ok(())
}

/// The names of a class: its instance variables and what is shared.
pub(crate) fn taken_of(alloc: Global, fields: &[Text], shared: &[Text]) -> Result<Taken, AllocError>
    ensures { IfOk result (IsTaken (texts_view fields.now ++ texts_view shared.now)) }
{
    let mut names = BTreeSet::new(alloc);
    keep_all(alloc, &mut names, fields)?;
    keep_all(alloc, &mut names, shared)?;
    let count = sum(fields.len(), shared.len())?;
    Ok(Taken { names, count })
}

/// A number in decimal.
fn decimal_text(alloc: Global, number: usize) -> Result<Text, AllocError>
    ensures { IfOk result (λ t. t.items ≡ decimal number) }
{
    let mut buffer = Buffer::new();
    buffer.format(number).as_bytes().to_vec(alloc)
}

/// A numeral of its own for each number, from 1 on.
fn numeral(alloc: Global, number: usize) -> Result<Text, AllocError>
    ensures { IfOk result (λ t. t.items ≡ numeral number) }
{
    let count = sum(number, 1)?;
    decimal_text(alloc, count)
}

/// `t1`, `t2` and so on, by their numbers from 0 on.
fn numbered(alloc: Global, number: usize) -> Result<Text, AllocError>
    ensures { IfOk result (λ t. t.items ≡ numbered number) }
{
    let mut text = Vec::new(alloc);
    text.push(b't')?;
    text.extend_from_slice(&numeral(alloc, number)?)?;
    Ok(text)
}

/// Whether `t1`, `t2` and so on is a name of the class, by its number.
fn is_taken(alloc: Global, taken: &Taken, number: usize) -> Result<bool, AllocError>
    ensures { IfOk result (λ b. b ≡ is_kept taken.now.names.keys (numbered number)) }
{
    let text = numbered(alloc, number)?;
    Ok(taken.names.contains(text.as_slice()))
}

/// The first number from one on that isn't taken.
fn first_free(alloc: Global, taken: &Taken, from: usize) -> Result<usize, AllocError>
    ensures { let is_taken = is_kept taken.now.names.keys in
        IfOk result (λ n. n ≡ first_free is_taken taken.now.count from) }
{
    let mut number = from;
    for i in 0..taken.count {
        if !is_taken(alloc, taken, number)? {
            return Ok(number);
        }
        number = sum(number, 1)?;
    }
    Ok(number)
}

/// The number of one of the method's own variables.
fn own_number(alloc: Global, taken: &Taken, variable: usize) -> Result<usize, AllocError>
    ensures { IfOk result (λ n. n ≡ own_number (is_kept taken.now.names.keys) taken.now.count variable) }
{
    let mut number = first_free(alloc, taken, 0)?;
    for i in 0..variable {
        let next = sum(number, 1)?;
        number = first_free(alloc, taken, next)?;
    }
    Ok(number)
}

/// What one of the method's own variables is called.
fn own_name(alloc: Global, taken: &Taken, variable: usize) -> Result<Text, AllocError>
    ensures { IfOk result (λ t. t.items ≡ own_by taken.now variable) }
{
    let number = own_number(alloc, taken, variable)?;
    numbered(alloc, number)
}

/// A text, or else what one of the method's own variables is called.
fn text_or_own(
    alloc: Global,
    text: Option<&Text>,
    taken: &Taken,
    variable: usize,
) -> Result<Text, AllocError>
    ensures { IfOk result (λ t. t.items ≡ or_text (option_map items_now text.entry) (own_by taken.now variable)) }
{
    match text {
        Some(text) => text.to_vec(alloc),
        None => own_name(alloc, taken, variable),
    }
}

/// What one of the method's own variables is called, if not all are listed.
pub(crate) fn listed_name(
    alloc: Global,
    texts: &[Text],
    taken: &Taken,
    variable: usize,
) -> Result<Text, AllocError>
    ensures { IfOk result (λ t. t.items
        ≡ listed_or (texts_view texts.now) variable (own_by taken.now variable)) }
{
    text_or_own(alloc, texts.get(variable), taken, variable)
}

/// What the first of a method's own variables are called, one after the other.
pub(crate) fn first_names(
    alloc: Global,
    taken: &Taken,
    count: usize,
) -> Result<TextList, AllocError>
    ensures { IfOk result (λ ts. AreFirst taken.now ts.items) }
{
    let mut texts = Vec::new(alloc);
    let mut number = first_free(alloc, taken, 0)?;
    for i in 0..count {
        texts.push(numbered(alloc, number)?)?;
        let next = sum(number, 1)?;
        number = first_free(alloc, taken, next)?;
    }
    Ok(texts)
}
