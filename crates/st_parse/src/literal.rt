//! Literals.

ghost use Rattle.std.specs.Prelude.{◌≡◌, ◌∷◌, [], false, drop, IfOk};
ghost use Rattle.st_scan.specs.Views.{content_view, element_view, elements_view, no_elements};
ghost use Rattle.st_grammar.specs.Trees.{undoubled, between_quotes, word_content, content_of, constant_at};
ghost use Rattle.st_grammar.specs.Reading.{Gives, joined_step, joined_at, keyword_symbol_at};
ghost use Rattle.st_grammar.specs.Reading.{constant_element_at, nested_at, element_at, elements_step};
ghost use Rattle.st_grammar.specs.Reading.{elements_at, array_at};
ghost use Rattle.st_parse.specs.inside.Answers.{ReadsLiteral, ReadsArray, nested};

use crate::read::Read;
use st_grammar::leaf::{Kind, Leaf, bytes_of};
use st_grammar::read::{ReadError, starts, token};
use st_scan::{Cause, Content, Element, ElementList, Sort, Text};
use std::alloc::{AllocError, Global};

/// What an element of one token begins with: a literal, a name or an operator.
const PLAIN: [Kind; 7] = [
    Kind::Number,
    Kind::Constant,
    Kind::Name,
    Kind::Operator,
    Kind::Bar,
    Kind::Less,
    Kind::Greater,
];

/// A keyword that is joined to none before it.
const FIRST_KEYWORDS: [Kind; 2] = [Kind::Keyword, Kind::Primitive];

/// What an element begins with.
const ELEMENT_STARTS: [Kind; 11] = [
    Kind::Opening,
    Kind::Open,
    Kind::Keyword,
    Kind::Primitive,
    Kind::Number,
    Kind::Constant,
    Kind::Name,
    Kind::Operator,
    Kind::Bar,
    Kind::Less,
    Kind::Greater,
];

/// The bytes between a string's two quotes.
fn between_quotes(bytes: &[u8]) -> &[u8]
    ensures { result.now ≡ between_quotes bytes.now }
{
    match bytes {
        [_, inside @ .., _] => inside,
        _ => &[],
    }
}

/// A string's bytes, where each doubled quote is one.
fn undoubled(alloc: Global, bytes: &[u8]) -> Result<Text, AllocError>
    ensures { IfOk result (λ text. text.items ≡ undoubled false bytes.now) }
{
    let mut text = Vec::new(alloc);
    let mut second = false;
    for byte in bytes {
        if second {
            second = false;
        } else {
            text.push(*byte)?;
            second = *byte == b'\'';
        }
    }
    Ok(text)
}

/// What a name is in a literal array.
fn word(alloc: Global, bytes: &[u8]) -> Result<Content, AllocError>
    ensures { IfOk result (λ c. content_view c ≡ word_content bytes.now) }
{
    if bytes == b"nil".as_slice() {
        Ok(Content::Nil)
    } else if bytes == b"false".as_slice() {
        Ok(Content::False)
    } else if bytes == b"true".as_slice() {
        Ok(Content::True)
    } else {
        Ok(Content::Symbol(bytes.to_vec(alloc)?))
    }
}

/// The bytes behind the first one.
fn behind_first(bytes: &[u8]) -> &[u8]
    ensures { result.now ≡ drop 1 bytes.now }
{
    match bytes {
        [_, rest @ ..] => rest,
        [] => bytes,
    }
}

/// What a token of this sort is as a literal.
fn content(alloc: Global, sort: Sort, bytes: &[u8]) -> Result<Content, AllocError>
    ensures { IfOk result (λ c. content_view c ≡ content_of sort bytes.now) }
{
    match sort {
        Sort::Number(number) => Ok(Content::Number(number)),
        Sort::Character(byte) => Ok(Content::Character(byte)),
        Sort::Bytes => Ok(Content::Bytes(undoubled(alloc, between_quotes(bytes))?)),
        Sort::Symbol => Ok(Content::Symbol(behind_first(bytes).to_vec(alloc)?)),
        Sort::Name => word(alloc, bytes),
        Sort::Keyword | Sort::Operator | Sort::Opening | Sort::Mark => Ok(Content::Symbol(
            bytes.to_vec(alloc)?,
        )),
    }
}

/// A literal of one token.
fn constant(alloc: Global, text: &[u8], leaf: Leaf) -> Result<Element, AllocError>
    ensures { IfOk result (λ e. element_view e ≡ constant_at text.now leaf) }
{
    let what = content(alloc, leaf.token.sort, bytes_of(text, leaf.token))?;
    Ok(Element {
        place: leaf.place,
        what,
    })
}

/// A literal of one token of these kinds.
#[tactic(auto, unfolding(st_grammar::specs::Reading::constant_element_at))]
pub fn constant_element<'a>(
    alloc: Global,
    text: &[u8],
    kinds: &[Kind],
    leaves: &'a [Leaf],
) -> Read<'a, Element>
    ensures { ReadsLiteral result (constant_element_at text.now kinds.now leaves.now) }
{
    let (leaf, rest) = token(kinds, leaves)?;
    Ok((constant(alloc, text, leaf)?, rest))
}

/// A selector with one more keyword that is joined to it.
#[tactic(auto, unfolding(st_grammar::specs::Reading::joined_step))]
fn joined_keyword<'a>(text: &[u8], mut selector: Text, leaves: &'a [Leaf]) -> Read<'a, Text>
    ensures { Gives (λ x. (x.0.items, x.1.now)) result (joined_step text.now selector.items leaves.now) }
{
    let (leaf, rest) = token(&[Kind::Joined], leaves)?;
    selector.extend_from_slice(bytes_of(text, leaf.token))?;
    Ok((selector, rest))
}

/// A selector with all keywords that are joined to it.
#[tactic(auto, unfolding(st_grammar::specs::Reading::joined_at))]
fn joined_keywords<'a>(text: &[u8], first: Text, leaves: &'a [Leaf]) -> Read<'a, Text>
    ensures { Gives (λ x. (x.0.items, x.1.now)) result (joined_at text.now first.items leaves.now) }
{
    let mut selector = first;
    let mut rest = leaves;
    while starts(&[Kind::Joined], rest) {
        let (longer, after) = joined_keyword(text, selector, rest)?;
        selector = longer;
        rest = after;
    }
    Ok((selector, rest))
}

/// Keywords that follow one another directly.
#[tactic(auto, unfolding(st_grammar::specs::Reading::keyword_symbol_at))]
fn keyword_symbol<'a>(alloc: Global, text: &[u8], leaves: &'a [Leaf]) -> Read<'a, Element>
    ensures { ReadsLiteral result (keyword_symbol_at text.now leaves.now) }
{
    let (leaf, rest) = token(&FIRST_KEYWORDS, leaves)?;
    let first = bytes_of(text, leaf.token).to_vec(alloc)?;
    let (selector, rest) = joined_keywords(text, first, rest)?;
    let what = Content::Symbol(selector);
    let place = leaf.place;
    Ok((Element { place, what }, rest))
}

/// An array, from a leaf of these kinds on.
#[cycle(arrays)]
#[tactic(auto, unfolding(st_grammar::specs::Reading::nested_at), using(st_scan::proofs::Views::views))]
pub fn nested<'a>(
    alloc: Global,
    text: &[u8],
    room: u32,
    kinds: &[Kind],
    leaves: &'a [Leaf],
) -> Read<'a, Element>
    ensures { ReadsLiteral result (nested nested_at text.now room kinds.now leaves.now) }
{
    let (leaf, rest) = token(kinds, leaves)?;
    let (elements, rest) = array(alloc, text, room, rest)?;
    let what = Content::array(elements);
    let place = leaf.place;
    Ok((Element { place, what }, rest))
}

/// An element.
#[cycle(arrays)]
#[tactic(auto, unfolding(st_grammar::specs::Reading::element_at))]
fn element<'a>(alloc: Global, text: &[u8], room: u32, leaves: &'a [Leaf]) -> Read<'a, Element>
    ensures { ReadsLiteral result (nested element_at text.now room leaves.now) }
{
    if starts(&PLAIN, leaves) {
        constant_element(alloc, text, &PLAIN, leaves)
    } else if starts(&FIRST_KEYWORDS, leaves) {
        keyword_symbol(alloc, text, leaves)
    } else {
        nested(alloc, text, room, &[Kind::Opening, Kind::Open], leaves)
    }
}

/// Elements with one more behind them.
#[cycle(arrays)]
#[tactic(auto, unfolding(st_grammar::specs::Reading::elements_step), using(st_scan::proofs::Views::views))]
fn one_more<'a>(
    alloc: Global,
    text: &[u8],
    room: u32,
    mut list: ElementList,
    leaves: &'a [Leaf],
) -> Read<'a, ElementList>
    ensures { ReadsArray result (nested elements_step text.now room (elements_view list.items) leaves.now) }
{
    let (element, rest) = element(alloc, text, room, leaves)?;
    list.push(element)?;
    Ok((list, rest))
}

/// Elements, as long as one stands first.
#[cycle(arrays)]
#[tactic(auto, unfolding(st_grammar::specs::Reading::elements_at))]
fn elements<'a>(alloc: Global, text: &[u8], room: u32, leaves: &'a [Leaf]) -> Read<'a, ElementList>
    ensures { ReadsArray result (nested elements_at text.now room no_elements leaves.now) }
{
    let mut elements = Vec::new(alloc);
    let mut rest = leaves;
    while starts(&ELEMENT_STARTS, rest) {
        let (more, after) = one_more(alloc, text, room, elements, rest)?;
        elements = more;
        rest = after;
    }
    Ok((elements, rest))
}

/// The elements of an array, from behind its opening bracket to its end, where `room` more brackets may be open.
#[cycle(arrays)]
#[tactic(auto, unfolding(st_grammar::specs::Reading::array_at))]
fn array<'a>(alloc: Global, text: &[u8], room: u32, leaves: &'a [Leaf]) -> Read<'a, ElementList>
    ensures { ReadsArray result (array_at text.now room leaves.now) }
{
    if room == 0 {
        return Err(ReadError::too_deep(leaves));
    }
    let (inside, rest) = elements(alloc, text, room - 1, leaves)?;
    let (_close, rest) = token(&[Kind::Close], rest)?;
    Ok((inside, rest))
}
