// The form of a chunk.
ghost use Rattle.std.specs.{Prelude.{◌≡◌, ◌≤◌, ◌∷◌, [], None, IfOk, MatchOption, length}, Option.option_map};
ghost use Rattle.st_chunk.specs.Texts.{most};
ghost use Rattle.st_kernel_text.specs.declared.place.ChunkPlace.TheVariants.{Declarations, Header as InHeader, Methods, Groups};
ghost use Rattle.st_kernel_text.specs.Words.{words, words as words_in};
ghost use Rattle.st_kernel_text.specs.Forms.{shape_named, keyword_named, class_by, class_in, pool_in, global_in, start_in, start_by, declaration_by};
ghost use Rattle.st_kernel_text.specs.{Forms.{part_at, formed_at}, inside.Views.part_of};

use crate::keyword::Keyword;
use crate::part::{Class, Part, Pool, Side, Start};
use crate::place::ChunkPlace;
use crate::shape::Shape;
use crate::table::value_named;
use crate::words::{first_word, is_name, names_in};
use st_chunk::{Buffer, is_empty, read_heading, trimmed};
use std::alloc::{AllocError, Global};

/// The most bytes of a chunk.
const MOST: usize = 65_536;

/// The words of shapes.
const SHAPES: [(&[u8], Shape); 4] = [
    (b"fixed", Shape::Fixed),
    (b"indexed", Shape::Indexed),
    (b"words", Shape::Words),
    (b"bytes", Shape::Bytes),
];

/// The shape that a word names.
fn shape_named(word: &[u8]) -> Option<Shape>
    ensures { result ≡ shape_named word.now }
{
    value_named(&SHAPES, word)
}

/// The words with which declarations, and the start, begin.
const KEYWORDS: [(&[u8], Keyword); 4] = [
    (b"class", Keyword::Class),
    (b"pool", Keyword::Pool),
    (b"global", Keyword::Global),
    (b"start", Keyword::Start),
];

/// With which word a declaration, or the start, begins, if this is one.
fn keyword_named(word: &[u8]) -> Option<Keyword>
    ensures { result ≡ keyword_named word.now }
{
    value_named(&KEYWORDS, word)
}

/// The words of a class up to those that name variables, and the text behind them.
#[derive(Clone, Copy)]
struct ClassWords<'a> {
    name: &'a [u8],
    link: &'a [u8],
    above: &'a [u8],
    kind: &'a [u8],
    names: &'a [u8],
}

/// The words of a class.
fn class_words(text: &[u8]) -> Option<ClassWords<'_>>
    ensures { MatchOption result (class_in (words text.now) ≡ None) (λ w. words text.now
        ≡ w.name.now ∷ w.link.now ∷ w.above.now ∷ w.kind.now ∷ words w.names.now) }
{
    let (name, text) = first_word(text)?;
    let (link, text) = first_word(text)?;
    let (above, text) = first_word(text)?;
    let (kind, names) = first_word(text)?;
    Some(ClassWords {
        name,
        link,
        above,
        kind,
        names,
    })
}

/// The class that is declared by these words, of which some may be wrong.
fn class_by(alloc: Global, words: ClassWords<'_>) -> Result<Option<Part>, AllocError>
    ensures { IfOk result (λ p. option_map part_of p ≡ class_by words.entry.name.now words.entry.link.now
        words.entry.above.now words.entry.kind.now (words_in words.entry.names.now)) }
{
    if !is_name(words.name) || words.link != b"super".as_slice() || !is_name(words.above) {
        return Ok(None);
    }
    let Some(shape) = shape_named(words.kind) else {
        return Ok(None);
    };
    let Some(variables) = names_in(alloc, words.names)? else {
        return Ok(None);
    };
    Ok(Some(Part::Class(Class {
        name: words.name.to_vec(alloc)?,
        above: words.above.to_vec(alloc)?,
        shape,
        variables,
    })))
}

/// The class that is declared by what stands behind `class`.
fn class_in(alloc: Global, text: &[u8]) -> Result<Option<Part>, AllocError>
    ensures { IfOk result (λ p. option_map part_of p ≡ class_in (words text.now)) }
{
    match class_words(text) {
        Some(words) => class_by(alloc, words),
        None => Ok(None),
    }
}

/// The class variables that are declared by what stands behind `pool`.
fn pool_in(alloc: Global, text: &[u8]) -> Result<Option<Part>, AllocError>
    ensures { IfOk result (λ p. option_map part_of p ≡ pool_in (words text.now)) }
{
    let Some((class, names)) = first_word(text) else {
        return Ok(None);
    };
    if !is_name(class) {
        return Ok(None);
    }
    let Some(variables) = names_in(alloc, names)? else {
        return Ok(None);
    };
    Ok(Some(Part::Pool(Pool {
        class: class.to_vec(alloc)?,
        variables,
    })))
}

/// The global that is declared by what stands behind `global`.
fn global_in(alloc: Global, text: &[u8]) -> Result<Option<Part>, AllocError>
    ensures { IfOk result (λ p. option_map part_of p ≡ global_in (words text.now)) }
{
    let Some((name, text)) = first_word(text) else {
        return Ok(None);
    };
    if first_word(text).is_some() || !is_name(name) {
        return Ok(None);
    }
    Ok(Some(Part::Global(name.to_vec(alloc)?)))
}

/// The words of a start, where there are two.
fn start_words(text: &[u8]) -> Option<(&[u8], &[u8])>
    ensures { MatchOption result (start_in (words text.now) ≡ None)
        (λ w. words text.now ≡ w.0.now ∷ w.1.now ∷ []) }
{
    let (receiver, text) = first_word(text)?;
    let (selector, text) = first_word(text)?;
    match first_word(text) {
        Some(_) => None,
        None => Some((receiver, selector)),
    }
}

/// The start by what stands behind `start`.
fn start_in(alloc: Global, text: &[u8]) -> Result<Option<Part>, AllocError>
    ensures { IfOk result (λ p. option_map part_of p ≡ start_in (words text.now)) }
{
    let Some((receiver, selector)) = start_words(text) else {
        return Ok(None);
    };
    if !is_name(receiver) {
        return Ok(None);
    }
    Ok(Some(Part::Start(Start {
        receiver: receiver.to_vec(alloc)?,
        selector: selector.to_vec(alloc)?,
    })))
}

/// What the text behind a word says: the start.
fn start_by(alloc: Global, word: Option<Keyword>, text: &[u8]) -> Result<Option<Part>, AllocError>
    ensures { IfOk result (λ p. option_map part_of p ≡ start_by word (words text.now)) }
{
    match word {
        Some(Keyword::Start) => start_in(alloc, text),
        _ => Ok(None),
    }
}

/// What the text behind a word says: a declaration, or the start.
fn declaration_by(
    alloc: Global,
    word: Option<Keyword>,
    text: &[u8],
) -> Result<Option<Part>, AllocError>
    ensures { IfOk result (λ p. option_map part_of p ≡ declaration_by word (words text.now)) }
{
    match word {
        Some(Keyword::Class) => class_in(alloc, text),
        Some(Keyword::Pool) => pool_in(alloc, text),
        Some(Keyword::Global) => global_in(alloc, text),
        Some(Keyword::Start) => start_in(alloc, text),
        None => Ok(None),
    }
}

/// What a chunk among the declarations says.
fn declaration_in(alloc: Global, chunk: &[u8]) -> Result<Option<Part>, AllocError>
    ensures { IfOk result (λ p. option_map part_of p ≡ part_at Declarations chunk.now) }
{
    if is_empty(chunk) {
        return Ok(Some(Part::Opening));
    }
    match first_word(chunk) {
        Some((word, text)) => declaration_by(alloc, keyword_named(word), text),
        None => Ok(None),
    }
}

/// What a chunk behind a group says.
fn next_in(alloc: Global, chunk: &[u8]) -> Result<Option<Part>, AllocError>
    ensures { IfOk result (λ p. option_map part_of p ≡ part_at Groups chunk.now) }
{
    if is_empty(chunk) {
        return Ok(Some(Part::Opening));
    }
    match first_word(chunk) {
        Some((word, text)) => start_by(alloc, keyword_named(word), text),
        None => Ok(None),
    }
}

/// What a chunk behind a group's header says.
fn method_in(alloc: Global, chunk: &[u8]) -> Result<Option<Part>, AllocError>
    ensures { IfOk result (λ p. option_map part_of p ≡ part_at Methods chunk.now) }
{
    if is_empty(chunk) {
        return Ok(Some(Part::Closing));
    }
    Ok(Some(Part::Method(trimmed(chunk).to_vec(alloc)?)))
}

/// The header that a chunk is.
fn header_of(alloc: Global, chunk: &[u8]) -> Result<Option<Part>, AllocError>
    requires { length chunk.now ≤ most }
    ensures { IfOk result (λ p. option_map part_of p ≡ part_at InHeader chunk.now) }
{
    let mut held = Buffer::new(alloc)?;
    let Some(heading) = read_heading(chunk, &mut held) else {
        return Ok(None);
    };
    Ok(Some(Part::Header(Side {
        class: held.as_slice()[..heading.class_length].to_vec(alloc)?,
        meta: heading.meta,
    })))
}

/// What a chunk says by where it stands, where it has the form that is asked there.
pub(crate) fn part_at(
    alloc: Global,
    place: ChunkPlace,
    chunk: &[u8],
) -> Result<Option<Part>, AllocError>
    ensures { IfOk result (λ p. option_map part_of p ≡ formed_at place chunk.now) }
{
    if chunk.len() > MOST {
        return Ok(None);
    }
    match place {
        ChunkPlace::Declarations => declaration_in(alloc, chunk),
        ChunkPlace::Header => header_of(alloc, chunk),
        ChunkPlace::Methods => method_in(alloc, chunk),
        ChunkPlace::Groups => next_in(alloc, chunk),
        ChunkPlace::End => Ok(None),
    }
}
