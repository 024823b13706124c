// Lines that ask to look at something.
ghost use Rattle.std.specs.Prelude.{◌≡◌};
ghost use Rattle.std.specs.List.{list_all};
ghost use Rattle.std.specs.Char.{is_ascii_alphanumeric};
ghost use Rattle.std.specs.Option.{option_map};
ghost use Rattle.st_chunk.specs.Groups.{is_name};
ghost use Rattle.st_chunk.specs.Asks.{side_of, ask_of};
ghost use Rattle.st_chunk.specs.Lines.{word_end, first_word, arguments, pointer_in, selector_in, class_in, side_in, method_in, until_in};
ghost use Rattle.st_chunk.specs.Lines.{ask_with, ask_alone, line_ask};

use crate::ask::{LentAsk, LentSide};
use crate::line::{arguments, first_word, read_number, word_end};

/// An object's pointer: an even number from 2 to 65534.
fn pointer_in(text: &[u8]) -> Option<u16>
    ensures { result ≡ pointer_in text.now }
{
    let number = read_number(65_534, text)?;
    if number >= 2 && number % 2 == 0 {
        Some(number as u16)
    } else {
        None
    }
}

/// A selector: any word.
fn selector_in(text: &[u8]) -> Option<&[u8]>
    ensures { option_map (λ x. x.now) result ≡ selector_in text.now }
{
    if !text.is_empty() && word_end(text) == text.len() {
        Some(text)
    } else {
        None
    }
}

/// Whether there are letters and digits alone.
fn is_alphanumeric(word: &[u8]) -> bool
    ensures { result ≡ list_all is_ascii_alphanumeric word.now }
{
    word.iter().all(|b| b.is_ascii_alphanumeric())
}

/// Whether a word is a name: letters and digits, a letter first.
#[tactic(auto, using(crate::proofs::Words::words))]
fn is_name(word: &[u8]) -> bool
    ensures { result ≡ is_name word.now }
{
    !word.is_empty() && word[0].is_ascii_alphabetic() && is_alphanumeric(word)
}

/// The first word, where it is a name.
fn class_in(text: &[u8]) -> Option<&[u8]>
    ensures { option_map (λ x. x.now) result ≡ class_in text.now }
{
    let word = first_word(text);
    if is_name(word) { Some(word) } else { None }
}

/// A class's side: `NAME`, or `NAME class`.
fn side_in(text: &[u8]) -> Option<LentSide<'_>>
    ensures { option_map side_of result ≡ side_in text.now }
{
    let class = class_in(text)?;
    let Some(word) = arguments(text) else {
        return Some(LentSide { class, meta: false });
    };
    if word == b"class".as_slice() {
        Some(LentSide { class, meta: true })
    } else {
        None
    }
}

/// A class's side and a selector: `NAME S`, or `NAME class S`.
fn method_in(text: &[u8]) -> Option<(LentSide<'_>, &[u8])>
    ensures { option_map (λ m. (side_of m.0, m.1.now)) result ≡ method_in text.now }
{
    let class = class_in(text)?;
    let others = arguments(text)?;
    let Some(behind) = arguments(others) else {
        let selector = selector_in(others)?;
        return Some((LentSide { class, meta: false }, selector));
    };
    if first_word(others) == b"class".as_slice() {
        let selector = selector_in(behind)?;
        Some((LentSide { class, meta: true }, selector))
    } else {
        None
    }
}

/// A method to run up to, within so many cycles: `N NAME S`, or `N NAME class S`.
fn until_in(text: &[u8]) -> Option<LentAsk<'_>>
    ensures { option_map ask_of result ≡ until_in text.now }
{
    let cycles = read_number(1_000_000_000, first_word(text))?;
    let (side, selector) = method_in(arguments(text)?)?;
    Some(LentAsk::Until(cycles, side, selector))
}

/// What a line of a word and its arguments asks to look at.
#[tactic(auto, unfolding(crate::specs::Lines::ask_with))]
fn ask_with<'a>(word: &[u8], text: &'a [u8]) -> Option<LentAsk<'a>>
    ensures { option_map ask_of result ≡ ask_with word.now text.now }
{
    if word == b"object".as_slice() {
        return Some(LentAsk::Object(pointer_in(text)?));
    }
    if word == b"methods".as_slice() {
        return Some(LentAsk::Methods(side_in(text)?));
    }
    if word == b"source".as_slice() {
        let (side, selector) = method_in(text)?;
        return Some(LentAsk::Source(side, selector));
    }
    if word == b"bytecodes".as_slice() {
        let (side, selector) = method_in(text)?;
        return Some(LentAsk::Bytecodes(side, selector));
    }
    if word == b"senders".as_slice() {
        return Some(LentAsk::Senders(selector_in(text)?));
    }
    if word == b"until".as_slice() {
        return until_in(text);
    }
    None
}

/// What a line of one word asks to look at.
#[tactic(auto, unfolding(crate::specs::Lines::ask_alone))]
fn ask_alone(word: &[u8]) -> Option<LentAsk<'_>>
    ensures { option_map ask_of result ≡ ask_alone word.now }
{
    if word == b"display".as_slice() {
        return Some(LentAsk::Display);
    }
    if word == b"classes".as_slice() {
        return Some(LentAsk::Classes);
    }
    None
}

/// What a line asks to look at, if it does.
#[tactic(auto, unfolding(crate::specs::Lines::line_ask))]
pub(crate) fn line_ask(text: &[u8]) -> Option<LentAsk<'_>>
    ensures { option_map ask_of result ≡ line_ask text.now }
{
    let word = first_word(text);
    match arguments(text) {
        Some(others) => ask_with(word, others),
        None => ask_alone(word),
    }
}
