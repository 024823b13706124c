//! Names, keywords, operators and symbols.

ghost use Rattle.std.specs.Prelude.{◌≡◌, ◌≤◌, ◌+◌, MatchOption, IfSome, IsTrue, IsFalse, length, drop};
ghost use Rattle.std.specs.List.{prefix_len};
ghost use Rattle.std.specs.Char.{is_ascii_alphanumeric};
ghost use Rattle.st_scan.specs.Pieces.{begins_keyword, makes_keyword, keywords_text, symbol_text};
ghost use Rattle.st_scan.specs.Fronts.{shown, word_at, operator_of, keywords_of, selector_at, hash_at};

use crate::bytes::{begins_operator, is_operator_byte, is_second_operator_byte};
use crate::fault::Cause;
use crate::front::Front;
use crate::token::Sort;

/// A name or a keyword, from its letter on.
#[tactic(auto, unfolding(crate::specs::Fronts::word_at))]
pub fn word(text: &[u8]) -> Front
    ensures { result ≡ shown (word_at text.now) }
{
    let (name, rest) = text.split_at(letters_and_digits(text));
    if makes_keyword(rest) {
        Front::Token(name.len() + 1, Sort::Keyword)
    } else {
        Front::Token(name.len(), Sort::Name)
    }
}

/// How many letters and digits stand first.
fn letters_and_digits(text: &[u8]) -> usize
    ensures exact { result ≡ prefix_len is_ascii_alphanumeric text.now }
    ensures within { result ≤ length text.now }
{
    text.iter()
        .take_while(|b| b.is_ascii_alphanumeric())
        .count()
}

/// Whether a name before these bytes is a keyword.
fn makes_keyword(rest: &[u8]) -> bool
    ensures { result ≡ makes_keyword rest.now }
{
    match rest {
        [b':', b'=', ..] => false,
        [b':', ..] => true,
        _ => false,
    }
}

/// How many bytes an operator has that begins the text.
pub fn operator(text: &[u8]) -> usize
    ensures { result ≡ length (operator_of text.now) }
{
    match text {
        [] => 0,
        [first, second, ..] if is_operator_byte(*first) && is_second_operator_byte(*second) => 2,
        _ => 1,
    }
}

/// A symbol or the opening of a literal array, by what stands behind `#`.
#[tactic(auto, unfolding(crate::specs::Fronts::hash_at))]
pub fn hash(text: &[u8]) -> Front
    ensures { result ≡ shown (hash_at text.now) }
{
    let [first, ..] = text else {
        return Front::Fault(Cause::Character);
    };
    let first = *first;
    if first.is_ascii_alphabetic() {
        Front::Token(1 + selector(text), Sort::Symbol)
    } else if begins_operator(first) {
        Front::Token(1 + operator(text), Sort::Symbol)
    } else if first == b'(' {
        Front::Token(2, Sort::Opening)
    } else {
        Front::Fault(Cause::Character)
    }
}

/// How many bytes the name or the keywords have that begin the text.
#[tactic(auto, unfolding(crate::specs::Fronts::selector_at))]
fn selector(text: &[u8]) -> usize
    ensures exact { result ≡ length (symbol_text (selector_at text.now)) }
    ensures within { result ≤ length text.now }
{
    match keyword(text) {
        Some(first) => first + keywords(&text[first..]),
        None => letters_and_digits(text),
    }
}

/// How many bytes the keyword has that begins the text, if one does.
fn keyword(text: &[u8]) -> Option<usize>
    ensures exact { MatchOption result (IsFalse (begins_keyword text.now)) (λ n.
        IsTrue (begins_keyword text.now) × (n ≡ prefix_len is_ascii_alphanumeric text.now + 1)) }
    ensures within { IfSome result (λ n. n ≤ length text.now) }
{
    let (name, rest) = text.split_at(letters_and_digits(text));
    let begins_with_letter = matches!(text, [first, ..] if first.is_ascii_alphabetic());
    (begins_with_letter && makes_keyword(rest)).then_some(name.len() + 1)
}

/// How many bytes the keywords have, directly behind one another, that begin the text.
fn keywords(text: &[u8]) -> usize
    ensures exact { result ≡ length (keywords_text (keywords_of (length text.now) text.now)) }
    ensures within { result ≤ length text.now }
{
    let mut length = 0;
    while let Some(next) = keyword(&text[length..]) {
        length += next;
    }
    length
}
