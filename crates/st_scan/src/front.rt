//! What stands at the front of a text.

ghost use Rattle.std.specs.Prelude.{◌≡◌, IfSome, ◌<◌, ◌&&◌, ◌==◌, position, length};
ghost use Rattle.std.specs.Str.{byte};
ghost use Rattle.std.specs.Char.{is_ascii_digit};
ghost use Rattle.st_scan.specs.Pieces.{begins};
ghost use Rattle.st_scan.specs.Fronts.{shown, comment_to, mark_at, character_at, front_of};

use crate::bytes::{begins_operator, is_blank, is_mark};
use crate::fault::Cause;
use crate::number::number;
use crate::string::string;
use crate::token::Sort;
use crate::word::{hash, operator, word};

/// What stands at the front of a text, with its length: a blank or a comment, or a token. Or why nothing does.
#[derive(Clone, Copy)]
pub enum Front {
    Gap(usize),
    Token(usize, Sort),
    Fault(Cause),
}

/// The front of a text. `signs` says whether a `-` may be a sign there.
#[tactic(auto, unfolding(crate::specs::Fronts::front_of))]
pub fn front_of(signs: bool, text: &[u8]) -> Front
    ensures { result ≡ shown (front_of signs text.now) }
{
    let [first, rest @ ..] = text else {
        return Front::Fault(Cause::Character);
    };
    let first = *first;
    if is_blank(first) {
        Front::Gap(1)
    } else if first == b'"' {
        comment(rest)
    } else if first.is_ascii_alphabetic() {
        word(text)
    } else if first.is_ascii_digit() {
        number(false, text)
    } else if is_sign(first, rest) && signs {
        number(true, rest)
    } else if begins_operator(first) {
        Front::Token(operator(text), Sort::Operator)
    } else if is_mark(first) {
        mark(first, rest)
    } else if first == b'$' {
        character(rest)
    } else if first == b'\'' {
        string(rest)
    } else if first == b'#' {
        hash(rest)
    } else {
        Front::Fault(Cause::Character)
    }
}

/// Whether this is a `-` directly before a digit.
fn is_sign(first: u8, rest: &[u8]) -> bool
    ensures { result ≡ (first == byte "-" && begins is_ascii_digit rest.now) }
{
    first == b'-' && matches!(rest, [digit, ..] if digit.is_ascii_digit())
}

/// A comment, by what stands behind its first quote.
fn comment(text: &[u8]) -> Front
    ensures { result ≡ shown (comment_to (position (λ b. b == byte "\"") text.now) text.now) }
{
    match quote(text) {
        Some(inside) => Front::Gap(inside + 2),
        None => Front::Fault(Cause::Unclosed),
    }
}

/// Where the first quote stands.
fn quote(text: &[u8]) -> Option<usize>
    ensures exact { result ≡ position (λ b. b == byte "\"") text.now }
    ensures within { IfSome result (λ n. n < length text.now) }
{
    text.iter().position(|b| *b == b'"')
}

/// The character behind `$`.
#[tactic(auto, unfolding(crate::specs::Fronts::character_at))]
fn character(text: &[u8]) -> Front
    ensures { result ≡ shown (character_at text.now) }
{
    match text {
        [] => Front::Fault(Cause::Character),
        [byte, ..] => Front::Token(2, Sort::Character(*byte)),
    }
}

/// A mark, with what stands behind its first byte.
#[tactic(auto, unfolding(crate::specs::Fronts::mark_at))]
fn mark(first: u8, rest: &[u8]) -> Front
    ensures { result ≡ shown (mark_at first rest.now) }
{
    if first == b':' && matches!(rest, [b'=', ..]) {
        Front::Token(2, Sort::Mark)
    } else {
        Front::Token(1, Sort::Mark)
    }
}
