//! Strings.

ghost use Rattle.std.specs.Prelude.{◌≡◌, ◌<◌, ◌==◌, IfSome, length};
ghost use Rattle.std.specs.Option.{option_map};
ghost use Rattle.std.specs.Str.{byte};
ghost use Rattle.st_scan.specs.Pieces.{begins, doubled};
ghost use Rattle.st_scan.specs.Fronts.{shown, inside_of, string_of};

use crate::fault::Cause;
use crate::front::Front;
use crate::token::Sort;

/// A string, by what stands behind its first quote.
pub fn string(text: &[u8]) -> Front
    ensures { result ≡ shown (string_of (inside_of text.now)) }
{
    match inside(text) {
        Some(length) => Front::Token(length + 2, Sort::Bytes),
        None => Front::Fault(Cause::Unclosed),
    }
}

/// How many bytes stand before the quote that closes a string: the first one that is not doubled.
fn inside(text: &[u8]) -> Option<usize>
    ensures exact { result ≡ option_map (λ bs. length (doubled bs)) (inside_of text.now) }
    ensures within { IfSome result (λ n. n < length text.now) }
{
    let mut length = 0;
    while length < text.len() {
        if text[length] != b'\'' {
            length += 1;
        } else if begins_with_quote(&text[length + 1..]) {
            length += 2;
        } else {
            return Some(length);
        }
    }
    None
}

/// Whether a quote stands first.
fn begins_with_quote(text: &[u8]) -> bool
    ensures { result ≡ begins (λ b. b == byte "'") text.now }
{
    matches!(text, [b'\'', ..])
}
