//! Numbers.

ghost use Rattle.std.specs.Prelude.{◌≡◌, ◌≤◌, ◌<◌, ◌+◌, ◌^◌, ◌∷◌, IsTrue, IsFalse, MatchOption, length};
ghost use Rattle.std.specs.List.{prefix_len};
ghost use Rattle.std.specs.Str.{byte};
ghost use Rattle.std.specs.Char.{is_ascii_digit};
ghost use Rattle.st_scan.specs.Bytes.{is_radix_digit};
ghost use Rattle.st_scan.specs.Pieces.{digits_text, makes_radix, makes_float};
ghost use Rattle.st_scan.specs.Fronts.{shown, number_at, number_before};
ghost use Rattle.st_scan.specs.inside.Numerals.{digits_of, allowed_size, size_in, with_digit};

use crate::bytes::is_radix_digit;
use crate::fault::Cause;
use crate::front::Front;
use crate::token::{Signed, Sort};

/// The digits of a number: decimal ones, or a radix and those behind its `r`.
#[derive(Clone, Copy)]
enum Numeral<'a> {
    Decimal(&'a [u8]),
    Radix(&'a [u8], &'a [u8]),
}

impl Numeral<'_> {
    /// How many bytes this takes.
    fn len(self) -> usize
        requires { length (digits_text (digits_of self)) < 2 ^ 63 }
        ensures { result ≡ length (digits_text (digits_of self.entry)) }
    {
        match self {
            Numeral::Decimal(digits) => digits.len(),
            Numeral::Radix(radix, digits) => radix.len() + 1 + digits.len(),
        }
    }

    /// The size, where the radix is 2 to 36, the digits are below it, and the size is below 2^128.
    fn size(self) -> Option<u128>
        ensures { result ≡ allowed_size (digits_of self.entry) }
    {
        match self {
            Numeral::Decimal(digits) => size_in(10, digits),
            Numeral::Radix(radix, digits) => match size_in(10, radix)? {
                base @ 2..=36 => size_in(base as u32, digits),
                _ => None,
            },
        }
    }
}

/// The size of digits in a base, where they are below it and the size is below 2^128.
fn size_in(base: u32, digits: &[u8]) -> Option<u128>
    requires low { 2 ≤ base }
    requires high { base ≤ 36 }
    ensures { result ≡ size_in base digits.now }
{
    let mut size = 0;
    for digit in digits {
        size = with_digit(size, base, *digit)?;
    }
    Some(size)
}

/// A size with one more digit behind it, where the digit is below the base and the size below 2^128.
fn with_digit(size: u128, base: u32, digit: u8) -> Option<u128>
    requires low { 2 ≤ base }
    requires high { base ≤ 36 }
    ensures { result ≡ with_digit size base digit }
{
    let digit = char::from(digit).to_digit(base)?;
    size.checked_mul(u128::from(base))?
        .checked_add(u128::from(digit))
}

/// A number before the rest of a text.
fn number_before(minus: bool, numeral: Numeral, rest: &[u8]) -> Front
    requires { length (digits_text (digits_of numeral)) < 2 ^ 63 }
    ensures { result ≡ shown (number_before minus (digits_of numeral.entry) rest.now) }
{
    match numeral.size() {
        None => Front::Fault(Cause::Number),
        Some(_) if makes_float(rest) => Front::Fault(Cause::Float),
        Some(size) => Front::Token(
            numeral.len() + usize::from(minus),
            Sort::Number(Signed { minus, size }),
        ),
    }
}

/// A number, from its first digit on.
#[tactic(auto, unfolding(crate::specs::Fronts::number_at))]
pub fn number(minus: bool, text: &[u8]) -> Front
    ensures { result ≡ shown (number_at minus text.now) }
{
    let (first, rest) = text.split_at(digits(text));
    match behind_radix(rest) {
        None => number_before(minus, Numeral::Decimal(first), rest),
        Some(behind) => {
            let (digits, rest) = behind.split_at(radix_digits(behind));
            number_before(minus, Numeral::Radix(first, digits), rest)
        }
    }
}

/// What stands behind `r`, where digits before these bytes are a radix.
fn behind_radix(rest: &[u8]) -> Option<&[u8]>
    ensures { MatchOption result (IsFalse (makes_radix rest.now))
        (λ behind. IsTrue (makes_radix rest.now) × (rest.now ≡ byte "r" ∷ behind.now)) }
{
    match rest {
        [b'r', behind @ ..] => match behind {
            [digit, ..] if is_radix_digit(*digit) => Some(behind),
            _ => None,
        },
        _ => None,
    }
}

/// How many digits stand first.
fn digits(text: &[u8]) -> usize
    ensures exact { result ≡ prefix_len is_ascii_digit text.now }
    ensures within { result ≤ length text.now }
{
    text.iter().take_while(|b| b.is_ascii_digit()).count()
}

/// How many digits and capitals stand first.
fn radix_digits(text: &[u8]) -> usize
    ensures exact { result ≡ prefix_len is_radix_digit text.now }
    ensures within { result ≤ length text.now }
{
    text.iter().take_while(|b| is_radix_digit(**b)).count()
}

/// Whether a number before these bytes has a fraction or an exponent.
fn makes_float(rest: &[u8]) -> bool
    ensures { result ≡ makes_float rest.now }
{
    match rest {
        [b'.' | b'e', digit, ..] if digit.is_ascii_digit() => true,
        [b'e', b'-', digit, ..] => digit.is_ascii_digit(),
        _ => false,
    }
}
