//! Numbers among literals.

ghost use Rattle.std.specs.Prelude.{◌≡◌, true, option_map};
ghost use Rattle.st_model.specs.Values.{value, is_small};
ghost use Rattle.st_emit.specs.inside.Views.{literal_view};
ghost use Rattle.st_parts.specs.Numbers.{small_number, ends_high, number_within, large_number};

use st_emit::Literal;
use st_model::Oop;

/// The greatest SmallInteger.
const MOST_SMALL: u128 = 16_383;

/// 2^120: a number from there on has no room for one more byte below it.
const FULL: u128 = 1_329_227_995_784_915_872_903_807_060_280_344_576;

/// The number of a SmallInteger.
pub(crate) fn small_number(v: Oop) -> Literal
    requires { is_small (value v) ≡ true }
    ensures { literal_view result ≡ small_number (value v) }
{
    let n = v.integer();
    Literal::Number {
        minus: n < 0,
        size: u128::from(n.unsigned_abs()),
    }
}

/// Whether there is a last byte that isn't 0.
fn ends_high(bytes: &[u8]) -> bool
    ensures { result ≡ ends_high bytes.now }
{
    let count = bytes.len();
    count > 0 && bytes[count - 1] != 0
}

/// The number of bytes, the low one first, where it has no more than 128 bits.
fn number_within(bytes: &[u8]) -> Option<u128>
    ensures { result ≡ number_within bytes.now }
{
    let mut size: u128 = 0;
    let mut left = bytes.len();
    while left > 0 {
        if size >= FULL {
            return None;
        }
        left -= 1;
        size = size * 256 + u128::from(bytes[left]);
    }
    Some(size)
}

/// A number above the SmallIntegers, which has no more bytes than it needs.
pub(crate) fn large_number(bytes: &[u8]) -> Option<Literal>
    ensures { option_map literal_view result ≡ large_number bytes.now }
{
    if !ends_high(bytes) {
        return None;
    }
    let size = number_within(bytes)?;
    if size > MOST_SMALL {
        Some(Literal::Number { minus: false, size })
    } else {
        None
    }
}
