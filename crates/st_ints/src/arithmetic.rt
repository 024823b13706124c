ghost use Rattle.std.specs.Prelude.{◌≡◌, Some, IfSome, ◌≤◌, ◌≤ℤ◌, pos, negsuc};
ghost use Rattle.st_model.specs.Integers.{binary};
ghost use Rattle.st_model.specs.declared.integers.IntAnswer.TheVariants.{Truth};
ghost use Rattle.st_ints.specs.inside.Answers.{IsOfSmall};

use crate::division::{exact_quotient, modulo, quotient, quotient_down};
use crate::small_shift::small_shift;
use crate::sums::{difference, product, sum, within_range};
use st_model::IntAnswer;

/// What comparison n answers of a and b: of the primitives 3 to 8.
#[tactic(auto, unfolding(st_model::specs::Integers::binary))]
fn comparison(n: u8, a: i16, b: i16) -> bool
    requires first { 3 ≤ n }
    requires last { n ≤ 8 }
    ensures { Some (Truth result) ≡ binary n a b }
{
    match n {
        3 => a < b,
        4 => b < a,
        5 => a <= b,
        6 => b <= a,
        7 => a == b,
        _ => a != b,
    }
}

/// Primitive n of a and b, which are SmallIntegers, or none where it fails: where a quotient isn't exact or its divisor is 0,
/// and where the answer is no SmallInteger.
#[tactic(auto, unfolding(st_model::specs::Integers::binary))]
pub fn binary(n: u8, a: i16, b: i16) -> Option<IntAnswer>
    requires first { 1 ≤ n }
    requires last { n ≤ 18 }
    requires a_low { negsuc 16383 ≤ℤ a }
    requires a_high { a ≤ℤ pos 16383 }
    requires b_low { negsuc 16383 ≤ℤ b }
    requires b_high { b ≤ℤ pos 16383 }
    ensures answer { result ≡ binary n a b }
    ensures small { IfSome result IsOfSmall }
{
    match n {
        1 => sum(a, b),
        2 => difference(a, b),
        3..=8 => Some(IntAnswer::Truth(comparison(n, a, b))),
        9 => product(a, b),
        10 => exact_quotient(a, b),
        11 => modulo(a, b),
        12 => quotient_down(a, b),
        13 => quotient(a, b),
        14 => within_range(i32::from(a & b)),
        15 => within_range(i32::from(a | b)),
        16 => within_range(i32::from(a ^ b)),
        17 => small_shift(a, b),
        _ => Some(IntAnswer::Point(a, b)),
    }
}
