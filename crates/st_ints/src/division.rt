ghost use Rattle.std.specs.Prelude.{◌≡◌, IfSome, ◌≤◌, false, unsigned_abs, ◌-ℤ◌, ◌*ℤ◌};
ghost use Rattle.st_model.specs.Integers.{is_zero, floor_quotient, exact_quotient, modulo, quotient_down, quotient};
ghost use Rattle.st_ints.specs.inside.Answers.{IsOfSmall};

use crate::sums::within_range;
use st_model::IntAnswer;

/// The quotient toward minus infinity by a divisor that isn't 0.
#[tactic(auto, using(std::proofs::lemmas::Int::ints))]
fn floor_quotient(a: i32, b: i32) -> i32
    requires dividend { unsigned_abs a ≤ 16384 }
    requires divisor { unsigned_abs b ≤ 16384 }
    requires nonzero { is_zero b ≡ false }
    ensures quotient { result ≡ floor_quotient a b }
    ensures bound { unsigned_abs result ≤ 16384 }
{
    if b < 0 {
        (-a).div_euclid(-b)
    } else {
        a.div_euclid(b)
    }
}

/// The quotient, where nothing remains (primitive 10).
pub fn exact_quotient(a: i16, b: i16) -> Option<IntAnswer>
    ensures answer { result ≡ exact_quotient a b }
    ensures small { IfSome result IsOfSmall }
{
    let x = i32::from(a);
    let y = i32::from(b);
    if y == 0 {
        return None;
    }
    if x % y == 0 {
        within_range(x / y)
    } else {
        None
    }
}

/// What remains of a where b is taken from it so often.
fn remainder(a: i32, b: i32, times: i32) -> i32
    requires dividend { unsigned_abs a ≤ 16384 }
    requires divisor { unsigned_abs b ≤ 16384 }
    requires times { unsigned_abs times ≤ 16384 }
    ensures { result ≡ a -ℤ (b *ℤ times) }
{
    a - b * times
}

/// The remainder of the division toward minus infinity (primitive 11).
pub fn modulo(a: i16, b: i16) -> Option<IntAnswer>
    requires dividend { unsigned_abs a ≤ 16384 }
    requires divisor { unsigned_abs b ≤ 16384 }
    ensures answer { result ≡ modulo a b }
    ensures small { IfSome result IsOfSmall }
{
    let x = i32::from(a);
    let y = i32::from(b);
    if y == 0 {
        return None;
    }
    within_range(remainder(x, y, floor_quotient(x, y)))
}

/// The quotient toward minus infinity (primitive 12).
pub fn quotient_down(a: i16, b: i16) -> Option<IntAnswer>
    requires dividend { unsigned_abs a ≤ 16384 }
    requires divisor { unsigned_abs b ≤ 16384 }
    ensures answer { result ≡ quotient_down a b }
    ensures small { IfSome result IsOfSmall }
{
    if b == 0 {
        return None;
    }
    within_range(floor_quotient(i32::from(a), i32::from(b)))
}

/// The quotient toward 0 (primitive 13).
pub fn quotient(a: i16, b: i16) -> Option<IntAnswer>
    ensures answer { result ≡ quotient a b }
    ensures small { IfSome result IsOfSmall }
{
    let x = i32::from(a);
    let y = i32::from(b);
    if y == 0 {
        return None;
    }
    within_range(x / y)
}
