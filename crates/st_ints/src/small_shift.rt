ghost use Rattle.std.specs.Prelude.{◌≡◌, IfSome, ◌≤◌, ◌<◌, ◌≤ℤ◌, pos, negsuc, unsigned_abs, ◌^◌};
ghost use Rattle.st_model.specs.Integers.{within_range, shifted};
ghost use Rattle.st_ints.specs.inside.Answers.{IsOfSmall};

use crate::sums::{product, within_range};
use st_model::IntAnswer;

/// 2 to the power n.
#[tactic(auto, using(std::proofs::lemmas::Int::ints, crate::proofs::Shifts::powers))]
fn power_of_two(n: u32) -> i16
    requires few { n < 15 }
    ensures power { result ≡ pos (2 ^ n) }
    ensures bound { unsigned_abs result ≤ 16384 }
{
    1 << n
}

/// a times 2 to the power b, which isn't below 0.
#[tactic(auto, using(std::proofs::lemmas::Int::ints, crate::proofs::Shifts::ups))]
fn shift_up(a: i16, b: i16) -> Option<IntAnswer>
    requires number { unsigned_abs a ≤ 16384 }
    requires up { pos 0 ≤ℤ b }
    ensures answer { result ≡ within_range (shifted a b) }
    ensures small { IfSome result IsOfSmall }
{
    if a == 0 {
        return Some(IntAnswer::Number(0));
    }
    if b > 14 {
        return None;
    }
    product(a, power_of_two(b as u32))
}

/// a times 2 to the power b, which is below 0: a divided by 2 to the power -b, toward minus infinity.
#[tactic(auto, using(std::proofs::lemmas::Int::ints, crate::proofs::Shifts::downs))]
fn shift_down(a: i16, b: i16) -> Option<IntAnswer>
    requires number { unsigned_abs a ≤ 16384 }
    requires down { b ≤ℤ negsuc 0 }
    requires most { negsuc 16383 ≤ℤ b }
    ensures answer { result ≡ within_range (shifted a b) }
    ensures small { IfSome result IsOfSmall }
{
    if b < -15 {
        return Some(IntAnswer::Number(if a < 0 { -1 } else { 0 }));
    }
    within_range(i32::from(a >> -b))
}

/// a times 2 to the power b, toward minus infinity (primitive 17).
pub fn small_shift(a: i16, b: i16) -> Option<IntAnswer>
    requires number { unsigned_abs a ≤ 16384 }
    requires most { negsuc 16383 ≤ℤ b }
    ensures answer { result ≡ within_range (shifted a b) }
    ensures small { IfSome result IsOfSmall }
{
    if b < 0 {
        shift_down(a, b)
    } else {
        shift_up(a, b)
    }
}
