ghost use Rattle.std.specs.Prelude.{◌≡◌, IfSome, ◌≤◌, ◌+ℤ◌, ◌-ℤ◌, ◌*ℤ◌, unsigned_abs};
ghost use Rattle.st_model.specs.Integers.{within_range};
ghost use Rattle.st_ints.specs.inside.Answers.{IsOfSmall};

use st_model::IntAnswer;

/// The integer, where it is a SmallInteger's.
#[tactic(auto, unfolding(st_model::specs::Integers::within_range))]
pub fn within_range(value: i32) -> Option<IntAnswer>
    ensures answer { result ≡ within_range value }
    ensures small { IfSome result IsOfSmall }
{
    if value < -16384 {
        return None;
    }
    if 16383 < value {
        return None;
    }
    Some(IntAnswer::Number(value as i16))
}

/// Primitive 1.
#[tactic(auto, using(std::proofs::lemmas::Int::ints))]
pub fn sum(a: i16, b: i16) -> Option<IntAnswer>
    ensures answer { result ≡ within_range (a +ℤ b) }
    ensures small { IfSome result IsOfSmall }
{
    within_range(i32::from(a) + i32::from(b))
}

/// Primitive 2.
#[tactic(auto, using(std::proofs::lemmas::Int::ints))]
pub fn difference(a: i16, b: i16) -> Option<IntAnswer>
    ensures answer { result ≡ within_range (a -ℤ b) }
    ensures small { IfSome result IsOfSmall }
{
    within_range(i32::from(a) - i32::from(b))
}

/// Primitive 9.
#[tactic(auto, using(std::proofs::lemmas::Int::ints))]
pub fn product(a: i16, b: i16) -> Option<IntAnswer>
    requires number { unsigned_abs a ≤ 16384 }
    requires other { unsigned_abs b ≤ 16384 }
    ensures answer { result ≡ within_range (a *ℤ b) }
    ensures small { IfSome result IsOfSmall }
{
    within_range(i32::from(a) * i32::from(b))
}
