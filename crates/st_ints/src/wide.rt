ghost use Rattle.std.specs.Prelude.{◌≡◌, ◌≤◌};
ghost use Rattle.st_model.specs.Integers.{large, answered, large_exact_quotient, large_remainder, large_quotient};

use st_model::LargeAnswer;

/// The number, where there is one.
fn answered(n: Option<u128>) -> Option<LargeAnswer>
    ensures { result ≡ answered n }
{
    Some(LargeAnswer::Number(n?))
}

/// The quotient, where nothing remains (primitive 30).
#[tactic(auto, unfolding(st_model::specs::Integers::large_exact_quotient))]
fn exact_quotient(a: u128, b: u128) -> Option<LargeAnswer>
    ensures { result ≡ large_exact_quotient a b }
{
    if b == 0 {
        return None;
    }
    if a % b == 0 {
        Some(LargeAnswer::Number(a / b))
    } else {
        None
    }
}

/// What remains (primitive 31).
#[tactic(auto, unfolding(st_model::specs::Integers::large_remainder))]
fn remainder(a: u128, b: u128) -> Option<LargeAnswer>
    ensures { result ≡ large_remainder a b }
{
    if b == 0 {
        return None;
    }
    Some(LargeAnswer::Number(a % b))
}

/// The quotient toward 0 (primitives 32 and 33).
#[tactic(auto, unfolding(st_model::specs::Integers::large_quotient))]
fn quotient(a: u128, b: u128) -> Option<LargeAnswer>
    ensures { result ≡ large_quotient a b }
{
    if b == 0 {
        return None;
    }
    Some(LargeAnswer::Number(a / b))
}

/// Primitive n of a and b, or none where it fails: where the answer is below 0 or isn't below 2^128, and where a quotient
/// isn't exact or its divisor is 0.
#[tactic(auto, unfolding(st_model::specs::Integers::large, st_model::specs::Integers::large_sum, st_model::specs::Integers::large_difference, st_model::specs::Integers::large_product, st_model::specs::Integers::within_bits))]
pub fn large(n: u8, a: u128, b: u128) -> Option<LargeAnswer>
    requires first { 21 ≤ n }
    requires last { n ≤ 36 }
    ensures { result ≡ large n a b }
{
    match n {
        21 => answered(a.checked_add(b)),
        22 => answered(a.checked_sub(b)),
        23 => Some(LargeAnswer::Truth(a < b)),
        24 => Some(LargeAnswer::Truth(b < a)),
        25 => Some(LargeAnswer::Truth(a <= b)),
        26 => Some(LargeAnswer::Truth(b <= a)),
        27 => Some(LargeAnswer::Truth(a == b)),
        28 => Some(LargeAnswer::Truth(a != b)),
        29 => answered(a.checked_mul(b)),
        30 => exact_quotient(a, b),
        31 => remainder(a, b),
        32 | 33 => quotient(a, b),
        34 => Some(LargeAnswer::Number(a & b)),
        35 => Some(LargeAnswer::Number(a | b)),
        _ => Some(LargeAnswer::Number(a ^ b)),
    }
}
