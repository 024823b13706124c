ghost use Rattle.std.specs.Prelude.{◌≡◌, ◌<◌, ◌≤ℤ◌, ◌^◌, pos, negsuc};
ghost use Rattle.st_model.specs.Integers.{shifted_up, shifted_down, large_shift};

/// 2 to the power n.
fn power_of_two(n: u32) -> u128
    requires { n < 128 }
    ensures { result ≡ 2 ^ n }
{
    1 << n
}

/// a times 2 to the power n, where that is below 2^128.
#[tactic(auto, using(crate::proofs::WideShifts::ups), unfolding(st_model::specs::Integers::shifted_up, st_model::specs::Integers::within_bits))]
fn shift_up(a: u128, n: u16) -> Option<u128>
    ensures { result ≡ shifted_up a n }
{
    if a == 0 {
        return Some(0);
    }
    if n > 127 {
        return None;
    }
    a.checked_mul(power_of_two(u32::from(n)))
}

/// a divided by 2 to the power n, toward 0.
#[tactic(auto, using(crate::proofs::WideShifts::downs), unfolding(st_model::specs::Integers::shifted_down))]
fn shift_down(a: u128, n: u16) -> u128
    ensures { result ≡ shifted_down a n }
{
    if n > 127 { 0 } else { a >> n }
}

/// a times 2 to the power `by`, toward 0, where that is below 2^128 (primitive 37).
pub fn shift(a: u128, by: i16) -> Option<u128>
    ensures { result ≡ large_shift a by }
{
    if by < 0 {
        Some(shift_down(a, by.unsigned_abs()))
    } else {
        shift_up(a, by as u16)
    }
}
