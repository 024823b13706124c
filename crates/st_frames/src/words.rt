ghost use Rattle.std.specs.Prelude.{◌≡◌, ◌<◌, ◌≤◌, ◌^◌, ◌≤ℤ◌, pos, negsuc};
ghost use Rattle.st_model.specs.Values.{Small, word, small_integer};

use st_model::Word;

/// The word of a SmallInteger of 15 bits.
#[tactic(auto, unfolding(st_model::specs::Values::value_of))]
pub fn small(bits: u32) -> Word
    requires { bits < 32768 }
    ensures { word result ≡ Small bits }
{
    Word(2 * bits + 1)
}

/// The word of an integer from -16384 to 16383.
#[tactic(auto, unfolding(st_model::specs::Values::value_of))]
pub fn small_integer(n: i32) -> Word
    requires low { negsuc 16383 ≤ℤ n }
    requires high { n ≤ℤ pos 16383 }
    ensures { word result ≡ small_integer n }
{
    if n < 0 {
        small((n + 32768) as u32)
    } else {
        small(n as u32)
    }
}
