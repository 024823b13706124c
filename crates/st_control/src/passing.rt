ghost use Rattle.std.specs.Prelude.{◌<◌, ◌≤ℤ◌, pos, negsuc};

use st_model::Word;

/// A block that takes as many arguments as are passed to it.
#[derive(Clone, Copy)]
pub struct Passing {
    /// The block.
    pub block: Word,
    /// How many they are.
    pub count: u32,
    /// Its first instruction pointer, as it is stored.
    pub first: i32,
    pub ghost few: { count < 16384 },
    pub ghost low: { negsuc 16383 ≤ℤ first },
    pub ghost high: { first ≤ℤ pos 16383 },
}
