ghost use Rattle.std.specs.Prelude.{◌≤◌, ◌≤ℤ◌, pos, negsuc};

use st_model::Word;

/// The registers that a context gives, before it is seen that all of them are there.
#[derive(Clone, Copy)]
pub struct Fetched {
    /// The active context.
    pub active: Word,
    /// The home context.
    pub home: Word,
    /// The method of the home context.
    pub method: Word,
    /// The receiver of the home context.
    pub receiver: Word,
    /// The number, from 0, of the method's next byte.
    pub ip: i32,
    /// The number of the context's field that holds the top of the stack.
    pub sp: u32,
    pub ghost ip_low: { negsuc 16384 ≤ℤ ip },
    pub ghost ip_high: { ip ≤ℤ pos 16382 },
    pub ghost sp_low: { 5 ≤ sp },
    pub ghost sp_high: { sp ≤ 16388 },
}
