ghost use Rattle.std.specs.Prelude.{◌≤◌, ◌≤ℤ◌, pos, negsuc};
ghost use Rattle.st_frames.specs.inside.Narrow.{IsNarrow};

use crate::world::World;
use st_model::{Deed, Word};

/// The registers of the interpreter (chapter 27), as the rows of bytecodes work on them; the world, which no row changes; and what
/// the row leaves, if its end tells that it leaves something.
#[derive(Clone, Copy)]
pub struct Registers<'a> {
    /// The active context.
    pub active: Word,
    /// The home context: the active one, or that of the block that it runs.
    pub home: Word,
    /// The method of the home context.
    pub method: Word,
    /// The receiver of the home context.
    pub receiver: Word,
    /// The number, from 0, of the method's next byte; from -16385 to 16382.
    pub ip: i32,
    /// The number of the active context's field that holds the top of the stack; from 5 to 16388.
    pub sp: u32,
    /// What lies round the machine.
    pub world: &'a World,
    /// The deed that is left to be done.
    pub left: Deed,
    /// The object whose bytes are to be said.
    pub said: Word,
    pub ghost active_narrow: { IsNarrow active },
    pub ghost home_narrow: { IsNarrow home },
    pub ghost method_narrow: { IsNarrow method },
    pub ghost receiver_narrow: { IsNarrow receiver },
    pub ghost ip_low: { negsuc 16384 ≤ℤ ip },
    pub ghost ip_high: { ip ≤ℤ pos 16382 },
    pub ghost sp_low: { 5 ≤ sp },
    pub ghost sp_high: { sp ≤ 16388 },
}
