ghost use Rattle.std.specs.Prelude.{◌≡◌, ◌<◌, ◌≤ℤ◌, pos, negsuc};
ghost use Rattle.st_model.specs.Bytecodes.{short_unconditional_jump, long_offset, long_unconditional_jump};
ghost use Rattle.st_model.specs.inside.Calls.{itself};
ghost use Rattle.st_frames.specs.inside.Rows.{RowMoves};

use st_frames::{Registers, jump, next_byte};
use st_memory::Objects;
use st_model::Dead;

/// Jumps by i plus 1.
#[tactic(auto, using(st_frames::proofs::Doing::rows), unfolding(st_model::specs::Bytecodes::short_unconditional_jump))]
pub fn short_unconditional_jump<O: Objects>(m: &O, r: &mut Registers, i: u8) -> Result<(), Dead>
    requires number { i < 8 }
    ensures does { RowMoves O.Objects.own (short_unconditional_jump i) itself m.now r.old result r.new }
{
    jump(m, r, i32::from(i) + 1)
}

/// How far a long jump goes: i less 4, times 256, plus the low byte.
fn long_offset(i: u8, low: u8) -> i32
    requires number { i < 8 }
    ensures offset { result ≡ long_offset i low }
    ensures least { negsuc 1023 ≤ℤ result }
    ensures most { result ≤ℤ pos 1023 }
{
    (i32::from(i) - 4) * 256 + i32::from(low)
}

/// Jumps as far as i and the next byte say.
#[tactic(auto, using(st_frames::proofs::Doing::rows), unfolding(st_model::specs::Bytecodes::long_unconditional_jump))]
pub fn long_unconditional_jump<O: Objects>(m: &O, r: &mut Registers, i: u8) -> Result<(), Dead>
    requires number { i < 8 }
    ensures does { RowMoves O.Objects.own (long_unconditional_jump O.names i)
        itself m.now r.old result r.new }
{
    let byte = next_byte(m, r)?;
    jump(m, r, long_offset(i, byte))
}
