ghost use Rattle.std.specs.Prelude.{◌≡◌};
ghost use Rattle.st_model.specs.Steps.{next_byte};
ghost use Rattle.st_model.specs.inside.Calls.{itself};
ghost use Rattle.st_frames.specs.inside.Rows.{RowMoves};

use crate::registers::Registers;
use st_memory::Objects;
use st_model::Dead;

/// The byte at the instruction pointer, which moves on.
#[inline(always)]
pub fn next_byte<O: Objects>(m: &O, r: &mut Registers) -> Result<u8, Dead>
    ensures does { RowMoves O.Objects.own (next_byte O.names) itself m.now r.old result r.new }
{
    let byte = m.byte_at(r.method, r.ip)?;
    r.ip += 1;
    Ok(byte)
}
