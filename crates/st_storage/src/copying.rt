ghost use Rattle.std.specs.Prelude.{◌≡◌};
ghost use Rattle.st_model.specs.BitBlt.{primitive_copy_bits};
ghost use Rattle.st_frames.specs.inside.Rows.{RowTries};

use st_bitblt::read_bit_blt;
use st_frames::{Registers, Tried, top};
use st_memory::Objects;
use st_model::{Dead, Deed};

/// Primitive 96: the pixels are copied that the receiver tells, a BitBlt. It is the answer, and stays where it stands.
#[tactic(auto, using(st_frames::proofs::Doing::rows, st_simulation::proofs::BitBltLeft::bits))]
pub fn primitive_copy_bits<O: Objects>(m: &O, r: &mut Registers) -> Result<Tried, Dead>
    ensures does { RowTries O.Objects.own (primitive_copy_bits O.names) m.now r.old result m.now r.new }
{
    let receiver = top(m, r)?;
    match read_bit_blt(m, receiver) {
        Ok(_) => {
            if r.sp > 16388 {
                Err(Dead::Sp)
            } else {
                r.left = Deed::CopyBits { bit_blt: receiver };
                Ok(Tried::Leaves)
            }
        }
        Err(_) => Ok(Tried::Failed),
    }
}
