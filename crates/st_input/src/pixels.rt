ghost use Rattle.std.specs.Prelude.{◌≡◌};
ghost use Rattle.st_model.specs.Values.{word};
ghost use Rattle.st_model.specs.Table.{table};
ghost use Rattle.st_model.specs.Deeds.{table_after};
ghost use Rattle.st_model.specs.BitBlt.{copy_bits};

use crate::named::object_named;
use st_bitblt::copy_bits;
use st_memory::Memory;
use st_model::Word;

/// Copies the pixels that a BitBlt tells, where it and its Forms are as they should be.
#[tactic(auto, using(crate::proofs::Copied::untold))]
pub fn copy_pixels<M: Memory>(m: &mut M, bit_blt: Word)
    ensures objects { (M.view m.new).objects
        ≡ table_after (copy_bits table (word bit_blt)) (M.view m.old).objects }
    ensures held { (M.view m.new).held ≡ (M.view m.old).held }
    ensures head { (M.view m.new).head ≡ (M.view m.old).head }
{
    if let Some(told) = object_named(m, bit_blt) {
        copy_bits(m, told);
    }
}
