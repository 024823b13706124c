ghost use Rattle.std.specs.Prelude.{◌≡◌};
ghost use Rattle.st_model.specs.{Values.value, Table.table, Deeds.{over_table, table_after}};
ghost use Rattle.st_model.specs.BitBlt.{read_copy, copy_bits};
ghost use Rattle.st_bitblt.specs.inside.Reading.{has_gone};

use crate::bit_blt::read_bit_blt;
use crate::paint::paint;
use st_memory::Memory;
use st_model::{Oop, Word};

/// Copies the pixels that a BitBlt tells (chapter 18), and says whether it did. It did not exactly where the BitBlt or one of
/// its Forms is not as it should be, and then nothing is changed. All pixels that are copied are those before the copy, also
/// where source and destination have their pixels in one object.
pub fn copy_bits<M: Memory>(m: &mut M, bit_blt: Oop) -> bool
    ensures told { let old = (M.view m.old).objects in
        result ≡ has_gone ((read_copy table (value bit_blt)).run (over_table old)) }
    ensures objects { (M.view m.new).objects
        ≡ table_after (copy_bits table (value bit_blt)) (M.view m.old).objects }
    ensures held { (M.view m.new).held ≡ (M.view m.old).held }
    ensures head { (M.view m.new).head ≡ (M.view m.old).head }
{
    match read_bit_blt(m, Word::from(bit_blt)) {
        Ok(told) => {
            paint(m, told);
            true
        }
        Err(_) => false,
    }
}
