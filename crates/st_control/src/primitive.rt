ghost use Rattle.st_model.specs.Values.{word};
ghost use Rattle.st_model.specs.Methods.{primitive_number, method_primitive};
ghost use Rattle.st_model.specs.inside.Calls.{itself};
ghost use Rattle.st_frames.specs.inside.Rows.{RowReads};

use st_frames::Registers;
use st_memory::Objects;
use st_model::{Dead, Word};

/// The primitive that a header extension names.
#[tactic(auto, using(st_method::proofs::Bits::primitives), unfolding(st_model::specs::Methods::primitive_number))]
fn primitive_number<O: Objects>(m: &O, r: &Registers, extension: Word) -> Result<u32, Dead>
    ensures does { RowReads O.Objects.own (primitive_number (word extension)) itself m.now r.now result }
{
    if extension.is_small() {
        Ok(extension.0 / 2 % 256)
    } else {
        Err(Dead::NotSmall)
    }
}

/// The primitive of a method.
#[tactic(auto, using(st_frames::proofs::Doing::rows), unfolding(st_model::specs::Methods::method_primitive))]
pub fn method_primitive<O: Objects>(m: &O, r: &Registers, method: Word) -> Result<u32, Dead>
    ensures does { RowReads O.Objects.own (method_primitive O.names (word method)) itself m.now r.now result }
{
    let extension = m.literal_from_last(method, 1)?;
    primitive_number(m, r, extension)
}
