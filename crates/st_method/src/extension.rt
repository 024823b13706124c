ghost use Rattle.std.specs.Prelude.{◌≡◌, true};
ghost use Rattle.st_model.specs.Values.{value};
ghost use Rattle.st_model.specs.Objects.{is_method};
ghost use Rattle.st_model.specs.View.{is_live, object_of};
ghost use Rattle.st_model.specs.Table.{table};
ghost use Rattle.st_model.specs.Methods.{literal_from_last, method_primitive};
ghost use Rattle.st_model.specs.inside.Calls.{Reads, itself};

use crate::fields::literals;
use st_memory::Memory;
use st_model::{Dead, Oop};

/// The header extension of a method: its next to last literal. Dead where it has fewer than two.
#[tactic(auto, using(st_model::proofs::Runs::runs, crate::proofs::Bits::counts, crate::proofs::Headed::headed), unfolding(st_model::specs::Methods::literal_from_last))]
fn extension<M: Memory>(m: &M, method: Oop) -> Result<Oop, Dead>
    requires live { is_live (M.view m.now).objects (value method) ≡ true }
    requires kind { is_method (object_of (M.view m.now).objects (value method)).kind ≡ true }
    ensures { Reads (literal_from_last table (value method) 1) value (M.view m.now).objects result }
{
    let count = literals(m.pointer(method, 0));
    if count < 2 {
        Err(Dead::Field)
    } else {
        Ok(m.pointer(method, count - 1))
    }
}

/// The number of the primitive that a method's header extension names, in the lower 8 bits of that SmallInteger. Dead where the
/// method has fewer than two literals, or another word there.
#[tactic(auto, using(st_model::proofs::Runs::runs, crate::proofs::Bits::primitives), unfolding(st_model::specs::Methods::method_primitive))]
pub fn primitive<M: Memory>(m: &M, method: Oop) -> Result<u8, Dead>
    requires live { is_live (M.view m.now).objects (value method) ≡ true }
    requires kind { is_method (object_of (M.view m.now).objects (value method)).kind ≡ true }
    ensures { Reads (method_primitive table (value method)) itself (M.view m.now).objects result }
{
    let extension = extension(m, method)?;
    if extension.is_small() {
        Ok((extension.0 / 2 % 256) as u8)
    } else {
        Err(Dead::NotSmall)
    }
}
