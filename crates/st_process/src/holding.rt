ghost use Rattle.st_model.specs.Deeds.{copies_pixels};
ghost use Rattle.std.specs.Prelude.{◌≡◌, false, IfOk};
ghost use Rattle.st_model.specs.Values.{word};
ghost use Rattle.st_model.specs.Surroundings.{Hold};
ghost use Rattle.st_model.specs.Steps.{change_world};
ghost use Rattle.st_model.specs.inside.Calls.{itself};
ghost use Rattle.st_frames.specs.inside.Answering.{no_word};
ghost use Rattle.st_frames.specs.inside.Rows.{RowLeaves};

use st_frames::Registers;
use st_memory::Objects;
use st_model::{Dead, Deed, Device, Word};

/// A device holds this from now on, which is left to be done. Whatever it is, it must be there.
#[tactic(auto, using(crate::proofs::Changing::holds))]
pub fn hold<O: Objects>(m: &O, r: &Registers, device: Device, object: Word) -> Result<Deed, Dead>
    ensures does { RowLeaves O.Objects.own (change_world O.names (Hold device (word object)))
        no_word itself m.now r.now result m.now r.now }
    ensures plain { IfOk result (λ d. copies_pixels d ≡ false) }
{
    if m.is_there(object) {
        Ok(Deed::Hold { device, object })
    } else {
        Err(Dead::Kind)
    }
}
