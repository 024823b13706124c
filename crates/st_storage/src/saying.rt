ghost use Rattle.std.specs.Prelude.{◌≡◌, ◌≤◌, ◌+◌};
ghost use Rattle.st_model.specs.Values.{word};
ghost use Rattle.st_model.specs.inside.Calls.{itself};
ghost use Rattle.st_model.specs.Storage.{primitive_say};
ghost use Rattle.st_frames.specs.inside.Rows.{RowDoes, Takes};

use st_frames::{Registers, answer_with, check_bytes};
use st_memory::Objects;
use st_model::{Dead, Word};

/// Primitive 128: the receiver, an object of kind Bytes, is the answer. Whether it succeeded; its caller has the bytes said.
#[tactic(auto, using(crate::proofs::SayTries::says))]
pub fn primitive_say<O: Objects>(m: &mut O, r: &mut Registers, receiver: Word) -> Result<bool, Dead>
    requires room { 1 ≤ O.room m.old }
    ensures does { RowDoes O.Objects.own (primitive_say O.names (word receiver))
        itself m.old r.old result m.new r.new }
    ensures takes { Takes O.Objects.own 1 m.old m.new }
{
    match check_bytes(m, r, receiver) {
        Ok(()) => {
            answer_with(m, r, 0, receiver)?;
            Ok(true)
        }
        Err(_) => Ok(false),
    }
}
