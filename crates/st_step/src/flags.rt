ghost use Rattle.std.specs.Prelude.{◌≤◌};
ghost use Rattle.st_model.specs.{Values.word, Sends.call_of};
ghost use Rattle.st_model.specs.{Executing.{goes_on, by_flag}, Contexts.activate, Methods.flag_of};
ghost use Rattle.st_frames.specs.inside.Rows.{RowEnds, Takes, activation_changes};

use st_control::{Called, activate, answer_field};
use st_frames::{Registers, RowEnd};
use st_memory::Objects;
use st_model::Dead;

/// Activates the method.
#[tactic(auto, using(st_frames::proofs::Doing::rows), unfolding(st_model::specs::Executing::goes_on))]
pub fn activated<O: Objects>(m: &mut O, r: &mut Registers, called: Called) -> Result<RowEnd, Dead>
    requires room { activation_changes ≤ O.room m.old }
    ensures does { RowEnds O.Objects.own
        (goes_on (activate O.names (word called.call.method) (word called.header.0) called.call.arguments))
        m.old r.old result m.new r.new }
    ensures takes { Takes O.Objects.own activation_changes m.old m.new }
{
    activate(m, r, called)?;
    Ok(RowEnd::Went)
}

/// A method that has no header extension is executed by its flag.
#[tactic(auto, using(st_frames::proofs::Doing::rows), unfolding(st_model::specs::Executing::by_flag, st_model::specs::Executing::goes_on))]
pub fn by_flag<O: Objects>(m: &mut O, r: &mut Registers, called: Called) -> Result<RowEnd, Dead>
    requires room { activation_changes ≤ O.room m.old }
    ensures does { RowEnds O.Objects.own (by_flag O.names
        (call_of called.call) (word called.header.0) (flag_of (word called.header.0)))
        m.old r.old result m.new r.new }
    ensures takes { Takes O.Objects.own activation_changes m.old m.new }
{
    match called.header.flag() {
        5 => Ok(RowEnd::Went),
        6 => {
            answer_field(m, r, called.header.temporaries())?;
            Ok(RowEnd::Went)
        }
        _ => activated(m, r, called),
    }
}
