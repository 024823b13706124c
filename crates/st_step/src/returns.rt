ghost use Rattle.std.specs.Prelude.{◌≤◌};
ghost use Rattle.st_model.specs.{Values.word, Executing.executed_if_any};
ghost use Rattle.st_model.specs.{Bytecodes.{return_top_to_sender, return_top_to_caller}, Returns.return_to_sender};
ghost use Rattle.st_frames.specs.inside.Rows.{RowEnds, Takes, executed_return_changes};

use crate::execute::execute_if_any;
use st_control::return_past;
use st_frames::{Registers, RowEnd, pop};
use st_memory::Objects;
use st_model::{Dead, Word};

/// Returns a word to the sender, and executes what is called.
#[inline(never)]
#[tactic(auto, using(st_control::proofs::Returning::returning), unfolding(st_model::specs::Executing::executed_if_any))]
pub fn return_word<O: Objects>(m: &mut O, r: &mut Registers, x: Word) -> Result<RowEnd, Dead>
    requires room { executed_return_changes ≤ O.room m.old }
    ensures does { RowEnds O.Objects.own (executed_if_any O.names (return_to_sender O.names (word x)))
        m.old r.old result m.new r.new }
    ensures takes { Takes O.Objects.own executed_return_changes m.old m.new }
{
    let call = return_past(m, r, r.home, x)?;
    execute_if_any(m, r, call)
}

/// Pops, and returns the word to the sender.
#[tactic(auto, using(st_frames::proofs::Doing::rows), unfolding(st_model::specs::Bytecodes::return_top_to_sender, st_model::specs::Executing::executed_if_any))]
pub fn return_top_to_sender<O: Objects>(m: &mut O, r: &mut Registers) -> Result<RowEnd, Dead>
    requires room { executed_return_changes ≤ O.room m.old }
    ensures does { RowEnds O.Objects.own (executed_if_any O.names (return_top_to_sender O.names))
        m.old r.old result m.new r.new }
    ensures takes { Takes O.Objects.own executed_return_changes m.old m.new }
{
    let x = pop(m, r)?;
    return_word(m, r, x)
}

/// Pops, and returns the word to the caller.
#[tactic(auto, using(st_control::proofs::Returning::returning), unfolding(st_model::specs::Bytecodes::return_top_to_caller, st_model::specs::Executing::executed_if_any))]
pub fn return_top_to_caller<O: Objects>(m: &mut O, r: &mut Registers) -> Result<RowEnd, Dead>
    requires room { executed_return_changes ≤ O.room m.old }
    ensures does { RowEnds O.Objects.own (executed_if_any O.names (return_top_to_caller O.names))
        m.old r.old result m.new r.new }
    ensures takes { Takes O.Objects.own executed_return_changes m.old m.new }
{
    let x = pop(m, r)?;
    let call = return_past(m, r, r.active, x)?;
    execute_if_any(m, r, call)
}
