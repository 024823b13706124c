// What comes before a bytecode, done apart from it.
ghost use Rattle.std.specs.Prelude.{◌≡◌, None};
ghost use Rattle.st_frames.specs.inside.Shown.{IsReady, shown};
ghost use Rattle.st_machine.specs.Prepared.{PreparesFrom, PreparesOnce, CycleGoesOn, CycleDies, RunGoesOn, CountGoesOn};

use crate::switching::check_process_switch;
use st_frames::{Frame, World};
use st_memory::Memory;
use st_model::Dead;

/// Makes the signals that are pending, and carries out a process switch that waits. It answers the cause where that dies.
pub fn prepare<M: Memory>(m: &mut M, f: &mut Frame, w: &mut World) -> Option<Dead>
    requires ready { IsReady (M.view m.old) f.old w.old }
    ensures prepares { PreparesFrom (shown (M.view m.old) f.old w.old) result
        (shown (M.view m.new) f.new w.new) }
    ensures ready { result ≡ None → IsReady (M.view m.new) f.new w.new }
{
    check_process_switch(m, f, w).err()
}

/// What comes before a bytecode does nothing where it was just done: no signal is pending then, and no process waits. So a cycle
/// from there ends as the cycle from before, and so does a run of one cycle or more, with as many cycles finished; where it dies,
/// the cycle dies of the same cause.
pub fn prepared_goes_on()
    ensures once { PreparesOnce }
    ensures cycle { CycleGoesOn }
    ensures dies { CycleDies }
    ensures run { RunGoesOn }
    ensures count { CountGoesOn }
{}
