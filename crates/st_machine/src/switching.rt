ghost use Rattle.std.specs.Prelude.{◌≡◌, OnOk};
ghost use Rattle.st_model.specs.{Values.value, Table.bounded_table};
ghost use Rattle.st_model.specs.Processes.{leave_process, switch_to_process};
ghost use Rattle.st_model.specs.{Cycles.{switch_if_waiting, check_process_switch}, inside.Calls.{Does, itself}};
ghost use Rattle.st_frames.specs.inside.Shown.{IsReady, shown};

use crate::signals::signal_newest;
use st_frames::{Frame, World, hold, load};
use st_input::carry_out;
use st_memory::Memory;
use st_model::{Dead, Device, Oop, Word};
use st_process::{enter_process, leave_process};

/// Keeps the active context in the scheduler's process, whose place another one takes; none waits any more.
fn leave<M: Memory>(m: &mut M, f: &Frame, w: &mut World, process: Oop) -> Result<(), Dead>
    requires ready { IsReady (M.view m.old) f.now w.old }
    ensures does { Does (leave_process bounded_table (value process)) itself
        (shown (M.view m.old) f.now w.old) result (shown (M.view m.new) f.now w.new) }
    ensures ready { OnOk result (IsReady (M.view m.new) f.now w.new) }
{
    let r = load(m, f, w);
    let deed = leave_process(m, &r, Word::from(process))?;
    carry_out(m, w, deed);
    Ok(())
}

/// Switches to a process.
fn switch_to<M: Memory>(m: &mut M, f: &mut Frame, w: &mut World, process: Oop) -> Result<(), Dead>
    requires ready { IsReady (M.view m.old) f.old w.old }
    ensures does { Does (switch_to_process bounded_table (value process)) itself
        (shown (M.view m.old) f.old w.old) result (shown (M.view m.new) f.new w.new) }
    ensures ready { OnOk result (IsReady (M.view m.new) f.new w.new) }
{
    leave(m, f, w, process)?;
    let mut r = load(m, f, w);
    enter_process(m, &mut r, Word::from(process))?;
    *f = hold(m, &r);
    Ok(())
}

/// Switches to the new process, where one waits.
pub fn switch_if_waiting<M: Memory>(m: &mut M, f: &mut Frame, w: &mut World) -> Result<(), Dead>
    requires ready { IsReady (M.view m.old) f.old w.old }
    ensures does { Does (switch_if_waiting bounded_table) itself
        (shown (M.view m.old) f.old w.old) result (shown (M.view m.new) f.new w.new) }
    ensures ready { OnOk result (IsReady (M.view m.new) f.new w.new) }
{
    if w.holds(Device::NewProcess) {
        let process = w.device(Device::NewProcess);
        switch_to(m, f, w, process)
    } else {
        Ok(())
    }
}

/// What comes before each bytecode: all pending signals are made, and then the machine switches to a process that waits.
pub fn check_process_switch<M: Memory>(m: &mut M, f: &mut Frame, w: &mut World) -> Result<(), Dead>
    requires ready { IsReady (M.view m.old) f.old w.old }
    ensures does { Does (check_process_switch bounded_table) itself
        (shown (M.view m.old) f.old w.old) result (shown (M.view m.new) f.new w.new) }
    ensures ready { OnOk result (IsReady (M.view m.new) f.new w.new) }
{
    if w.is_quiet() {
        return Ok(());
    }
    signal_newest(m, f, w)?;
    switch_if_waiting(m, f, w)
}
