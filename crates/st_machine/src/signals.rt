ghost use Rattle.std.specs.Prelude.{◌≡◌, length, OnOk};
ghost use Rattle.st_model.specs.{Values.value, Table.bounded_table, Processes.signal};
ghost use Rattle.st_model.specs.{Cycles.{signal_next, signal_newest}, inside.Calls.{Does, itself}};
ghost use Rattle.st_frames.specs.inside.Shown.{IsReady, shown};

use st_frames::{Frame, World, load, take_newest_signal};
use st_input::carry_out;
use st_memory::Memory;
use st_model::{Dead, Oop, Word};
use st_process::signal;

/// Signals a semaphore.
fn make_signal<M: Memory>(m: &mut M, f: &Frame, w: &mut World, semaphore: Oop) -> Result<(), Dead>
    requires ready { IsReady (M.view m.old) f.now w.old }
    ensures does { Does (signal bounded_table (value semaphore)) itself
        (shown (M.view m.old) f.now w.old) result (shown (M.view m.new) f.now w.new) }
    ensures ready { OnOk result (IsReady (M.view m.new) f.now w.new) }
{
    let r = load(m, f, w);
    let deed = signal(m, &r, Word::from(semaphore))?;
    carry_out(m, w, deed);
    Ok(())
}

/// Makes the newest pending signal, where one is pending.
fn signal_next<M: Memory>(m: &mut M, f: &Frame, w: &mut World) -> Result<(), Dead>
    requires ready { IsReady (M.view m.old) f.now w.old }
    ensures does { Does (signal_next bounded_table) itself
        (shown (M.view m.old) f.now w.old) result (shown (M.view m.new) f.now w.new) }
    ensures ready { OnOk result (IsReady (M.view m.new) f.now w.new) }
{
    match take_newest_signal(m, w) {
        Some(semaphore) => make_signal(m, f, w, semaphore),
        None => Ok(()),
    }
}

/// Makes all pending signals, the newest first.
pub fn signal_newest<M: Memory>(m: &mut M, f: &Frame, w: &mut World) -> Result<(), Dead>
    requires ready { IsReady (M.view m.old) f.now w.old }
    ensures does { Does (signal_newest bounded_table (length w.old.devices.pending)) itself
        (shown (M.view m.old) f.now w.old) result (shown (M.view m.new) f.now w.new) }
    ensures ready { OnOk result (IsReady (M.view m.new) f.now w.new) }
{
    for _ in 0..w.pending_count() {
        signal_next(m, f, w)?;
    }
    Ok(())
}
