ghost use Rattle.std.specs.Prelude.{◌≡◌, ◌<◌, ◌==◌, ◌&&◌, not, length, OnOk};
ghost use Rattle.st_model.specs.Objects.{nil};
ghost use Rattle.st_model.specs.Events.{is_held};
ghost use Rattle.st_frames.specs.inside.Shown.{IsReady, shown};
ghost use Rattle.st_machine.specs.inside.Strides.{Strides};

use crate::cycling::{CycleEnd, cycle, do_next, finish_straight};
use crate::stretch::go_on;
use st_frames::{Frame, World};
use st_memory::Memory;
use st_model::{Dead, Device};

/// Cycles after which the machine went on, and the one that followed them.
#[derive(Clone, Copy)]
pub struct Stride {
    /// How many cycles there were before the last one.
    pub before: u32,
    /// How the last one ended.
    pub end: Result<CycleEnd, Dead>,
}

/// Whether nothing comes before a bytecode: no signal is pending, and no process waits to be switched to.
fn is_calm(w: &World) -> bool
    ensures { let devices = w.now.devices in
        result ≡ (length devices.pending == 0 && not (is_held nil devices.new_process)) }
{
    w.pending_count() == 0 && !w.holds(Device::NewProcess)
}

/// Does at most n cycles: in a calm world a stretch of them, and then what is left of its last one, or the next one; else a single
/// one. They go, and the last ends, as those of the book's machine do from each state over births that
/// is shown.
pub fn advance<M: Memory>(m: &mut M, f: &mut Frame, w: &mut World, n: u32) -> Stride
    requires ready { IsReady (M.view m.old) f.old w.old }
    requires some { 0 < n }
    ensures strides { Strides (shown (M.view m.old) f.old w.old) result (shown (M.view m.new) f.new w.new) }
    ensures ready { OnOk result.end (IsReady (M.view m.new) f.new w.new) }
    ensures most { result.before < n }
{
    if !is_calm(w) {
        let end = cycle(m, f, w);
        return Stride { before: 0, end };
    }
    let stretch = go_on(m, f, w, n - 1);
    let end = match stretch.end {
        Ok(None) => do_next(m, f, w),
        Ok(Some(end)) => finish_straight(m, f, w, end, stretch.left),
        Err(cause) => Err(cause),
    };
    Stride {
        before: stretch.done,
        end,
    }
}
