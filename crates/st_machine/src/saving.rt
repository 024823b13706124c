ghost use Rattle.std.specs.Prelude.{◌≡◌, OnOk};
ghost use Rattle.st_frames.specs.inside.Shown.{IsReady, shown};
ghost use Rattle.st_machine.specs.inside.Asked.{SavesFrom};

use crate::switch_saving::store_process;
use st_frames::{Frame, World};
use st_memory::Memory;
use st_model::Dead;

/// Makes the memory one that an image can be written of: a process switch that waits is carried out, the active context is
/// stored with its process, the registers are fetched again from there, and what nothing supports is dropped.
pub fn save<M: Memory>(m: &mut M, f: &mut Frame, w: &mut World) -> Result<(), Dead>
    requires ready { IsReady (M.view m.old) f.old w.old }
    ensures saves { SavesFrom (shown (M.view m.old) f.old w.old) result (shown (M.view m.new) f.new w.new) }
    ensures ready { OnOk result (IsReady (M.view m.new) f.new w.new) }
{
    store_process(m, f, w)?;
    m.settle();
    Ok(())
}
