ghost use Rattle.std.specs.Prelude.{◌≡◌, OnErr};
ghost use Rattle.st_frames.specs.inside.{Coming.HasPlace, Shown.{IsReady, shown}};
ghost use Rattle.st_machine.specs.inside.Asked.{ComesFrom};

use st_frames::{Frame, World};
use st_memory::Memory;
use st_model::{Event, InputFull};

/// An event comes. The input is full, and nothing changes, where it is a word and 256 wait, or where it has a signal added and
/// 4096 are pending.
pub fn come<M: Memory>(m: &mut M, f: &Frame, w: &mut World, e: Event) -> Result<(), InputFull>
    requires ready { IsReady (M.view m.old) f.now w.old }
    requires place { HasPlace e }
    ensures comes { ComesFrom e (shown (M.view m.old) f.now w.old) result
        (shown (M.view m.new) f.now w.new) }
    ensures full { OnErr result (shown (M.view m.new) f.now w.new ≡ shown (M.view m.old) f.now w.old) }
    ensures ready { IsReady (M.view m.new) f.now w.new }
{
    w.event(m, e)
}
