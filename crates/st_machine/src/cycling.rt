ghost use Rattle.std.specs.Prelude.{◌≡◌, OnOk};
ghost use Rattle.st_model.specs.inside.{Foreseen.foreseen_cycle, Calls.transition_of};
ghost use Rattle.st_frames.specs.inside.Shown.{IsReady, shown};
ghost use Rattle.st_machine.specs.inside.{Cycling.{Finishes, Follows, foreseen_step}, Runs.ending_of};

use crate::doing::{StretchEnd, do_straight, fetch};
use crate::space::{free_space, warn};
use crate::switching::check_process_switch;
use st_at_once::Near;
use st_frames::{Frame, World, load};
use st_input::carry_out;
use st_memory::Memory;
use st_model::{Dead, Deed, Demand, Outcome};
use st_step::{plan, step};

/// How a cycle ended in which the machine didn't die.
#[derive(Clone, Copy)]
pub enum CycleEnd {
    /// Its bytecode was done, and ended so.
    With(Outcome),
    /// Its bytecode would take `demand`, and no more than `left` is left.
    Space { demand: Demand, left: Demand },
}

/// What comes after a bytecode that was done: what nothing supports any more is dropped, and where space is low that is told.
#[inline(always)]
pub fn finish<M: Memory>(m: &mut M, f: &Frame, w: &mut World)
    requires ready { IsReady (M.view m.old) f.now w.old }
    ensures state { Finishes (shown (M.view m.old) f.now w.old) (shown (M.view m.new) f.now w.new) }
    ensures ready { IsReady (M.view m.new) f.now w.new }
{
    m.settle();
    warn(m, w);
}

/// The next bytecode is foreseen, and done if there is room for what it makes; and then what comes after it. For want of room
/// nothing is changed.
fn foresee<M: Memory>(m: &mut M, f: &mut Frame, w: &mut World) -> Result<CycleEnd, Dead>
    requires ready { IsReady (M.view m.old) f.old w.old }
    ensures step { foreseen_step (shown (M.view m.old) f.old w.old)
        ≡ transition_of ending_of result (shown (M.view m.new) f.new w.new) }
    ensures ready { OnOk result (IsReady (M.view m.new) f.new w.new) }
{
    let demand = plan(m, f, w)?;
    if !m.room(demand) {
        let left = free_space(m);
        return Ok(CycleEnd::Space { demand, left });
    }
    let outcome = step(m, f, w);
    finish(m, f, w);
    Ok(CycleEnd::With(outcome))
}

/// Does what is left of the cycle of a bytecode that wasn't foreseen.
pub fn finish_straight<M: Memory>(
    m: &mut M,
    f: &mut Frame,
    w: &mut World,
    end: StretchEnd,
    left: Deed,
) -> Result<CycleEnd, Dead>
    requires ready { IsReady (M.view m.old) f.old w.old }
    ensures follows { Follows left end (shown (M.view m.old) f.old w.old) result
        (shown (M.view m.new) f.new w.new) }
    ensures ready { OnOk result (IsReady (M.view m.new) f.new w.new) }
{
    match end {
        StretchEnd::ToForesee => return foresee(m, f, w),
        StretchEnd::Leaves => {
            carry_out(m, w, left);
            finish(m, f, w);
        }
        StretchEnd::Warns => warn(m, w),
        StretchEnd::Asks(outcome) => {
            finish(m, f, w);
            return Ok(CycleEnd::With(outcome));
        }
    }
    Ok(CycleEnd::With(Outcome::Went))
}

/// The next bytecode is done straight on if there is room for whatever it takes, and is foreseen if there isn't; and then what
/// comes after it.
pub fn do_next<M: Memory>(m: &mut M, f: &mut Frame, w: &mut World) -> Result<CycleEnd, Dead>
    requires ready { IsReady (M.view m.old) f.old w.old }
    ensures step { foreseen_step (shown (M.view m.old) f.old w.old)
        ≡ transition_of ending_of result (shown (M.view m.new) f.new w.new) }
    ensures ready { OnOk result (IsReady (M.view m.new) f.new w.new) }
{
    let mut r = load(m, f, w);
    let mut near = Near::new(m, f);
    let code = fetch(&near, f, &mut r)?;
    let end = do_straight(&mut near, f, &mut r, code)?;
    let left = r.left;
    match end {
        None => Ok(CycleEnd::With(Outcome::Went)),
        Some(end) => finish_straight(m, f, w, end, left),
    }
}

/// One cycle: pending signals are made and a process switch that waits is done; the next bytecode is done if there is room for
/// what it makes; what nothing supports any more is dropped; and if space is low that is told. For want of room what came before
/// the bytecode stands.
pub fn cycle<M: Memory>(m: &mut M, f: &mut Frame, w: &mut World) -> Result<CycleEnd, Dead>
    requires ready { IsReady (M.view m.old) f.old w.old }
    ensures cycle { foreseen_cycle (shown (M.view m.old) f.old w.old)
        ≡ transition_of ending_of result (shown (M.view m.new) f.new w.new) }
    ensures ready { OnOk result (IsReady (M.view m.new) f.new w.new) }
{
    check_process_switch(m, f, w)?;
    do_next(m, f, w)
}
