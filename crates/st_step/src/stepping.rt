ghost use Rattle.std.specs.Prelude.{◌≡◌};
ghost use Rattle.st_model.specs.{Outcomes.outcome_of, Machine.{used, Went}};
ghost use Rattle.st_model.specs.{Table.{table, apart, bounded_table}, Bytecodes.step};
ghost use Rattle.st_frames.specs.declared.registers.Registers.{Registers as Words};
ghost use Rattle.st_frames.specs.inside.Shown.{IsFrame, IsReady, shown};
ghost use Rattle.st_frames.specs.inside.Rows.{deed_in, outcome_in};
ghost use Rattle.st_control.specs.inside.Foreseen.{IsForeseen};
ghost use Rattle.st_step.specs.inside.Planned.{HasEnded, HasTop, Plans, PlansBirths, TopSaid};

use crate::rows::step_row;
use st_draft::Draft;
use st_frames::{Frame, Registers, RowEnd, World, hold, load};
use st_input::carry_out;
use st_memory::Memory;
use st_model::{Dead, Deed, Demand, Outcome};

/// What the next bytecode would take of the capacities, or the cause of which the machine would die, also over births that
/// memory, registers and world show. Nothing is changed.
pub fn plan<M: Memory>(m: &M, f: &Frame, w: &World) -> Result<Demand, Dead>
    requires frame { IsFrame (M.view m.now) f.now }
    ensures plans { Plans (used table (M.view m.now).objects)
        ((step apart).run (shown (M.view m.now) f.now w.now)) result }
    ensures births { PlansBirths (shown (M.view m.now) f.now w.now) result }
{
    let mut draft = Draft::new(m);
    let mut r = load(m, f, w);
    step_row(&mut draft, &mut r)?;
    Ok(draft.demand())
}

/// What a row leaves to be done that left these registers and ended so.
pub fn deed_in(r: &Registers, end: RowEnd) -> Deed
    ensures { result ≡ deed_in r.now end }
{
    match end {
        RowEnd::Leaves => r.left,
        RowEnd::Went | RowEnd::Says | RowEnd::Snapshot | RowEnd::Quit | RowEnd::Debugger => {
            Deed::Nothing
        }
    }
}

/// What is to be said of the word at the top of the stack: the bytes of the object.
pub fn say_top<M: Memory>(m: &M, f: &Frame) -> Outcome
    requires frame { IsFrame (M.view m.now) f.now }
    requires top { HasTop (M.view m.now) f.now }
    ensures { TopSaid (M.view m.now) f.now result }
{
    let Ok(said) = f.under(m, 0) else {
        unreachable!()
    };
    Outcome::Say(said)
}

/// The outcome of a step whose row ended so.
pub fn outcome<M: Memory>(m: &M, f: &Frame, end: RowEnd) -> Outcome
    requires frame { IsFrame (M.view m.now) f.now }
    requires ended { (q : Words) × HasEnded (M.view m.now) f.now q end }
    ensures { (q : Words) → HasEnded (M.view m.now) f.now q end → outcome_of result ≡ outcome_in q end }
{
    match end {
        RowEnd::Went | RowEnd::Leaves => Outcome::Went,
        RowEnd::Says => say_top(m, f),
        RowEnd::Snapshot => Outcome::Snapshot,
        RowEnd::Quit => Outcome::Quit,
        RowEnd::Debugger => Outcome::Debugger,
    }
}

/// Does the next bytecode, once a plan has said what it takes and there is room for that.
pub fn step<M: Memory>(m: &mut M, f: &mut Frame, w: &mut World) -> Outcome
    requires ready { IsReady (M.view m.old) f.old w.old }
    requires foreseen { IsForeseen (shown (M.view m.old) f.old w.old) }
    ensures step { (step bounded_table).run (shown (M.view m.old) f.old w.old)
        ≡ Went (outcome_of result) (shown (M.view m.new) f.new w.new) }
    ensures ready { IsReady (M.view m.new) f.new w.new }
{
    let mut r = load(m, f, w);
    match step_row(m, &mut r) {
        Ok(end) => {
            *f = hold(m, &r);
            let deed = deed_in(&r, end);
            carry_out(m, w, deed);
            outcome(m, f, end)
        }
        Err(_) => unreachable!(),
    }
}
