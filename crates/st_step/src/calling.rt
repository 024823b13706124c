ghost use Rattle.std.specs.Prelude.{◌≡◌, ◌≢◌, Some, IfOk};
ghost use Rattle.st_model.specs.{Table.bounded_table, inside.Calls.Does};
ghost use Rattle.st_frames.specs.declared.registers.Registers.{Registers as Words};
ghost use Rattle.st_frames.specs.{inside.Rows.outcome_in, inside.Shown.{IsFrame, IsReady, shown}};
ghost use Rattle.st_input.specs.declared.tried.Tried.TheVariants.{Failed};
ghost use Rattle.st_step.specs.inside.Trying.{tried_number, outcome_of_trial, IsStill, SaysTop};

use crate::numbers::tried_number;
use crate::stepping::{deed_in, say_top};
use st_frames::{Frame, RowEnd, World, hold, load};
use st_input::{Tried, carry_out};
use st_memory::Memory;
use st_model::{Dead, Outcome};

/// What a primitive came to that didn't fail, whose row ended so.
fn trial<M: Memory>(m: &M, f: &Frame, end: RowEnd) -> Tried
    requires frame { IsFrame (M.view m.now) f.now }
    requires top { (q : Words) × SaysTop (M.view m.now) f.now q end }
    ensures outcome { (q : Words) → SaysTop (M.view m.now) f.now q end
        → outcome_of_trial result ≡ Some (outcome_in q end) }
    ensures succeeded { result ≢ Failed }
{
    match end {
        RowEnd::Went | RowEnd::Leaves => Tried::Done,
        RowEnd::Says => Tried::Outcome(say_top(m, f)),
        RowEnd::Snapshot => Tried::Outcome(Outcome::Snapshot),
        RowEnd::Quit => Tried::Outcome(Outcome::Quit),
        RowEnd::Debugger => Tried::Outcome(Outcome::Debugger),
    }
}

/// Calls the primitive of a number with so many arguments, as a bytecode does whose method has it: receiver and arguments
/// stand at the top of the stack. 83 and 84 are the first of the two. Dead, with nothing promised of what was changed,
/// where one of these words lies below the stack or the definition dies else. Where there is no room for an object that it
/// makes, nil stands for that, so a caller asks for room before.
pub fn try_primitive<M: Memory>(
    m: &mut M,
    f: &mut Frame,
    w: &mut World,
    n: u8,
    args: u32,
) -> Result<Tried, Dead>
    requires ready { IsReady (M.view m.old) f.old w.old }
    ensures does { Does (tried_number bounded_table n args) outcome_of_trial
        (shown (M.view m.old) f.old w.old) result (shown (M.view m.new) f.new w.new) }
    ensures still { IsStill (M.view m.old) f.old w.old result (M.view m.new) f.new w.new }
    ensures ready { IfOk result (λ t. IsReady (M.view m.new) f.new w.new) }
{
    if args > 16383 {
        return Err(Dead::Sp);
    }
    let mut r = load(m, f, w);
    let row = tried_number(m, &mut r, u32::from(n), args)?;
    match row {
        None => Ok(Tried::Failed),
        Some(end) => {
            *f = hold(m, &r);
            let deed = deed_in(&r, end);
            carry_out(m, w, deed);
            Ok(trial(m, f, end))
        }
    }
}
