ghost use Rattle.std.specs.Prelude.{◌≡◌, ◌≤◌, Ok, Some, None, IfOk, IfErr, if◌then◌else◌};
ghost use Rattle.st_model.specs.{Table.table, Machine.{Died, used}, Cycles.{less, capacity_of}, View.SettlesTo};
ghost use Rattle.st_model.specs.{Decoded.IsNumbered, Outcomes.outcome_of};
ghost use Rattle.st_frames.specs.declared.registers.Registers.{Registers as Words};
ghost use Rattle.st_frames.specs.inside.Rows.{registers_in, outcome_in};
ghost use Rattle.st_frames.specs.inside.Shown.{IsFrame, IsReady, registers_of, shown};
ghost use Rattle.st_step.specs.inside.Planned.{HasEnded};
ghost use Rattle.st_at_once.specs.inside.{AtOnce.{IsFetched, NamesSame}, Room.room_of};
ghost use Rattle.st_machine.specs.inside.Cycling.{GoesCalmly, foreseen_step, warns};
ghost use Rattle.st_machine.specs.declared.doing.StretchEnd.TheVariants.{Warns};

use crate::space::needs_warning;
use st_at_once::Near;
use st_frames::{Frame, Registers, RowEnd, World, next_byte};
use st_memory::Memory;
use st_model::{Bytecode, Dead, Outcome, decode};
use st_step::{bytecode, outcome};

/// What is left of the cycle of a bytecode that wasn't foreseen, if that isn't all done.
#[derive(Clone, Copy)]
pub enum StretchEnd {
    /// All of it: there isn't room for whatever the bytecode may take.
    ToForesee,
    /// The deed that the bytecode left to be done; and then what comes after it.
    Leaves,
    /// That space is low is to be told; what nothing supports was dropped.
    Warns,
    /// What comes after the bytecode, which asks for something besides.
    Asks(Outcome),
}

/// What comes after a bytecode: what nothing supports any more is dropped. Answers whether it is to be told that space is low.
#[inline(always)]
pub fn finish_calmly<M: Memory>(near: &mut Near<M>, w: &World) -> Option<StretchEnd>
    ensures settles { SettlesTo (M.view near.old.memory.now) (M.view near.new.memory.now) }
    ensures end { let free = less (capacity_of (M.view near.new.memory.now).head)
        (used table (M.view near.new.memory.now).objects) in
        result ≡ (if warns free w.now then Some Warns else None) }
    ensures room { room_of (M.view near.old.memory.now) ≤ room_of (M.view near.new.memory.now) }
    ensures same_memory { near.new.memory.ghost_name ≡ near.old.memory.ghost_name }
{
    near.settle();
    if needs_warning(near.memory, w) {
        Some(StretchEnd::Warns)
    } else {
        None
    }
}

/// The outcome of a step over what is near at hand whose row ended so.
fn outcome_near<M: Memory>(near: &Near<M>, f: &Frame, end: RowEnd) -> Outcome
    requires frame { IsFrame (M.view near.now.memory.now) f.now }
    requires ended { (q : Words) × HasEnded (M.view near.now.memory.now) f.now q end }
    ensures { (q : Words) → HasEnded (M.view near.now.memory.now) f.now q end
        → outcome_of result ≡ outcome_in q end }
{
    outcome(near.memory, f, end)
}

/// Fetches and decodes the next bytecode.
#[inline(always)]
pub fn fetch<M: Memory>(near: &Near<M>, f: &Frame, r: &mut Registers) -> Result<Bytecode, Dead>
    requires same { registers_in r.old ≡ registers_of f.now }
    requires ready { IsReady (M.view near.now.memory.now) f.now r.old.world.now }
    ensures dies { IfErr result (λ cause.
        foreseen_step (shown (M.view near.now.memory.now) f.now r.old.world.now) ≡ Died cause) }
    ensures numbered { IfOk result IsNumbered }
    ensures fetched { IfOk result (λ code.
        IsFetched (M.view near.now.memory.now) f.now r.old.world.now code r.new) }
    ensures names { IfOk result (λ code. NamesSame (registers_of f.now) (registers_in r.new)) }
    ensures world { r.new.world.now ≡ r.old.world.now }
{
    let byte = next_byte(near, r)?;
    Ok(decode(byte))
}

/// Does the row of the next bytecode, which was fetched and decoded, over what is near at hand, if there is room for whatever it takes
/// and one change more; and then what comes after it. No plan is made. While it goes on, the registers are those of the frame.
#[inline(always)]
pub fn do_straight<M: Memory>(
    near: &mut Near<M>,
    f: &mut Frame,
    r: &mut Registers,
    code: Bytecode,
) -> Result<Option<StretchEnd>, Dead>
    requires numbered { IsNumbered code }
    requires fetched { IsFetched (M.view near.old.memory.now) f.old r.old.world.now code r.old }
    requires ready { IsReady (M.view near.old.memory.now) f.old r.old.world.now }
    ensures step { GoesCalmly (shown (M.view near.old.memory.now) f.old r.old.world.now)
        r.new.left result
        (shown (M.view near.new.memory.now) f.new r.old.world.now) }
    ensures ready { IfOk result (λ end. IsReady (M.view near.new.memory.now) f.new r.old.world.now) }
    ensures same { result ≡ Ok None → registers_in r.new ≡ registers_of f.new }
    ensures room { result ≡ Ok None → 1 ≤ room_of (M.view near.new.memory.now) }
    ensures world { r.new.world.now ≡ r.old.world.now }
    ensures same_memory { near.new.memory.ghost_name ≡ near.old.memory.ghost_name }
{
    if !near.has_room(71) {
        return Ok(Some(StretchEnd::ToForesee));
    }
    let end = bytecode(near, r, code)?;
    near.hold_moved(f, r);
    match end {
        RowEnd::Went => Ok(finish_calmly(near, r.world)),
        RowEnd::Leaves => Ok(Some(StretchEnd::Leaves)),
        _ => Ok(Some(StretchEnd::Asks(outcome_near(near, f, end)))),
    }
}
