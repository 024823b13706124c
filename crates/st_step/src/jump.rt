ghost use Rattle.std.specs.Prelude.{◌<◌, ◌≤◌};
ghost use Rattle.st_model.specs.{Executing.executed_if_any};
ghost use Rattle.st_model.specs.Bytecodes.{short_jump_on_false};
ghost use Rattle.st_step.specs.inside.Jumping.{long_conditional_jump};
ghost use Rattle.st_frames.specs.inside.Rows.{RowEnds, Takes, executed_jump_changes};

use crate::execute::execute_if_any;
use st_control::jump_on;
use st_frames::{Registers, RowEnd, next_byte};
use st_memory::Objects;
use st_model::{Dead, PageObject};

/// Pops, and jumps on false by i plus 1.
#[tactic(auto, using(st_frames::proofs::Doing::rows), unfolding(st_model::specs::Bytecodes::short_jump_on_false, st_model::specs::Executing::executed_if_any))]
pub fn short_jump_on_false<O: Objects>(m: &mut O, r: &mut Registers, i: u8) -> Result<RowEnd, Dead>
    requires number { i < 8 }
    requires room { executed_jump_changes ≤ O.room m.old }
    ensures does { RowEnds O.Objects.own (executed_if_any O.names (short_jump_on_false O.names i))
        m.old r.old result m.new r.new }
    ensures takes { Takes O.Objects.own executed_jump_changes m.old m.new }
{
    let distance = u32::from(i) + 1;
    let call = jump_on(
        m,
        r,
        PageObject::FalseObject,
        PageObject::TrueObject,
        distance,
    )?;
    execute_if_any(m, r, call)
}

/// Pops, and jumps on the wanted boolean by i times 256 plus the next byte.
#[tactic(auto, using(st_frames::proofs::Doing::rows), unfolding(crate::specs::inside::Jumping::long_conditional_jump, st_model::specs::Executing::executed_if_any))]
pub fn long_conditional_jump<O: Objects>(
    m: &mut O,
    r: &mut Registers,
    wanted: PageObject,
    other: PageObject,
    i: u8,
) -> Result<RowEnd, Dead>
    requires number { i < 4 }
    requires room { executed_jump_changes ≤ O.room m.old }
    ensures does { RowEnds O.Objects.own
        (executed_if_any O.names (long_conditional_jump O.names wanted other i))
        m.old r.old result m.new r.new }
    ensures takes { Takes O.Objects.own executed_jump_changes m.old m.new }
{
    let byte = next_byte(m, r)?;
    let distance = u32::from(i) * 256 + u32::from(byte);
    let call = jump_on(m, r, wanted, other, distance)?;
    execute_if_any(m, r, call)
}
