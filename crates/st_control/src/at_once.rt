ghost use Rattle.std.specs.Prelude.{◌≤◌, pos};
ghost use Rattle.st_model.specs.Steps.{jump};
ghost use Rattle.st_model.specs.inside.Calls.{itself};
ghost use Rattle.st_control.specs.inside.AtOnce.{at_once, jump_at_once};
ghost use Rattle.st_frames.specs.inside.Rows.{RowMoves};

use st_frames::{Registers, jump, page, pop};
use st_memory::Objects;
use st_model::{Dead, PageObject};

/// Jumps forward at once.
#[tactic(auto, using(st_frames::proofs::Doing::rows), unfolding(crate::specs::inside::AtOnce::at_once))]
fn jump_forward_at_once<O: Objects>(m: &O, r: &mut Registers, d: u32) -> Result<bool, Dead>
    requires short { d ≤ 1023 }
    ensures does { RowMoves O.Objects.own (at_once (jump (pos d))) itself m.now r.old result r.new }
{
    jump(m, r, d as i32)?;
    Ok(true)
}

/// Pops, and jumps forward where the word is the wanted boolean. Answers whether it is a boolean.
#[tactic(auto, using(st_frames::proofs::Doing::rows), unfolding(crate::specs::inside::AtOnce::jump_at_once))]
pub fn jump_at_once<O: Objects>(
    m: &O,
    r: &mut Registers,
    wanted: PageObject,
    other: PageObject,
    d: u32,
) -> Result<bool, Dead>
    requires short { d ≤ 1023 }
    ensures does { RowMoves O.Objects.own (jump_at_once O.names wanted other (pos d))
        itself m.now r.old result r.new }
{
    let x = pop(m, r)?;
    let a = page(m, wanted);
    let b = page(m, other);
    if x.same(a) {
        return jump_forward_at_once(m, r, d);
    }
    Ok(x.same(b))
}
