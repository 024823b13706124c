ghost use Rattle.std.specs.Prelude.{◌≡◌, ◌<◌, ◌≤◌, ◌+◌, ◌≤ℤ◌, pos};
ghost use Rattle.st_model.specs.Values.{word};
ghost use Rattle.st_model.specs.Steps.{jump};
ghost use Rattle.st_model.specs.Sends.{call_of, call_if_any};
ghost use Rattle.st_model.specs.Returns.{calls_nothing, must_be_boolean, jump_on};
ghost use Rattle.st_frames.specs.inside.Rows.{RowMoves, RowDoes, Takes, jump_changes};

use crate::sends::send;
use st_frames::{Registers, jump, page, pop, push};
use st_memory::Objects;
use st_model::{Call, Dead, PageObject, Word};

/// Puts the word back, and sends mustBeBoolean to it.
#[tactic(auto, using(st_frames::proofs::Doing::rows), unfolding(st_model::specs::Returns::must_be_boolean))]
fn must_be_boolean<O: Objects>(m: &mut O, r: &mut Registers, x: Word) -> Result<Call, Dead>
    requires room { jump_changes ≤ O.room m.old }
    ensures does { RowDoes O.Objects.own (must_be_boolean O.names (word x))
        call_of m.old r.old result m.new r.new }
    ensures takes { Takes O.Objects.own jump_changes m.old m.new }
{
    push(m, r, x)?;
    let selector = page(m, PageObject::MustBeBoolean);
    send(m, r, selector, 0)
}

/// Jumps forward, and calls nothing.
#[tactic(auto, using(st_frames::proofs::Doing::rows), unfolding(st_model::specs::Returns::calls_nothing))]
fn jump_forward<O: Objects>(m: &O, r: &mut Registers, d: u32) -> Result<Option<Call>, Dead>
    requires short { d ≤ 1023 }
    ensures does { RowMoves O.Objects.own (calls_nothing (jump (pos d))) call_if_any m.now r.old
        result r.new }
{
    jump(m, r, d as i32)?;
    Ok(None)
}

/// Pops, and jumps forward where the word is the wanted boolean.
#[tactic(auto, using(st_frames::proofs::Doing::rows), unfolding(st_model::specs::Returns::jump_on, st_model::specs::Returns::calls))]
pub fn jump_on<O: Objects>(
    m: &mut O,
    r: &mut Registers,
    wanted: PageObject,
    other: PageObject,
    d: u32,
) -> Result<Option<Call>, Dead>
    requires short { d ≤ 1023 }
    requires room { jump_changes ≤ O.room m.old }
    ensures does { RowDoes O.Objects.own (jump_on O.names wanted other (pos d))
        call_if_any m.old r.old result m.new r.new }
    ensures takes { Takes O.Objects.own jump_changes m.old m.new }
{
    let x = pop(m, r)?;
    let a = page(m, wanted);
    let b = page(m, other);
    if x.same(a) {
        return jump_forward(m, r, d);
    }
    if x.same(b) {
        return Ok(None);
    }
    Ok(Some(must_be_boolean(m, r, x)?))
}
