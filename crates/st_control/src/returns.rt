ghost use Rattle.std.specs.Prelude.{◌≡◌, ◌<◌, ◌≤◌, ◌+◌};
ghost use Rattle.st_model.specs.Values.{word};
ghost use Rattle.st_model.specs.Sends.{call_of, call_if_any};
ghost use Rattle.st_model.specs.Returns.{cannot_return, return_into};
ghost use Rattle.st_model.specs.inside.Calls.{itself};
ghost use Rattle.st_control.specs.inside.Returning.{return_past};
ghost use Rattle.st_frames.specs.inside.Rows.{RowDoes, Takes, return_changes};

use crate::sends::send;
use st_frames::{Registers, fetch_context_registers, page, push};
use st_memory::Objects;
use st_model::{Call, Dead, PageObject, Word};

/// Sends cannotReturn: to the active context.
#[inline(never)]
#[tactic(auto, using(st_frames::proofs::Doing::rows), unfolding(st_model::specs::Returns::cannot_return))]
fn cannot_return<O: Objects>(m: &mut O, r: &mut Registers, answer: Word) -> Result<Call, Dead>
    requires room { return_changes ≤ O.room m.old }
    ensures does { RowDoes O.Objects.own (cannot_return O.names (word answer))
        call_of m.old r.old result m.new r.new }
    ensures takes { Takes O.Objects.own return_changes m.old m.new }
{
    push(m, r, r.active)?;
    push(m, r, answer)?;
    let selector = page(m, PageObject::CannotReturn);
    send(m, r, selector, 1)
}

/// Leaves the active context for good, and pushes the answer in another.
#[inline(always)]
#[tactic(auto, using(st_frames::proofs::Doing::rows), unfolding(st_model::specs::Returns::return_into))]
fn return_into<O: Objects>(
    m: &mut O,
    r: &mut Registers,
    context: Word,
    answer: Word,
) -> Result<(), Dead>
    requires room { 3 ≤ O.room m.old }
    ensures does { RowDoes O.Objects.own (return_into O.names (word context) (word answer))
        itself m.old r.old result m.new r.new }
    ensures takes { Takes O.Objects.own 3 m.old m.new }
{
    let nil = page(m, PageObject::NilObject);
    m.store_field(r.active, 0, nil)?;
    m.store_field(r.active, 1, nil)?;
    fetch_context_registers(m, r, context)?;
    push(m, r, answer)
}

/// Returns the answer past a context, to its sender or caller, unless that is nil or was left for good.
#[inline(always)]
#[tactic(auto, using(st_frames::proofs::Doing::rows), unfolding(crate::specs::inside::Returning::return_past, st_model::specs::Returns::return_to, st_model::specs::Returns::return_to_context, st_model::specs::Returns::calls, st_model::specs::Returns::calls_nothing))]
pub fn return_past<O: Objects>(
    m: &mut O,
    r: &mut Registers,
    context: Word,
    answer: Word,
) -> Result<Option<Call>, Dead>
    requires room { return_changes ≤ O.room m.old }
    ensures does { RowDoes O.Objects.own (return_past O.names (word context) (word answer))
        call_if_any m.old r.old result m.new r.new }
    ensures takes { Takes O.Objects.own return_changes m.old m.new }
{
    let target = m.fetch_field(context, 0)?;
    let nil = page(m, PageObject::NilObject);
    if target.same(nil) {
        return Ok(Some(cannot_return(m, r, answer)?));
    }
    let ip = m.fetch_field(target, 1)?;
    if ip.same(nil) {
        return Ok(Some(cannot_return(m, r, answer)?));
    }
    return_into(m, r, target, answer)?;
    Ok(None)
}
