ghost use Rattle.std.specs.Prelude.{◌≡◌, ◌<◌, ◌≤◌, ◌+◌, ◌≤ℤ◌};
ghost use Rattle.st_model.specs.Decoded.{IsNumberedOperand};
ghost use Rattle.st_model.specs.Bytecodes.{push_operand, store_and_pop, push_receiver, push_constant, extended_push, extended_store, extended_store_and_pop, pop_stack, duplicate_top, push_active_context};
ghost use Rattle.st_model.specs.inside.Calls.{itself};
ghost use Rattle.st_frames.specs.inside.Rows.{RowMoves, RowDoes, Takes};

use crate::operands::{constant_value, fetch_operand, store_operand};
use st_frames::{Registers, next_byte, pop, push, top};
use st_memory::Objects;
use st_model::{Constant, Dead, Operand, Word, extended_operand};

/// Pushes what the operand names.
#[inline(always)]
#[tactic(auto, using(st_frames::proofs::Doing::rows), unfolding(st_model::specs::Bytecodes::push_operand))]
pub fn push_operand<O: Objects>(m: &mut O, r: &mut Registers, operand: Operand) -> Result<(), Dead>
    requires numbered { IsNumberedOperand operand }
    requires room { 1 ≤ O.room m.old }
    ensures does { RowDoes O.Objects.own (push_operand O.names operand)
        itself m.old r.old result m.new r.new }
    ensures takes { Takes O.Objects.own 1 m.old m.new }
{
    let x = fetch_operand(m, r, operand)?;
    push(m, r, x)
}

/// Pops into what the operand names.
#[inline(always)]
#[tactic(auto, using(st_frames::proofs::Doing::rows), unfolding(st_model::specs::Bytecodes::store_and_pop))]
pub fn store_and_pop<O: Objects>(m: &mut O, r: &mut Registers, operand: Operand) -> Result<(), Dead>
    requires numbered { IsNumberedOperand operand }
    requires room { 1 ≤ O.room m.old }
    ensures does { RowDoes O.Objects.own (store_and_pop O.names operand)
        itself m.old r.old result m.new r.new }
    ensures takes { Takes O.Objects.own 1 m.old m.new }
{
    let x = pop(m, r)?;
    store_operand(m, r, operand, x)
}

/// Pushes the receiver.
#[inline(always)]
#[tactic(auto, using(st_frames::proofs::Doing::rows), unfolding(st_model::specs::Bytecodes::push_receiver))]
pub fn push_receiver<O: Objects>(m: &mut O, r: &mut Registers) -> Result<(), Dead>
    requires room { 1 ≤ O.room m.old }
    ensures does { RowDoes O.Objects.own (push_receiver O.names) itself m.old r.old result m.new r.new }
    ensures takes { Takes O.Objects.own 1 m.old m.new }
{
    push(m, r, r.receiver)
}

/// Pushes a constant.
#[inline(always)]
#[tactic(auto, using(st_frames::proofs::Doing::rows), unfolding(st_model::specs::Bytecodes::push_constant))]
pub fn push_constant<O: Objects>(
    m: &mut O,
    r: &mut Registers,
    constant: Constant,
) -> Result<(), Dead>
    requires room { 1 ≤ O.room m.old }
    ensures does { RowDoes O.Objects.own (push_constant O.names constant)
        itself m.old r.old result m.new r.new }
    ensures takes { Takes O.Objects.own 1 m.old m.new }
{
    let x = constant_value(m, r, constant);
    push(m, r, x)
}

/// Pushes what the next byte names.
#[tactic(auto, using(st_frames::proofs::Doing::rows), unfolding(st_model::specs::Bytecodes::extended_push))]
pub fn extended_push<O: Objects>(m: &mut O, r: &mut Registers) -> Result<(), Dead>
    requires room { 1 ≤ O.room m.old }
    ensures does { RowDoes O.Objects.own (extended_push O.names) itself m.old r.old result m.new r.new }
    ensures takes { Takes O.Objects.own 1 m.old m.new }
{
    let byte = next_byte(m, r)?;
    push_operand(m, r, extended_operand(byte))
}

/// Stores the top, which stays, in what the next byte names.
#[tactic(auto, using(st_frames::proofs::Doing::rows), unfolding(st_model::specs::Bytecodes::extended_store))]
pub fn extended_store<O: Objects>(m: &mut O, r: &mut Registers) -> Result<(), Dead>
    requires room { 1 ≤ O.room m.old }
    ensures does { RowDoes O.Objects.own (extended_store O.names) itself m.old r.old result m.new r.new }
    ensures takes { Takes O.Objects.own 1 m.old m.new }
{
    let byte = next_byte(m, r)?;
    let x = top(m, r)?;
    store_operand(m, r, extended_operand(byte), x)
}

/// Pops into what the next byte names.
#[tactic(auto, using(st_frames::proofs::Doing::rows), unfolding(st_model::specs::Bytecodes::extended_store_and_pop))]
pub fn extended_store_and_pop<O: Objects>(m: &mut O, r: &mut Registers) -> Result<(), Dead>
    requires room { 1 ≤ O.room m.old }
    ensures does { RowDoes O.Objects.own (extended_store_and_pop O.names)
        itself m.old r.old result m.new r.new }
    ensures takes { Takes O.Objects.own 1 m.old m.new }
{
    let byte = next_byte(m, r)?;
    store_and_pop(m, r, extended_operand(byte))
}

/// Pops.
#[inline(always)]
#[tactic(auto, using(st_frames::proofs::Doing::rows), unfolding(st_model::specs::Bytecodes::pop_stack))]
pub fn pop_stack<O: Objects>(m: &O, r: &mut Registers) -> Result<(), Dead>
    ensures does { RowMoves O.Objects.own (pop_stack O.names) itself m.now r.old result r.new }
{
    pop(m, r)?;
    Ok(())
}

/// Pushes the top again.
#[inline(always)]
#[tactic(auto, using(st_frames::proofs::Doing::rows), unfolding(st_model::specs::Bytecodes::duplicate_top))]
pub fn duplicate_top<O: Objects>(m: &mut O, r: &mut Registers) -> Result<(), Dead>
    requires room { 1 ≤ O.room m.old }
    ensures does { RowDoes O.Objects.own (duplicate_top O.names) itself m.old r.old result m.new r.new }
    ensures takes { Takes O.Objects.own 1 m.old m.new }
{
    let x = top(m, r)?;
    push(m, r, x)
}

/// Pushes the active context.
#[tactic(auto, using(st_frames::proofs::Doing::rows), unfolding(st_model::specs::Bytecodes::push_active_context))]
pub fn push_active_context<O: Objects>(m: &mut O, r: &mut Registers) -> Result<(), Dead>
    requires room { 1 ≤ O.room m.old }
    ensures does { RowDoes O.Objects.own (push_active_context O.names) itself m.old r.old result m.new r.new }
    ensures takes { Takes O.Objects.own 1 m.old m.new }
{
    push(m, r, r.active)
}
