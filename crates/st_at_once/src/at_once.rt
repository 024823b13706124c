ghost use Rattle.std.specs.Prelude.{◌≡◌, ◌<◌, ◌≤◌, ◌+◌, pos};
ghost use Rattle.st_model.specs.{inside.Calls.itself, Decoded.IsNumbered};
ghost use Rattle.st_model.specs.declared.page.PageObject.TheVariants.{FalseObject, TrueObject};
ghost use Rattle.st_control.specs.inside.AtOnce.{IsStill, jump_at_once};
ghost use Rattle.st_at_once.specs.inside.AtOnce.{long_jump_at_once, bytecode_at_once, kept};
ghost use Rattle.st_frames.specs.inside.Rows.{RowMoves, RowDoes, Takes};

use crate::arithmetic::arithmetic_at_once;
use crate::holding::copy_pointers;
use st_control::{
    duplicate_top, equivalence, extended_push, extended_store, extended_store_and_pop,
    jump_at_once, long_unconditional_jump, pop_stack, push_active_context, push_constant,
    push_operand, push_receiver, receiver_class, short_unconditional_jump, store_and_pop,
};
use st_frames::{Frame, Registers, next_byte};
use st_memory::Objects;
use st_model::{Bytecode, Dead, PageObject};

/// Pops, and jumps on false by i plus 1. Answers whether the word is a boolean.
#[tactic(auto, using(st_frames::proofs::Doing::rows))]
fn short_jump_at_once<O: Objects>(m: &O, r: &mut Registers, i: u8) -> Result<bool, Dead>
    requires number { i < 8 }
    ensures does { RowMoves O.Objects.own (jump_at_once O.names FalseObject TrueObject (pos (i + 1)))
        itself m.now r.old result r.new }
{
    let distance = u32::from(i) + 1;
    jump_at_once(
        m,
        r,
        PageObject::FalseObject,
        PageObject::TrueObject,
        distance,
    )
}

/// Pops, and jumps on the wanted boolean by i times 256 plus the next byte. Answers whether the word is a boolean.
#[inline(never)]
#[tactic(auto, using(st_frames::proofs::Doing::rows), unfolding(crate::specs::inside::AtOnce::long_jump_at_once))]
fn long_jump_at_once<O: Objects>(
    m: &O,
    r: &mut Registers,
    wanted: PageObject,
    other: PageObject,
    i: u8,
) -> Result<bool, Dead>
    requires number { i < 4 }
    ensures does { RowMoves O.Objects.own (long_jump_at_once O.names wanted other i)
        itself m.now r.old result r.new }
{
    let byte = next_byte(m, r)?;
    let distance = u32::from(i) * 256 + u32::from(byte);
    jump_at_once(m, r, wanted, other, distance)
}

/// Does the row of a bytecode that was fetched and decoded, if that is done at once, and answers whether it is. If so, the frame keeps
/// the instruction and the stack pointer; if not, nothing is changed but these two in the registers.
#[inline(always)]
#[tactic(auto, using(st_frames::proofs::Doing::rows), unfolding(crate::specs::inside::AtOnce::bytecode_at_once, crate::specs::inside::AtOnce::primitive_at_once, st_control::specs::inside::AtOnce::at_once))]
pub fn bytecode_at_once<O: Objects>(
    m: &mut O,
    f: &mut Frame,
    r: &mut Registers,
    code: Bytecode,
) -> Result<bool, Dead>
    requires numbered { IsNumbered code }
    requires room { 1 ≤ O.room m.old }
    ensures does { RowDoes O.Objects.own (bytecode_at_once O.names code)
        itself m.old r.old result m.new r.new }
    ensures frame { f.new ≡ kept result f.old r.new }
    ensures takes { Takes O.Objects.own 1 m.old m.new }
    ensures still { IsStill O.Objects.own m.old result m.new }
{
    match code {
        Bytecode::Push(operand) => push_operand(m, r, operand)?,
        Bytecode::StoreAndPop(operand) => store_and_pop(m, r, operand)?,
        Bytecode::PushReceiver => push_receiver(m, r)?,
        Bytecode::PushConstant(constant) => push_constant(m, r, constant)?,
        Bytecode::ExtendedPush => extended_push(m, r)?,
        Bytecode::ExtendedStore => extended_store(m, r)?,
        Bytecode::ExtendedStoreAndPop => extended_store_and_pop(m, r)?,
        Bytecode::PopStack => pop_stack(m, r)?,
        Bytecode::DuplicateTop => duplicate_top(m, r)?,
        Bytecode::PushActiveContext => push_active_context(m, r)?,
        Bytecode::ShortUnconditionalJump(i) => short_unconditional_jump(m, r, i)?,
        Bytecode::LongUnconditionalJump(i) => long_unconditional_jump(m, r, i)?,
        Bytecode::ShortJumpOnFalse(i) => {
            if !short_jump_at_once(m, r, i)? {
                return Ok(false);
            }
        }
        Bytecode::LongJumpOnFalse(i) => {
            if !long_jump_at_once(m, r, PageObject::FalseObject, PageObject::TrueObject, i)? {
                return Ok(false);
            }
        }
        Bytecode::LongJumpOnTrue(i) => {
            if !long_jump_at_once(m, r, PageObject::TrueObject, PageObject::FalseObject, i)? {
                return Ok(false);
            }
        }
        Bytecode::ArithmeticSend(k) => {
            if !arithmetic_at_once(m, r, u32::from(k))? {
                return Ok(false);
            }
        }
        Bytecode::PrimitiveSend(22) => equivalence(m, r)?,
        Bytecode::PrimitiveSend(23) => receiver_class(m, r)?,
        _ => return Ok(false),
    }
    copy_pointers(f, r);
    Ok(true)
}
