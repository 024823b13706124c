ghost use Rattle.std.specs.Prelude.{◌≤◌};
ghost use Rattle.st_model.specs.{Decoded.IsNumbered};
ghost use Rattle.st_model.specs.{Executing.executed_if_any, Bytecodes.{return_constant, bytecode, step}};
ghost use Rattle.st_frames.specs.inside.Rows.{RowEnds, Takes, executed_return_changes, bytecode_changes};

use crate::jump::{long_conditional_jump, short_jump_on_false};
use crate::returns::{return_top_to_caller, return_top_to_sender, return_word};
use crate::send::{
    arithmetic_send, double_extended_send, double_extended_super_send, extended_send,
    extended_super_send, primitive_send, send_literal_selector, send_special_selector,
};
use st_control::{
    constant_value, duplicate_top, extended_push, extended_store, extended_store_and_pop,
    long_unconditional_jump, pop_stack, push_active_context, push_constant, push_operand,
    push_receiver, short_unconditional_jump, store_and_pop,
};
use st_frames::{Registers, RowEnd, next_byte};
use st_memory::Objects;
use st_model::{Bytecode, Constant, Dead, PageObject, decode};

/// Returns a constant to the sender.
#[tactic(auto, using(st_frames::proofs::Doing::rows), unfolding(st_model::specs::Bytecodes::return_constant, st_model::specs::Executing::executed_if_any))]
fn return_constant<O: Objects>(m: &mut O, r: &mut Registers, c: Constant) -> Result<RowEnd, Dead>
    requires room { executed_return_changes ≤ O.room m.old }
    ensures does { RowEnds O.Objects.own (executed_if_any O.names (return_constant O.names c))
        m.old r.old result m.new r.new }
    ensures takes { Takes O.Objects.own executed_return_changes m.old m.new }
{
    let x = constant_value(m, r, c);
    return_word(m, r, x)
}

/// Does the row of a bytecode that was fetched and decoded.
#[inline(never)]
#[tactic(auto, using(st_frames::proofs::Doing::rows), unfolding(st_model::specs::Bytecodes::bytecode, st_model::specs::Bytecodes::long_jump_on_true, st_model::specs::Bytecodes::long_jump_on_false, crate::specs::inside::Jumping::long_conditional_jump, st_model::specs::Executing::goes_on, st_model::specs::Bytecodes::return_receiver, st_model::specs::Executing::executed_if_any))]
pub fn bytecode<O: Objects>(m: &mut O, r: &mut Registers, code: Bytecode) -> Result<RowEnd, Dead>
    requires numbered { IsNumbered code }
    requires room { bytecode_changes ≤ O.room m.old }
    ensures does { RowEnds O.Objects.own (bytecode O.names code) m.old r.old result m.new r.new }
    ensures takes { Takes O.Objects.own bytecode_changes m.old m.new }
{
    match code {
        Bytecode::Push(operand) => push_operand(m, r, operand)?,
        Bytecode::StoreAndPop(operand) => store_and_pop(m, r, operand)?,
        Bytecode::PushReceiver => push_receiver(m, r)?,
        Bytecode::PushConstant(constant) => push_constant(m, r, constant)?,
        Bytecode::ReturnReceiver => return return_word(m, r, r.receiver),
        Bytecode::ReturnConstant(constant) => return return_constant(m, r, constant),
        Bytecode::ReturnTopToSender => return return_top_to_sender(m, r),
        Bytecode::ReturnTopToCaller => return return_top_to_caller(m, r),
        Bytecode::Unused => return Err(Dead::Code),
        Bytecode::ExtendedPush => extended_push(m, r)?,
        Bytecode::ExtendedStore => extended_store(m, r)?,
        Bytecode::ExtendedStoreAndPop => extended_store_and_pop(m, r)?,
        Bytecode::ExtendedSend => return extended_send(m, r),
        Bytecode::DoubleExtendedSend => return double_extended_send(m, r),
        Bytecode::ExtendedSuperSend => return extended_super_send(m, r),
        Bytecode::DoubleExtendedSuperSend => return double_extended_super_send(m, r),
        Bytecode::PopStack => pop_stack(m, r)?,
        Bytecode::DuplicateTop => duplicate_top(m, r)?,
        Bytecode::PushActiveContext => push_active_context(m, r)?,
        Bytecode::ShortUnconditionalJump(i) => short_unconditional_jump(m, r, i)?,
        Bytecode::ShortJumpOnFalse(i) => return short_jump_on_false(m, r, i),
        Bytecode::LongUnconditionalJump(i) => long_unconditional_jump(m, r, i)?,
        Bytecode::LongJumpOnTrue(i) => {
            return long_conditional_jump(m, r, PageObject::TrueObject, PageObject::FalseObject, i);
        }
        Bytecode::LongJumpOnFalse(i) => {
            return long_conditional_jump(m, r, PageObject::FalseObject, PageObject::TrueObject, i);
        }
        Bytecode::ArithmeticSend(k) => return arithmetic_send(m, r, u32::from(k)),
        Bytecode::SpecialSend(k) => return send_special_selector(m, r, u32::from(k)),
        Bytecode::PrimitiveSend(k) => return primitive_send(m, r, u32::from(k)),
        Bytecode::LiteralSend { literal, arguments } => {
            return send_literal_selector(m, r, u32::from(literal), u32::from(arguments));
        }
    }
    Ok(RowEnd::Went)
}

/// Does the next bytecode.
#[tactic(auto, using(st_frames::proofs::Doing::rows), unfolding(st_model::specs::Bytecodes::step))]
pub fn step_row<O: Objects>(m: &mut O, r: &mut Registers) -> Result<RowEnd, Dead>
    requires room { bytecode_changes ≤ O.room m.old }
    ensures does { RowEnds O.Objects.own (step O.names) m.old r.old result m.new r.new }
    ensures takes { Takes O.Objects.own bytecode_changes m.old m.new }
{
    let byte = next_byte(m, r)?;
    bytecode(m, r, decode(byte))
}
