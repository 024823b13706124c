ghost use Rattle.std.specs.Prelude.{◌≡◌, ◌≤◌, ◌+◌, Ok};
ghost use Rattle.st_model.specs.Values.{word};
ghost use Rattle.st_model.specs.Decoded.{IsNumberedOperand};
ghost use Rattle.st_model.specs.Bytecodes.{fetch_literal_constant, fetch_operand, store_operand, constant_value};
ghost use Rattle.st_model.specs.inside.Calls.{itself};
ghost use Rattle.st_frames.specs.inside.Rows.{RowReads, RowDoes, Takes};

use st_frames::{Registers, page, small};
use st_memory::Objects;
use st_model::{Constant, Dead, Operand, PageObject, Word};

/// Literal i of the method.
#[tactic(auto, using(st_frames::proofs::Doing::rows), unfolding(st_model::specs::Bytecodes::fetch_literal_constant))]
pub fn fetch_literal_constant<O: Objects>(m: &O, r: &Registers, i: u32) -> Result<Word, Dead>
    ensures does { RowReads O.Objects.own (fetch_literal_constant O.names i) word m.now r.now result }
{
    m.literal(r.method, i)
}

/// What an operand names.
#[inline(always)]
#[tactic(auto, using(st_frames::proofs::Doing::rows), unfolding(st_model::specs::Bytecodes::fetch_operand, st_model::specs::Bytecodes::fetch_receiver_variable, st_model::specs::Bytecodes::fetch_temporary_variable, st_model::specs::Bytecodes::fetch_literal_variable))]
pub fn fetch_operand<O: Objects>(m: &O, r: &Registers, operand: Operand) -> Result<Word, Dead>
    requires numbered { IsNumberedOperand operand }
    ensures does { RowReads O.Objects.own (fetch_operand O.names operand) word m.now r.now result }
{
    let (object, field) = match operand {
        Operand::ReceiverVariable(i) => (r.receiver, u32::from(i)),
        Operand::TemporaryVariable(i) => (r.home, 6 + u32::from(i)),
        Operand::LiteralConstant(i) => return fetch_literal_constant(m, r, u32::from(i)),
        Operand::LiteralVariable(i) => (fetch_literal_constant(m, r, u32::from(i))?, 1),
    };
    m.fetch_field(object, field)
}

/// Stores x in what an operand names. Dead of an unused code where that is a literal constant.
#[inline(always)]
#[tactic(auto, using(st_frames::proofs::Doing::rows), unfolding(st_model::specs::Bytecodes::store_operand, st_model::specs::Bytecodes::store_receiver_variable, st_model::specs::Bytecodes::store_temporary_variable, st_model::specs::Bytecodes::store_literal_variable))]
pub fn store_operand<O: Objects>(
    m: &mut O,
    r: &Registers,
    operand: Operand,
    x: Word,
) -> Result<(), Dead>
    requires numbered { IsNumberedOperand operand }
    requires room { 1 ≤ O.room m.old }
    ensures does { RowDoes O.Objects.own (store_operand O.names operand (word x))
        itself m.old r.now result m.new r.now }
    ensures takes { Takes O.Objects.own 1 m.old m.new }
{
    let (object, field) = match operand {
        Operand::ReceiverVariable(i) => (r.receiver, u32::from(i)),
        Operand::TemporaryVariable(i) => (r.home, 6 + u32::from(i)),
        Operand::LiteralConstant(_) => return Err(Dead::Code),
        Operand::LiteralVariable(i) => (fetch_literal_constant(m, r, u32::from(i))?, 1),
    };
    m.store_field(object, field, x)
}

/// The word of a constant.
#[inline(always)]
#[tactic(auto, using(st_frames::proofs::Doing::rows), unfolding(st_model::specs::Bytecodes::constant_value))]
pub fn constant_value<O: Objects>(m: &O, r: &Registers, constant: Constant) -> Word
    ensures does { RowReads O.Objects.own (constant_value O.names constant) word m.now r.now (Ok result) }
{
    match constant {
        Constant::True => page(m, PageObject::TrueObject),
        Constant::False => page(m, PageObject::FalseObject),
        Constant::Nil => page(m, PageObject::NilObject),
        Constant::MinusOne => small(32767),
        Constant::Zero => small(0),
        Constant::One => small(1),
        Constant::Two => small(2),
    }
}
