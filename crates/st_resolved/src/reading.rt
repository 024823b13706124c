//! Instructions of bytes, one at a time (chapter 28).

ghost use Rattle.std.specs.Prelude.{◌≡◌, ◌<◌, Some, [], ◌∷◌};
ghost use Rattle.st_model.specs.Decoded.{IsNumbered, arguments_of, selector_of};
ghost use Rattle.st_emit.specs.Nodes.{is_above};
ghost use Rattle.st_resolved.specs.Instructions.{place_of, pushed_constant, returned_constant, long_count, long_on};
ghost use Rattle.st_resolved.specs.Instructions.{long_jump_by, doubly, sending, place_in, in_one, instruction_by};
ghost use Rattle.st_resolved.specs.Instructions.{instruction};

use st_emit::{Constant as Pseudo, Instruction, InstructionOperand, Lookup};
use st_model::{Bytecode, Constant, Operand, decode, extended_operand};

/// An instruction, and how many bytes it has.
#[derive(Clone, Copy)]
pub struct Found {
    pub step: Instruction,
    pub size: usize,
}

fn place_of(operand: Operand) -> InstructionOperand
    ensures { result ≡ place_of operand }
{
    match operand {
        Operand::ReceiverVariable(n) => InstructionOperand::Field(n as usize),
        Operand::TemporaryVariable(n) => InstructionOperand::Temporary(n as usize),
        Operand::LiteralConstant(n) => InstructionOperand::Literal(n as usize),
        Operand::LiteralVariable(n) => InstructionOperand::Shared(n as usize),
    }
}

fn pushed_constant(constant: Constant) -> Instruction
    ensures { result ≡ pushed_constant constant }
{
    match constant {
        Constant::True => Instruction::PushConstant(Pseudo::True),
        Constant::False => Instruction::PushConstant(Pseudo::False),
        Constant::Nil => Instruction::PushConstant(Pseudo::Nil),
        Constant::MinusOne => Instruction::PushNumber(0),
        Constant::Zero => Instruction::PushNumber(1),
        Constant::One => Instruction::PushNumber(2),
        Constant::Two => Instruction::PushNumber(3),
    }
}

/// What returns a constant; no code returns a number.
fn returned_constant(constant: Constant) -> Option<Instruction>
    ensures { result ≡ returned_constant constant }
{
    match constant {
        Constant::True => Some(Instruction::ReturnConstant(Pseudo::True)),
        Constant::False => Some(Instruction::ReturnConstant(Pseudo::False)),
        Constant::Nil => Some(Instruction::ReturnConstant(Pseudo::Nil)),
        _ => None,
    }
}

/// A jump on by two bytes.
fn long_on(distance: usize) -> Instruction
    ensures { result ≡ long_on distance }
{
    if 1 <= distance && distance <= 8 {
        Instruction::JumpPast(distance)
    } else {
        Instruction::Jump(distance)
    }
}

/// A jump by one of the codes from 160 on, by its number, and a byte.
fn long_jump_by(number: u8, byte: u8) -> Instruction
    requires { number < 8 }
    ensures { result ≡ long_jump_by number byte }
{
    if number < 4 {
        Instruction::JumpBack((4 - number as usize) * 256 - byte as usize)
    } else {
        long_on((number as usize - 4) * 256 + byte as usize)
    }
}

/// How many arguments a send by three bytes has.
fn long_count(arguments: u8, selector: u8) -> usize
    ensures { result ≡ long_count arguments selector }
{
    if selector < 32 && arguments <= 7 {
        arguments as usize + 256
    } else {
        arguments as usize
    }
}

/// A send of a selector that is looked up there.
fn sent(lookup: Lookup, arguments: usize, selector: usize) -> Instruction
    ensures { result ≡ sending (is_above lookup) arguments selector }
{
    match lookup {
        Lookup::InClass => Instruction::Send {
            arguments,
            selector,
        },
        Lookup::InSuperclass => Instruction::SendSuper {
            arguments,
            selector,
        },
    }
}

/// A send by three bytes, behind the first.
fn doubly(lookup: Lookup, arguments: u8, rest: &[u8]) -> Option<Found>
    ensures { result ≡ doubly (is_above lookup) (arguments ∷ rest.now) }
{
    let [selector, ..] = rest else {
        return None;
    };
    let arguments = long_count(arguments, *selector);
    let step = sent(lookup, arguments, *selector as usize);
    Some(Found { step, size: 3 })
}

fn in_one(step: Instruction) -> Option<Found>
    ensures { result ≡ in_one step }
{
    Some(Found { step, size: 1 })
}

fn in_two(step: Instruction) -> Option<Found>
    ensures { result ≡ Some (record { step = step; size = 2 }) }
{
    Some(Found { step, size: 2 })
}

/// What an extended code's byte names.
fn place_in(byte: u8) -> InstructionOperand
    ensures { result ≡ place_in byte }
{
    place_of(extended_operand(byte))
}

/// A send whose second byte has the selector in its lower five bits, and the number of arguments in its upper three.
fn extended(lookup: Lookup, byte: u8) -> Instruction
    ensures { result ≡ sending (is_above lookup) (arguments_of byte) (selector_of byte) }
{
    sent(lookup, (byte / 32) as usize, (byte % 32) as usize)
}

/// An instruction of one byte.
fn alone(code: Bytecode) -> Option<Found>
    requires { IsNumbered code }
    ensures { result ≡ instruction_by code [] }
{
    match code {
        Bytecode::Push(operand) => in_one(Instruction::Push(place_of(operand))),
        Bytecode::StoreAndPop(operand) => in_one(Instruction::PopStore(place_of(operand))),
        Bytecode::PushReceiver => in_one(Instruction::PushConstant(Pseudo::Receiver)),
        Bytecode::PushConstant(constant) => in_one(pushed_constant(constant)),
        Bytecode::PushActiveContext => in_one(Instruction::PushConstant(Pseudo::Context)),
        Bytecode::ReturnReceiver => in_one(Instruction::ReturnConstant(Pseudo::Receiver)),
        Bytecode::ReturnConstant(constant) => in_one(returned_constant(constant)?),
        Bytecode::ReturnTopToSender => in_one(Instruction::ReturnTop),
        Bytecode::ReturnTopToCaller => in_one(Instruction::ReturnBlock),
        Bytecode::PopStack => in_one(Instruction::Pop),
        Bytecode::DuplicateTop => in_one(Instruction::Duplicate),
        Bytecode::ShortUnconditionalJump(i) => in_one(Instruction::Jump(i as usize + 1)),
        Bytecode::ShortJumpOnFalse(i) => in_one(Instruction::JumpIf(false, i as usize + 1)),
        Bytecode::ArithmeticSend(i) | Bytecode::SpecialSend(i) | Bytecode::PrimitiveSend(i) => {
            in_one(Instruction::SendSpecial(176 + i))
        }
        Bytecode::LiteralSend { literal, arguments } => in_one(Instruction::Send {
            arguments: arguments as usize,
            selector: literal as usize,
        }),
        _ => None,
    }
}

/// An instruction with the byte behind its first, which it may not have, and the others.
fn by_second(code: Bytecode, byte: u8, more: &[u8]) -> Option<Found>
    requires { IsNumbered code }
    ensures { result ≡ instruction_by code (byte ∷ more.now) }
{
    match code {
        Bytecode::ExtendedPush => in_two(Instruction::Push(place_in(byte))),
        Bytecode::ExtendedStore => in_two(Instruction::Store(place_in(byte))),
        Bytecode::ExtendedStoreAndPop => in_two(Instruction::PopStore(place_in(byte))),
        Bytecode::ExtendedSend => in_two(extended(Lookup::InClass, byte)),
        Bytecode::ExtendedSuperSend => in_two(extended(Lookup::InSuperclass, byte)),
        Bytecode::DoubleExtendedSend => doubly(Lookup::InClass, byte, more),
        Bytecode::DoubleExtendedSuperSend => doubly(Lookup::InSuperclass, byte, more),
        Bytecode::LongUnconditionalJump(i) => in_two(long_jump_by(i, byte)),
        Bytecode::LongJumpOnTrue(i) => in_two(Instruction::JumpIf(
            true,
            i as usize * 256 + byte as usize,
        )),
        Bytecode::LongJumpOnFalse(i) => {
            in_two(Instruction::JumpIf(false, i as usize * 256 + byte as usize))
        }
        _ => alone(code),
    }
}

/// The instruction that bytes begin with; none where the first byte is no code, or where bytes are missing.
pub fn instruction(bytes: &[u8]) -> Option<Found>
    ensures { result ≡ instruction bytes.now }
{
    let [first, rest @ ..] = bytes else {
        return None;
    };
    let code = decode(*first);
    match rest {
        [] => alone(code),
        [byte, more @ ..] => by_second(code, *byte, more),
    }
}
