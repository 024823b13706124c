//! Instructions as bytes.

ghost use Rattle.std.specs.Prelude.{◌≡◌, ◌≤◌, ◌++◌, true, IfOk, OnOk};
ghost use Rattle.st_emit.specs.Steps.{reaches, all_reach, sends_super, push_bytes, pop_bytes, long_place};
ghost use Rattle.st_emit.specs.Steps.{constant_byte, small_byte, return_byte, send_bytes, long_send};
ghost use Rattle.st_emit.specs.Steps.{long_jump, jump_bytes, bytes_of, all_bytes};
ghost use Rattle.st_code.specs.inside.Coded.{code_view};

use st_emit::{Constant, Instruction, InstructionOperand};
use st_scan::Text;
use std::alloc::{AllocError, Global};

/// How far a jump of two bytes goes forward, and back.
const MOST_FORWARD: usize = 1_023;

const MOST_BACK: usize = 1_024;

/// The bytes of one instruction.
#[derive(Clone, Copy)]
pub enum Code {
    One(u8),
    Two(u8, u8),
    Three(u8, u8, u8),
}

/// Whether an instruction, if it jumps, comes to its place.
fn reaches(step: Instruction) -> bool
    ensures { result ≡ reaches step }
{
    match step {
        Instruction::Jump(d) => d <= MOST_FORWARD,
        Instruction::JumpIf(_, d) => d <= MOST_FORWARD,
        Instruction::JumpPast(d) => d <= MOST_FORWARD,
        Instruction::JumpBack(d) => d <= MOST_BACK,
        _ => true,
    }
}

/// Whether all jumps come to their places.
pub fn all_reach(steps: &[Instruction]) -> bool
    ensures { result ≡ all_reach steps.now }
{
    for step in steps {
        if !reaches(*step) {
            return false;
        }
    }
    true
}

/// Whether a message is sent to super.
pub fn sends_super(steps: &[Instruction]) -> bool
    ensures { result ≡ sends_super steps.now }
{
    for step in steps {
        if let Instruction::SendSuper { .. } = *step {
            return true;
        }
    }
    false
}

/// What the long codes name: the type in the upper two bits, the number in the lower six.
fn long_place(place: InstructionOperand) -> u8
    ensures { result ≡ long_place place }
{
    match place {
        InstructionOperand::Field(n) => (n % 64) as u8,
        InstructionOperand::Temporary(n) => 64 + (n % 64) as u8,
        InstructionOperand::Literal(n) => 128 + (n % 64) as u8,
        InstructionOperand::Shared(n) => 192 + (n % 64) as u8,
    }
}

fn constant_byte(constant: Constant) -> u8
    ensures { result ≡ constant_byte constant }
{
    match constant {
        Constant::Receiver => 112,
        Constant::True => 113,
        Constant::False => 114,
        Constant::Nil => 115,
        Constant::Context => 137,
    }
}

fn small_byte(n: usize) -> u8
    ensures { result ≡ small_byte n }
{
    match n {
        0 => 116,
        1 => 117,
        2 => 118,
        _ => 119,
    }
}

fn return_byte(constant: Constant) -> u8
    ensures { result ≡ return_byte constant }
{
    match constant {
        Constant::Receiver => 120,
        Constant::True => 121,
        Constant::False => 122,
        Constant::Nil => 123,
        Constant::Context => 124,
    }
}

/// A push, by one byte where the number allows.
fn push_code(place: InstructionOperand) -> Code
    ensures { code_view result ≡ push_bytes place }
{
    match place {
        InstructionOperand::Field(n) if n < 16 => Code::One(n as u8),
        InstructionOperand::Temporary(n) if n < 16 => Code::One(16 + n as u8),
        InstructionOperand::Literal(n) if n < 32 => Code::One(32 + n as u8),
        InstructionOperand::Shared(n) if n < 32 => Code::One(64 + n as u8),
        _ => Code::Two(128, long_place(place)),
    }
}

/// A store that pops, by one byte where the number allows.
fn pop_code(place: InstructionOperand) -> Code
    ensures { code_view result ≡ pop_bytes place }
{
    match place {
        InstructionOperand::Field(n) if n < 8 => Code::One(96 + n as u8),
        InstructionOperand::Temporary(n) if n < 8 => Code::One(104 + n as u8),
        _ => Code::Two(130, long_place(place)),
    }
}

/// A send by two bytes where the numbers allow, else by three.
fn long_send(two: u8, three: u8, arguments: usize, selector: usize) -> Code
    ensures { code_view result ≡ long_send two three arguments selector }
{
    if selector < 32 && arguments <= 7 {
        return Code::Two(two, (arguments * 32 + selector) as u8);
    }
    Code::Three(three, (arguments % 256) as u8, (selector % 256) as u8)
}

/// A send by one byte where the numbers allow.
fn send_code(arguments: usize, selector: usize) -> Code
    ensures { code_view result ≡ send_bytes arguments selector }
{
    if selector < 16 && arguments <= 2 {
        return Code::One((208 + 16 * arguments + selector) as u8);
    }
    long_send(131, 132, arguments, selector)
}

/// A jump by two bytes: 256 passed for each of a row of codes, and as many as the second byte says.
fn long_jump(first: u8, d: usize) -> Code
    requires first { first ≤ 251 }
    requires near { d ≤ 1024 }
    ensures { code_view result ≡ long_jump first d }
{
    Code::Two(first + (d / 256) as u8, (d % 256) as u8)
}

/// A jump by one byte where the distance allows.
fn jump_code(short: u8, long: u8, d: usize) -> Code
    requires short { short ≤ 248 }
    requires long { long ≤ 251 }
    requires near { d ≤ 1024 }
    ensures { code_view result ≡ jump_bytes short long d }
{
    if 1 <= d && d <= 8 {
        return Code::One(short + (d - 1) as u8);
    }
    long_jump(long, d)
}

/// The bytes of an instruction that comes to its place.
fn code_of(step: Instruction) -> Code
    requires { reaches step ≡ true }
    ensures { code_view result ≡ bytes_of step }
{
    match step {
        Instruction::Push(place) => push_code(place),
        Instruction::PushConstant(constant) => Code::One(constant_byte(constant)),
        Instruction::PushNumber(n) => Code::One(small_byte(n)),
        Instruction::Store(place) => Code::Two(129, long_place(place)),
        Instruction::PopStore(place) => pop_code(place),
        Instruction::Pop => Code::One(135),
        Instruction::Duplicate => Code::One(136),
        Instruction::Send {
            arguments,
            selector,
        } => send_code(arguments, selector),
        Instruction::SendSuper {
            arguments,
            selector,
        } => long_send(133, 134, arguments, selector),
        Instruction::SendSpecial(code) => Code::One(code),
        Instruction::ReturnConstant(constant) => Code::One(return_byte(constant)),
        Instruction::ReturnTop => Code::One(124),
        Instruction::ReturnBlock => Code::One(125),
        Instruction::Jump(d) => jump_code(144, 164, d),
        Instruction::JumpBack(d) => long_jump(160, MOST_BACK - d),
        Instruction::JumpIf(true, d) => long_jump(168, d),
        Instruction::JumpIf(false, d) => jump_code(152, 172, d),
        Instruction::JumpPast(d) => long_jump(164, d),
    }
}

/// The bytes of one instruction more.
fn put(bytes: &mut Text, code: Code) -> Result<(), AllocError>
    ensures { OnOk result (bytes.new.items ≡ bytes.old.items ++ code_view code) }
{
    match code {
        Code::One(a) => bytes.extend_from_slice(&[a]),
        Code::Two(a, b) => bytes.extend_from_slice(&[a, b]),
        Code::Three(a, b, c) => bytes.extend_from_slice(&[a, b, c]),
    }
}

/// The bytes of instructions that all come to their places.
pub fn all_bytes(alloc: Global, steps: &[Instruction]) -> Result<Text, AllocError>
    requires { all_reach steps.now ≡ true }
    ensures { IfOk result (λ bytes. bytes.items ≡ all_bytes steps.now) }
{
    let mut bytes = Vec::new(alloc);
    for step in steps {
        put(&mut bytes, code_of(*step))?;
    }
    Ok(bytes)
}
