ghost use Rattle.std.specs.Prelude.{◌<◌, ◌≤◌};
ghost use Rattle.st_model.specs.{Values.word};
ghost use Rattle.st_model.specs.{Sends.{call_of, special_send}, Executing.executed};
ghost use Rattle.st_model.specs.Bytecodes.{send_literal, extended_send, double_extended_send, extended_super_send, double_extended_super_send, or_send, arithmetic_by, arithmetic_send, primitive_send};
ghost use Rattle.st_model.specs.{Arithmetic.arithmetic, Blocks.{primitive_block_copy, primitive_value}};
ghost use Rattle.st_frames.specs.inside.Rows.{RowDoes, RowEnds, Takes, send_changes, executed_send_changes};

use crate::execute::execute;
use st_control::{
    answer_integers, arithmetic_number, equivalence, fetch_literal_constant, integer_answer,
    primitive_block_copy, primitive_value, receiver_class, send, send_to_super, special_send,
};
use st_frames::{Registers, RowEnd, Tried, next_byte, under};
use st_memory::Objects;
use st_model::{Call, Dead, Word};

/// Sends literal i with n arguments.
#[inline(always)]
#[tactic(auto, using(st_frames::proofs::Doing::rows), unfolding(st_model::specs::Bytecodes::send_literal))]
fn send_literal<O: Objects>(m: &mut O, r: &mut Registers, i: u32, n: u32) -> Result<Call, Dead>
    requires few { n < 256 }
    requires room { send_changes ≤ O.room m.old }
    ensures does { RowDoes O.Objects.own (send_literal O.names i n) call_of m.old r.old result m.new r.new }
    ensures takes { Takes O.Objects.own send_changes m.old m.new }
{
    let selector = fetch_literal_constant(m, r, i)?;
    send(m, r, selector, n)
}

/// Sends the literal that the next byte names, with as many arguments as it says.
#[tactic(auto, using(st_frames::proofs::Doing::rows), unfolding(st_model::specs::Bytecodes::extended_send, st_model::specs::Executing::executed))]
pub fn extended_send<O: Objects>(m: &mut O, r: &mut Registers) -> Result<RowEnd, Dead>
    requires room { executed_send_changes ≤ O.room m.old }
    ensures does { RowEnds O.Objects.own (executed O.names (extended_send O.names))
        m.old r.old result m.new r.new }
    ensures takes { Takes O.Objects.own executed_send_changes m.old m.new }
{
    let byte = next_byte(m, r)?;
    let call = send_literal(m, r, u32::from(byte % 32), u32::from(byte / 32))?;
    execute(m, r, call)
}

/// Sends the literal of the second byte with as many arguments as the first says.
#[tactic(auto, using(st_frames::proofs::Doing::rows), unfolding(st_model::specs::Bytecodes::double_extended_send, st_model::specs::Executing::executed))]
pub fn double_extended_send<O: Objects>(m: &mut O, r: &mut Registers) -> Result<RowEnd, Dead>
    requires room { executed_send_changes ≤ O.room m.old }
    ensures does { RowEnds O.Objects.own (executed O.names (double_extended_send O.names))
        m.old r.old result m.new r.new }
    ensures takes { Takes O.Objects.own executed_send_changes m.old m.new }
{
    let arguments = next_byte(m, r)?;
    let literal = next_byte(m, r)?;
    let call = send_literal(m, r, u32::from(literal), u32::from(arguments))?;
    execute(m, r, call)
}

/// Sends the literal that the next byte names to super, with as many arguments as it says.
#[tactic(auto, using(st_frames::proofs::Doing::rows), unfolding(st_model::specs::Bytecodes::extended_super_send, st_model::specs::Bytecodes::send_literal_to_super, st_model::specs::Executing::executed))]
pub fn extended_super_send<O: Objects>(m: &mut O, r: &mut Registers) -> Result<RowEnd, Dead>
    requires room { executed_send_changes ≤ O.room m.old }
    ensures does { RowEnds O.Objects.own (executed O.names (extended_super_send O.names))
        m.old r.old result m.new r.new }
    ensures takes { Takes O.Objects.own executed_send_changes m.old m.new }
{
    let byte = next_byte(m, r)?;
    let selector = fetch_literal_constant(m, r, u32::from(byte % 32))?;
    let call = send_to_super(m, r, selector, u32::from(byte / 32))?;
    execute(m, r, call)
}

/// Sends the literal of the second byte to super, with as many arguments as the first says.
#[tactic(auto, using(st_frames::proofs::Doing::rows), unfolding(st_model::specs::Bytecodes::double_extended_super_send, st_model::specs::Bytecodes::send_literal_to_super, st_model::specs::Executing::executed))]
pub fn double_extended_super_send<O: Objects>(m: &mut O, r: &mut Registers) -> Result<RowEnd, Dead>
    requires room { executed_send_changes ≤ O.room m.old }
    ensures does { RowEnds O.Objects.own (executed O.names (double_extended_super_send O.names))
        m.old r.old result m.new r.new }
    ensures takes { Takes O.Objects.own executed_send_changes m.old m.new }
{
    let arguments = next_byte(m, r)?;
    let literal = next_byte(m, r)?;
    let selector = fetch_literal_constant(m, r, u32::from(literal))?;
    let call = send_to_super(m, r, selector, u32::from(arguments))?;
    execute(m, r, call)
}

/// Sends literal i with n arguments, and executes what is called.
#[inline(never)]
#[tactic(auto, using(st_frames::proofs::Doing::rows), unfolding(st_model::specs::Executing::executed))]
pub fn send_literal_selector<O: Objects>(
    m: &mut O,
    r: &mut Registers,
    i: u32,
    n: u32,
) -> Result<RowEnd, Dead>
    requires few { n < 256 }
    requires room { executed_send_changes ≤ O.room m.old }
    ensures does { RowEnds O.Objects.own (executed O.names (send_literal O.names i n))
        m.old r.old result m.new r.new }
    ensures takes { Takes O.Objects.own executed_send_changes m.old m.new }
{
    let call = send_literal(m, r, i, n)?;
    execute(m, r, call)
}

/// Sends the special selector of this number, and executes what is called.
#[tactic(auto, using(st_frames::proofs::Doing::rows), unfolding(st_model::specs::Executing::executed))]
pub fn send_special_selector<O: Objects>(
    m: &mut O,
    r: &mut Registers,
    k: u32,
) -> Result<RowEnd, Dead>
    requires number { k < 32 }
    requires room { executed_send_changes ≤ O.room m.old }
    ensures does { RowEnds O.Objects.own (executed O.names (special_send O.names k))
        m.old r.old result m.new r.new }
    ensures takes { Takes O.Objects.own executed_send_changes m.old m.new }
{
    let call = special_send(m, r, k)?;
    execute(m, r, call)
}

/// Does a primitive on two SmallIntegers, or sends the special selector where it fails.
#[tactic(auto, using(crate::proofs::Tries::tries), unfolding(st_model::specs::Bytecodes::or_send))]
fn arithmetic_or_send<O: Objects>(
    m: &mut O,
    r: &mut Registers,
    k: u32,
    primitive: u32,
) -> Result<RowEnd, Dead>
    requires number { k < 16 }
    requires first { 1 ≤ primitive }
    requires last { primitive ≤ 18 }
    requires room { executed_send_changes ≤ O.room m.old }
    ensures does { RowEnds O.Objects.own (or_send O.names k (arithmetic O.names primitive))
        m.old r.old result m.new r.new }
    ensures takes { Takes O.Objects.own executed_send_changes m.old m.new }
{
    match integer_answer(m, r, primitive) {
        Ok(answer) => {
            answer_integers(m, r, answer)?;
            Ok(RowEnd::Went)
        }
        Err(_) => send_special_selector(m, r, k),
    }
}

/// A primitive is tried first where the receiver is a SmallInteger.
#[tactic(auto, using(crate::proofs::Tries::sends))]
fn arithmetic_by<O: Objects>(
    m: &mut O,
    r: &mut Registers,
    k: u32,
    receiver: Word,
) -> Result<RowEnd, Dead>
    requires number { k < 16 }
    requires room { executed_send_changes ≤ O.room m.old }
    ensures does { RowEnds O.Objects.own (arithmetic_by O.names k (word receiver))
        m.old r.old result m.new r.new }
    ensures takes { Takes O.Objects.own executed_send_changes m.old m.new }
{
    if receiver.is_small() {
        arithmetic_or_send(m, r, k, arithmetic_number(k))
    } else {
        send_special_selector(m, r, k)
    }
}

/// Sends the special selector of this number, for which arithmetic is tried first.
#[tactic(auto, using(st_frames::proofs::Doing::rows), unfolding(st_model::specs::Bytecodes::arithmetic_send))]
pub fn arithmetic_send<O: Objects>(m: &mut O, r: &mut Registers, k: u32) -> Result<RowEnd, Dead>
    requires number { k < 16 }
    requires room { executed_send_changes ≤ O.room m.old }
    ensures does { RowEnds O.Objects.own (arithmetic_send O.names k) m.old r.old result m.new r.new }
    ensures takes { Takes O.Objects.own executed_send_changes m.old m.new }
{
    let receiver = under(m, r, 1)?;
    arithmetic_by(m, r, k, receiver)
}

/// Makes a block (primitive 80), or sends the special selector of this number where it fails.
#[tactic(auto, using(st_frames::proofs::Doing::rows), unfolding(st_model::specs::Bytecodes::or_send))]
fn block_copy_or_send<O: Objects>(m: &mut O, r: &mut Registers, k: u32) -> Result<RowEnd, Dead>
    requires number { k < 32 }
    requires room { executed_send_changes ≤ O.room m.old }
    ensures does { RowEnds O.Objects.own (or_send O.names k (primitive_block_copy O.names))
        m.old r.old result m.new r.new }
    ensures takes { Takes O.Objects.own executed_send_changes m.old m.new }
{
    match primitive_block_copy(m, r)? {
        Tried::Done => Ok(RowEnd::Went),
        Tried::Leaves => Ok(RowEnd::Leaves),
        Tried::Failed => send_special_selector(m, r, k),
    }
}

/// Computes a block's value with n arguments (primitive 81), or sends the special selector of this number where it fails.
#[tactic(auto, using(st_frames::proofs::Doing::rows), unfolding(st_model::specs::Bytecodes::or_send))]
fn value_or_send<O: Objects>(m: &mut O, r: &mut Registers, k: u32, n: u32) -> Result<RowEnd, Dead>
    requires number { k < 32 }
    requires few { n < 16384 }
    requires room { executed_send_changes ≤ O.room m.old }
    ensures does { RowEnds O.Objects.own (or_send O.names k (primitive_value O.names n))
        m.old r.old result m.new r.new }
    ensures takes { Takes O.Objects.own executed_send_changes m.old m.new }
{
    match primitive_value(m, r, n)? {
        Tried::Done => Ok(RowEnd::Went),
        Tried::Leaves => Ok(RowEnd::Leaves),
        Tried::Failed => send_special_selector(m, r, k),
    }
}

/// Does the code 176 + k: primitives 110 and 111 for 198 and 199. 200 tries primitive 80, and 201 and 202 try 81.
#[tactic(auto, using(st_frames::proofs::Doing::rows), unfolding(st_model::specs::Bytecodes::primitive_send, st_model::specs::Executing::goes_on))]
pub fn primitive_send<O: Objects>(m: &mut O, r: &mut Registers, k: u32) -> Result<RowEnd, Dead>
    requires number { k < 32 }
    requires room { executed_send_changes ≤ O.room m.old }
    ensures does { RowEnds O.Objects.own (primitive_send O.names k) m.old r.old result m.new r.new }
    ensures takes { Takes O.Objects.own executed_send_changes m.old m.new }
{
    match k {
        22 => equivalence(m, r)?,
        23 => receiver_class(m, r)?,
        24 => return block_copy_or_send(m, r, k),
        _ => return value_or_send(m, r, k, k.saturating_sub(25)),
    }
    Ok(RowEnd::Went)
}
