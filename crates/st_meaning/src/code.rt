//! What one instruction does with a stack.

ghost use Rattle.std.specs.Prelude.{◌≡◌, ◌∷◌, [], Some, None, IfOk, option_map, map, slice_get, ◌-◌};
ghost use Rattle.st_emit.specs.{Selectors.{colons, arity, sends_now}, inside.Views.{literal_view, literals_view}};
ghost use Rattle.st_emit.specs.Resolving.{special_selectors, first_special};
ghost use Rattle.st_meaning.specs.inside.Values.{constant_value, number_value, literal_value, small_value};
ghost use Rattle.st_meaning.specs.inside.Walks.{selector_of, values_of};
ghost use Rattle.st_meaning.specs.inside.Courses.{stack_view, top_walked, IsTop, Does, NamesShort, held_of};
ghost use Rattle.st_meaning.specs.inside.Codes as codes;

use crate::deed::{CONTEXT, FALSE, NIL, RECEIVER, TRUE, Value, ValueList, Variable};
use crate::held::Held;
use crate::message::sends;
use crate::short::{byte_of, variable_of};
use st_emit::{Constant, Instruction, InstructionOperand, Literal, SPECIAL_SENDS};
use st_scan::Signed;
use std::alloc::{AllocError, Global};

/// The code by which a block is made.
const BLOCK_COPY: u8 = 200;

/// What an instruction does, besides that the stack is another one then.
#[derive(Drop)]
pub enum Walked<'p> {
    Went,
    /// A value is stored into a variable.
    Stored(Variable, Value),
    /// A message, to super or not.
    Sent {
        receiver: Value,
        selector: &'p [u8],
        arguments: ValueList,
        above: bool,
    },
    /// A block is made.
    Copied,
    Returned(Value),
    /// A jump by so many bytes, ahead or back.
    Ahead(usize),
    Back(usize),
    /// A jump ahead, by so many bytes, where the value is this boolean.
    Tested(bool, Value, usize),
    /// The code can't go on.
    Stuck,
}

/// The value that a pseudo variable is.
pub fn constant_value(constant: Constant) -> Value
    ensures { result ≡ constant_value constant }
{
    match constant {
        Constant::Receiver => RECEIVER,
        Constant::True => TRUE,
        Constant::False => FALSE,
        Constant::Nil => NIL,
        Constant::Context => CONTEXT,
    }
}

/// A number that a code pushes: from -1 to 2, by one more.
pub fn small_value(n: usize) -> Value
    ensures { result ≡ small_value n }
{
    match n {
        0 => Value::Number(-1),
        1 => Value::Number(0),
        2 => Value::Number(1),
        _ => Value::Number(2),
    }
}

/// The value of a number that is a literal at a place: a SmallInteger is itself.
pub fn number_value(n: Signed, place: u8) -> Value
    ensures { result ≡ number_value n place }
{
    if n.minus && n.size <= 16_384 {
        Value::Number(0 - n.size as i16)
    } else if !n.minus && n.size <= 16_383 {
        Value::Number(n.size as i16)
    } else {
        Value::Literal(place)
    }
}

/// The value of a literal at a place.
fn literal_value(literal: &Literal, place: u8) -> Value
    ensures { result ≡ literal_value (literal_view literal.now) place }
{
    match literal {
        Literal::Number { minus, size } => number_value(
            Signed {
                minus: *minus,
                size: *size,
            },
            place,
        ),
        _ => Value::Literal(place),
    }
}

/// The text of a literal that is a symbol.
fn text_of(literal: &Literal) -> Option<&[u8]>
    ensures { option_map (λ t. t.now) result ≡ selector_of (Some (literal_view literal.now)) }
{
    match literal {
        Literal::Symbol(text) => Some(text),
        Literal::Number { .. } => None,
        Literal::Character(_) => None,
        Literal::Bytes(_) => None,
        Literal::Array(_) => None,
        Literal::Named(_) => None,
        Literal::Owner => None,
    }
}

/// The selector at a place of the literals.
fn selector_at(literals: &[Literal], place: usize) -> Option<&[u8]>
    ensures { option_map (λ t. t.now) result ≡ selector_of (slice_get (literals_view literals.now) place) }
{
    match literals.get(place) {
        Some(literal) => text_of(literal),
        None => None,
    }
}

#[tactic(auto, using(crate::proofs::Stacks::pushed_view))]
fn popped(stack: &mut ValueList) -> Option<Value>
    ensures { IsTop stack.old.items result stack.new.items }
{
    stack.pop()
}

#[tactic(auto, using(crate::proofs::Stacks::pushed_view))]
fn pushed<'p>(stack: &mut ValueList, value: Value) -> Result<Walked<'p>, AllocError>
    ensures { IfOk result (Does (codes.went (value ∷ stack_view stack.old.items)) stack.new.items) }
{
    stack.push(value)?;
    Ok(Walked::Went)
}

/// A block is copied, behind a context and a count.
fn copies<'p>(stack: &mut ValueList) -> Walked<'p>
    ensures { Does (codes.copies (stack_view stack.old.items)) stack.new.items result }
{
    let words = stack.len();
    if words < 2 {
        return Walked::Stuck;
    }
    stack.truncate(words - 2);
    Walked::Copied
}

/// How many bytes of a text are colons.
fn colons(text: &[u8]) -> usize
    ensures { result ≡ colons text.now }
{
    let mut colons = 0;
    for byte in text {
        if *byte == b':' {
            colons += 1;
        }
    }
    colons
}

/// How many arguments a selector has.
pub fn arity(selector: &[u8]) -> usize
    ensures { result ≡ arity selector.now }
{
    match selector {
        [] => 0,
        [first, ..] => if first.is_ascii_alphabetic() {
            colons(selector)
        } else {
            1
        },
    }
}

/// The selector at a place of such a table.
fn selector_in<'p>(sends: &'p [(&'p [u8], u8)], place: usize) -> Option<&'p [u8]>
    ensures { option_map (λ t. t.now) result ≡ slice_get (map (λ s. s.0) (sends_now sends.now)) place }
{
    match sends.get(place) {
        Some((selector, _)) => Some(*selector),
        None => None,
    }
}

/// The selector that a code has.
fn special_at(code: u8) -> Option<&'static [u8]>
    ensures { option_map (λ t. t.now) result ≡ slice_get special_selectors (code - first_special) }
{
    selector_in(&SPECIAL_SENDS, (code as usize).saturating_sub(176))
}

/// A message by its own code.
fn sends_special<'p>(
    alloc: Global,
    stack: &mut ValueList,
    code: u8,
) -> Result<Walked<'p>, AllocError>
    ensures { IfOk result (Does (codes.sends_special code (stack_view stack.old.items)) stack.new.items) }
{
    if code == BLOCK_COPY {
        return Ok(copies(stack));
    }
    match special_at(code) {
        Some(selector) => sends(alloc, stack, false, arity(selector), selector),
        None => Ok(Walked::Stuck),
    }
}

/// A message by a selector at a place.
fn sends_at<'p>(
    alloc: Global,
    stack: &mut ValueList,
    above: bool,
    arguments: usize,
    selector: Option<&'p [u8]>,
) -> Result<Walked<'p>, AllocError>
    ensures { IfOk result (Does (codes.on_some (option_map (λ t. t.now) selector.entry)
        (λ t. codes.sends above arguments t (stack_view stack.old.items))) stack.new.items) }
{
    match selector {
        Some(text) => sends(alloc, stack, above, arguments, text),
        None => Ok(Walked::Stuck),
    }
}

/// What is done with the top of the stack.
#[derive(Clone, Copy)]
enum Top {
    Stored(Variable),
    Popped(Variable),
    Dropped,
    Doubled,
    Returned,
    Tested(bool, usize),
}

/// What is done with a value that was on top of the stack.
#[tactic(auto, using(crate::proofs::Stacks::pushed_view))]
fn on_value<'p>(stack: &mut ValueList, what: Top, value: Value) -> Result<Walked<'p>, AllocError>
    ensures { IfOk result (Does (top_walked what (value ∷ stack_view stack.old.items)) stack.new.items) }
{
    match what {
        Top::Stored(variable) => {
            stack.push(value)?;
            Ok(Walked::Stored(variable, value))
        }
        Top::Popped(variable) => Ok(Walked::Stored(variable, value)),
        Top::Dropped => Ok(Walked::Went),
        Top::Doubled => {
            stack.push(value)?;
            pushed(stack, value)
        }
        Top::Returned => Ok(Walked::Returned(value)),
        Top::Tested(on, distance) => Ok(Walked::Tested(on, value, distance)),
    }
}

/// What is done with the top of the stack.
fn on_top<'p>(stack: &mut ValueList, what: Top) -> Result<Walked<'p>, AllocError>
    ensures { IfOk result (Does (top_walked what (stack_view stack.old.items)) stack.new.items) }
{
    match popped(stack) {
        Some(value) => on_value(stack, what, value),
        None => Ok(Walked::Stuck),
    }
}

/// A literal at a place is pushed.
fn pushes_literal<'p>(
    stack: &mut ValueList,
    literals: &[Literal],
    place: u8,
) -> Result<Walked<'p>, AllocError>
    ensures { IfOk result (Does (codes.on_some (option_map (λ l. literal_value l place)
        (slice_get (literals_view literals.now) place)) (λ x. codes.went (x ∷ stack_view stack.old.items)))
        stack.new.items) }
{
    match literals.get(place as usize) {
        Some(literal) => pushed(stack, literal_value(literal, place)),
        None => Ok(Walked::Stuck),
    }
}

/// What an instruction does with a stack. The numbers of its places have 8 bits, as have all that bytes say.
pub fn walk_code<'p>(
    alloc: Global,
    stack: &mut ValueList,
    held: &Held,
    literals: &'p [Literal],
    step: Instruction,
) -> Result<Walked<'p>, AllocError>
    requires { NamesShort step }
    ensures { IfOk result (Does (codes.walk_code (values_of (literals_view literals.now) (held_of held.now))
        step (stack_view stack.old.items)) stack.new.items) }
{
    match step {
        Instruction::Push(InstructionOperand::Literal(n)) => pushes_literal(
            stack,
            literals,
            byte_of(n),
        ),
        Instruction::Push(place) => pushed(stack, held.value(variable_of(place))),
        Instruction::PushConstant(constant) => pushed(stack, constant_value(constant)),
        Instruction::PushNumber(n) => pushed(stack, small_value(n)),
        Instruction::Store(place) => on_top(stack, Top::Stored(variable_of(place))),
        Instruction::PopStore(place) => on_top(stack, Top::Popped(variable_of(place))),
        Instruction::Pop => on_top(stack, Top::Dropped),
        Instruction::Duplicate => on_top(stack, Top::Doubled),
        Instruction::Send {
            arguments,
            selector,
        } => {
            sends_at(
                alloc,
                stack,
                false,
                arguments,
                selector_at(literals, selector),
            )
        }
        Instruction::SendSuper {
            arguments,
            selector,
        } => {
            sends_at(
                alloc,
                stack,
                true,
                arguments,
                selector_at(literals, selector),
            )
        }
        Instruction::SendSpecial(code) => sends_special(alloc, stack, code),
        Instruction::ReturnConstant(constant) => Ok(Walked::Returned(constant_value(constant))),
        Instruction::ReturnTop | Instruction::ReturnBlock => on_top(stack, Top::Returned),
        Instruction::Jump(distance) | Instruction::JumpPast(distance) => Ok(Walked::Ahead(
            distance,
        )),
        Instruction::JumpBack(distance) => Ok(Walked::Back(distance)),
        Instruction::JumpIf(on, distance) => on_top(stack, Top::Tested(on, distance)),
    }
}
