//! Messages, taken off a stack.

ghost use Rattle.std.specs.Prelude.{◌≡◌, IfOk, option_map};
ghost use Rattle.st_meaning.specs.inside.Codes as codes;
ghost use Rattle.st_meaning.specs.inside.Courses.{stack_view, Does};
ghost use Rattle.st_meaning.specs.inside.Taken.{IsMessage};

use crate::code::Walked;
use crate::deed::{Value, ValueList};
use std::alloc::{AllocError, Global};

/// Takes the last words as arguments, and the receiver below them.
fn take_message(
    alloc: Global,
    stack: &mut ValueList,
    arguments: usize,
) -> Result<Option<(Value, ValueList)>, AllocError>
    ensures { IfOk result (λ m. IsMessage arguments stack.old.items
        (option_map (λ x. (x.0, x.1.items)) m) stack.new.items) }
{
    let words = stack.len();
    if words <= arguments {
        return Ok(None);
    }
    let taken = stack[words - arguments..].to_vec(alloc)?;
    stack.truncate(words - arguments);
    match stack.pop() {
        Some(receiver) => Ok(Some((receiver, taken))),
        None => Ok(None),
    }
}

/// A message with so many arguments, behind its receiver.
#[tactic(auto, using(crate::proofs::Stacks::message_some, crate::proofs::Stacks::message_none))]
pub fn sends<'p>(
    alloc: Global,
    stack: &mut ValueList,
    above: bool,
    arguments: usize,
    selector: &'p [u8],
) -> Result<Walked<'p>, AllocError>
    ensures { IfOk result (Does (codes.sends above arguments selector.now (stack_view stack.old.items))
        stack.new.items) }
{
    match take_message(alloc, stack, arguments)? {
        Some((receiver, arguments)) => Ok(Walked::Sent {
            receiver,
            selector,
            arguments,
            above,
        }),
        None => Ok(Walked::Stuck),
    }
}
