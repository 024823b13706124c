//! Names, literals and sends as instructions.

ghost use Rattle.std.specs.Prelude.{◌≡◌, [], ◌∷◌, IfOk, OnOk};
ghost use Rattle.st_scan.specs.Views.{name_view, content_view};
ghost use Rattle.st_emit.specs.inside.Around.{context, name_part, literal_part, number_part, send_part, arguments_part};
ghost use Rattle.st_emit.specs.inside.Emits.{place_at};
ghost use Rattle.st_emit.specs.Nodes.{is_above};
ghost use Rattle.st_emit.specs.Resolving.{by_selector};
ghost use Rattle.st_emit.specs.inside.Drafts.{Adds, Resolves};

use crate::counting::sum;
use crate::draft::Draft;
use crate::form::{By, Lookup, send_step};
use crate::instruction::{Instruction, InstructionOperand};
use crate::literal::{Literal, literal_of, small_number};
use crate::names::{Around, Variable, constant_named, variable_named};
use crate::selector::special_code;
use st_scan::{Content, Name, Signed};
use std::alloc::{AllocError, Global};

/// The variable of a name. An association is named among the literals.
pub fn place_of_name(
    draft: &mut Draft,
    around: Around<'_>,
    n: &Name,
) -> Result<InstructionOperand, AllocError>
    ensures { IfOk result (Resolves (place_at around.entry n.now) draft.old draft.new) }
{
    match variable_named(around.names, around.scope, &n.text)? {
        Some(Variable::Temporary { number, .. }) => Ok(InstructionOperand::Temporary(number)),
        Some(Variable::Field(number)) => Ok(InstructionOperand::Field(number)),
        Some(Variable::Shared(association)) => {
            let place = draft.named(Literal::Named(association))?;
            Ok(InstructionOperand::Shared(place))
        }
        None => Ok(InstructionOperand::Temporary(0)),
    }
}

/// What a name means.
pub fn name(draft: &mut Draft, around: Around<'_>, n: &Name) -> Result<(), AllocError>
    ensures { OnOk result (Adds (name_part (context around.entry) (name_view n.now)) draft.old draft.new) }
{
    match constant_named(&n.text) {
        Some(constant) => draft.put_push(Instruction::PushConstant(constant)),
        None => {
            let place = place_of_name(draft, around, n)?;
            draft.put_push(Instruction::Push(place))
        }
    }
}

/// A number.
pub fn number(draft: &mut Draft, n: Signed) -> Result<(), AllocError>
    ensures { OnOk result (Adds (number_part n) draft.old draft.new) }
{
    if let Some(small) = small_number(n) {
        return draft.put_push(Instruction::PushNumber(small));
    }
    let place = draft.named(Literal::Number {
        minus: n.minus,
        size: n.size,
    })?;
    draft.put_push(Instruction::Push(InstructionOperand::Literal(place)))
}

/// A literal of a tree.
pub fn literal(alloc: Global, draft: &mut Draft, what: &Content) -> Result<(), AllocError>
    ensures { OnOk result (Adds (literal_part (content_view what.now)) draft.old draft.new) }
{
    if let Content::Number(n) = what {
        return number(draft, *n);
    }
    let literal = literal_of(alloc, what)?;
    let place = draft.named(literal)?;
    draft.put_push(Instruction::Push(InstructionOperand::Literal(place)))
}

/// How a message is sent. One to super has no code of its own.
pub fn by_selector(
    alloc: Global,
    draft: &mut Draft,
    lookup: Lookup,
    selector: &[u8],
) -> Result<By, AllocError>
    ensures { IfOk result (Resolves (by_selector (is_above lookup) selector.now) draft.old draft.new) }
{
    if matches!(lookup, Lookup::InClass) {
        if let Some(code) = special_code(selector) {
            return Ok(By::Special(code));
        }
    }
    let place = draft.named(Literal::Symbol(selector.to_vec(alloc)?))?;
    Ok(By::SelectorAt(place))
}

/// Sends a message whose receiver and arguments are on the stack.
pub fn send(
    alloc: Global,
    draft: &mut Draft,
    lookup: Lookup,
    selector: &[u8],
    arguments: usize,
) -> Result<(), AllocError>
    ensures { OnOk result (Adds (send_part (is_above lookup) selector.now arguments) draft.old draft.new) }
{
    let by = by_selector(alloc, draft, lookup, selector)?;
    draft.put_pop(send_step(lookup, by, arguments), arguments)
}

/// Pops the arguments of a block into their variables, the last first.
pub fn pop_arguments(draft: &mut Draft, first: usize, arguments: usize) -> Result<(), AllocError>
    ensures { OnOk result (Adds (arguments_part first arguments) draft.old draft.new) }
{
    let mut left = arguments;
    while left > 0 {
        left -= 1;
        let number = sum(first, left)?;
        draft.put_pop(
            Instruction::PopStore(InstructionOperand::Temporary(number)),
            1,
        )?;
    }
    Ok(())
}
