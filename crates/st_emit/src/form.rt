//! The forms of messages.

ghost use Rattle.std.specs.Prelude.{◌≡◌};
ghost use Rattle.st_emit.specs.Emitting.{passes_on, other_side, leaves_on, send_step};
ghost use Rattle.st_emit.specs.Nodes.{is_above};

use crate::instruction::{Constant, Instruction};

/// Where the method of a message is looked up first: in the class of the receiver, or for a message to super in the
/// superclass of the class whose method sends it.
#[derive(Clone, Copy)]
pub enum Lookup {
    InClass,
    InSuperclass,
}

/// How a message is sent: by a code of its own, or by the place of its selector among the literals.
#[derive(Clone, Copy)]
pub enum By {
    Special(u8),
    SelectorAt(usize),
}

/// A conditional form with one block.
#[derive(Clone, Copy)]
pub enum OneSided {
    IfTrue,
    IfFalse,
    And,
    Or,
}

/// A conditional form with two blocks: `ifTrue:ifFalse:` or `ifFalse:ifTrue:`.
#[derive(Clone, Copy)]
pub enum TwoSided {
    TrueFirst,
    FalseFirst,
}

/// `whileTrue:` or `whileFalse:`.
#[derive(Clone, Copy)]
pub enum Loop {
    WhileTrue,
    WhileFalse,
}

/// What a selector says of the form of its message.
#[derive(Clone, Copy)]
pub enum Form {
    Message,
    One(OneSided),
    Two(TwoSided),
    Repeated(Loop),
}

/// The boolean on which the block of a form is passed.
pub fn passes_on(side: OneSided) -> bool
    ensures { result ≡ passes_on side }
{
    match side {
        OneSided::IfTrue | OneSided::And => false,
        OneSided::IfFalse | OneSided::Or => true,
    }
}

/// What stands for the other block of a form.
pub fn other_side(side: OneSided) -> Constant
    ensures { result ≡ other_side side }
{
    match side {
        OneSided::IfTrue | OneSided::IfFalse => Constant::Nil,
        OneSided::And => Constant::False,
        OneSided::Or => Constant::True,
    }
}

/// The boolean on which a loop ends.
pub fn leaves_on(kind: Loop) -> bool
    ensures { result ≡ leaves_on kind }
{
    match kind {
        Loop::WhileTrue => false,
        Loop::WhileFalse => true,
    }
}

/// The instruction that sends a message.
pub fn send_step(lookup: Lookup, by: By, arguments: usize) -> Instruction
    ensures { result ≡ send_step (is_above lookup) by arguments }
{
    match (by, lookup) {
        (By::Special(code), _) => Instruction::SendSpecial(code),
        (By::SelectorAt(selector), Lookup::InClass) => Instruction::Send {
            arguments,
            selector,
        },
        (By::SelectorAt(selector), Lookup::InSuperclass) => Instruction::SendSuper {
            arguments,
            selector,
        },
    }
}
