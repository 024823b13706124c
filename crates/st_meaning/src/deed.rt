//! Values, deeds and answers, as both a trace and a walk have them.

use st_scan::Text;

/// A variable by its number.
#[derive(Clone, Copy)]
pub enum Variable {
    /// An argument or a temporary of the method, or an argument of a block, in the order of the text.
    Temporary(u8),
    /// A variable of the receiver.
    Field(u8),
    /// What the association at a place of the literals holds.
    Shared(u8),
}

/// What is known of a value.
#[derive(Clone, Copy)]
pub enum Value {
    /// A number from -16384 to 16383.
    Number(i16),
    /// self, true, false, nil or thisContext, counted from 0.
    Constant(u8),
    /// What a variable held at the start.
    First(Variable),
    /// The literal at a place.
    Literal(u8),
    /// A block, the first one made being 0.
    Block(u32),
    /// An answer, by a number of the caller's.
    Answer(u32),
}

/// self.
pub const RECEIVER: Value = Value::Constant(0);

/// true.
pub const TRUE: Value = Value::Constant(1);

/// false.
pub const FALSE: Value = Value::Constant(2);

/// nil.
pub const NIL: Value = Value::Constant(3);

/// thisContext.
pub const CONTEXT: Value = Value::Constant(4);

/// Variables that have other values after a message, with these; of two for one variable the later counts.
pub type ChangeList = Vec<(Variable, Value)>;

/// What a message answers, and which variables have other values then. No code names a variable from 64 on, so what is
/// said of such a one is no matter.
#[derive(Drop)]
pub struct Answer {
    pub value: Value,
    pub changes: ChangeList,
}

/// The answers of the messages that are sent, in order.
pub type AnswerList = Vec<Answer>;

/// Values in order.
pub type ValueList = Vec<Value>;

/// One thing that a method does.
#[derive(Drop)]
pub enum Deed {
    /// A message, to super or not.
    Send {
        receiver: Value,
        selector: Text,
        arguments: ValueList,
        above: bool,
    },
    /// An assignment.
    Assign {
        variable: Variable,
        value: Value,
    },
    /// A block is made, the first one being 0.
    Block {
        number: u32,
    },
    /// A value is returned, from the method or from a block.
    Return {
        value: Value,
    },
    /// A form asks a value that is no boolean.
    Unsure {
        value: Value,
    },
}

/// What a method does, one deed after the other.
pub type Deeds = Vec<Deed>;
