//! Instructions, before their bytes.

ghost use Rattle.std.specs.Prelude.{◌≡◌};
ghost use Rattle.st_emit.specs.Steps.{size_of};

/// What a pseudo variable names: the receiver, true, false, nil and the active context.
#[derive(Clone, Copy)]
pub enum Constant {
    Receiver,
    True,
    False,
    Nil,
    Context,
}

/// What an instruction pushes or stores into, by its number: a variable of the receiver, a temporary, a literal, or the
/// value of an association among the literals.
#[derive(Clone, Copy)]
pub enum InstructionOperand {
    Field(usize),
    Temporary(usize),
    Literal(usize),
    Shared(usize),
}

/// An instruction. A jump says how many bytes it passes, forward or back.
#[derive(Clone, Copy)]
pub enum Instruction {
    Push(InstructionOperand),
    PushConstant(Constant),
    /// A number from -1 to 2, by one more than it.
    PushNumber(usize),
    Store(InstructionOperand),
    PopStore(InstructionOperand),
    Pop,
    Duplicate,
    /// A message whose selector is a literal.
    Send { arguments: usize, selector: usize },
    SendSuper { arguments: usize, selector: usize },
    /// A message by its own code.
    SendSpecial(u8),
    ReturnConstant(Constant),
    ReturnTop,
    /// The end of a block's body.
    ReturnBlock,
    Jump(usize),
    JumpBack(usize),
    /// Pops, and jumps on this boolean.
    JumpIf(bool, usize),
    /// Over a block's body, in two bytes always.
    JumpPast(usize),
}

/// How many bytes an instruction has.
pub fn size_of(step: Instruction) -> usize
    ensures { result ≡ size_of step }
{
    match step {
        Instruction::Push(InstructionOperand::Field(n)) => if n < 16 { 1 } else { 2 },
        Instruction::Push(InstructionOperand::Temporary(n)) => if n < 16 { 1 } else { 2 },
        Instruction::Push(InstructionOperand::Literal(n)) => if n < 32 { 1 } else { 2 },
        Instruction::Push(InstructionOperand::Shared(n)) => if n < 32 { 1 } else { 2 },
        Instruction::PopStore(InstructionOperand::Field(n)) => if n < 8 { 1 } else { 2 },
        Instruction::PopStore(InstructionOperand::Temporary(n)) => if n < 8 { 1 } else { 2 },
        Instruction::PopStore(_) => 2,
        Instruction::Store(_) => 2,
        Instruction::Send {
            arguments,
            selector,
        } => if selector < 16 && arguments <= 2 {
            1
        } else if selector < 32 && arguments <= 7 {
            2
        } else {
            3
        },
        Instruction::SendSuper {
            arguments,
            selector,
        } => if selector < 32 && arguments <= 7 {
            2
        } else {
            3
        },
        Instruction::Jump(d) | Instruction::JumpIf(false, d) => if 1 <= d && d <= 8 {
            1
        } else {
            2
        },
        Instruction::JumpBack(_) | Instruction::JumpIf(true, _) | Instruction::JumpPast(_) => 2,
        _ => 1,
    }
}
