ghost use Rattle.std.specs.Prelude.{◌≡◌, ◌<◌, ◌≤◌};
ghost use Rattle.st_model.specs.Decoded.{decoded, operand_of, IsNumbered, IsNumberedOperand};

use crate::codes::CODES;

/// A variable or constant that a bytecode names.
#[derive(Clone, Copy)]
pub enum Operand {
    /// A field of the receiver.
    ReceiverVariable(u8),
    /// A temporary variable of the home context.
    TemporaryVariable(u8),
    /// A literal of the method.
    LiteralConstant(u8),
    /// The value of an association among the literals of the method.
    LiteralVariable(u8),
}

/// A constant that a bytecode pushes.
#[derive(Clone, Copy)]
pub enum Constant {
    /// true.
    True,
    /// false.
    False,
    /// nil.
    Nil,
    /// The SmallInteger -1.
    MinusOne,
    /// The SmallInteger 0.
    Zero,
    /// The SmallInteger 1.
    One,
    /// The SmallInteger 2.
    Two,
}

/// A bytecode, by its first byte: one variant for each group of rows of the book's table (chapter 28).
#[derive(Clone, Copy)]
pub enum Bytecode {
    /// Pushes what the operand names (0 to 95).
    Push(Operand),
    /// Pops into what the operand names (96 to 111).
    StoreAndPop(Operand),
    /// Pushes the receiver (112).
    PushReceiver,
    /// Pushes a constant (113 to 119).
    PushConstant(Constant),
    /// Returns the receiver to the sender (120).
    ReturnReceiver,
    /// Returns a constant to the sender (121 to 123).
    ReturnConstant(Constant),
    /// Pops, and returns the word to the sender (124).
    ReturnTopToSender,
    /// Pops, and returns the word to the caller (125).
    ReturnTopToCaller,
    /// A code that is never used (126, 127, 138 to 143).
    Unused,
    /// Pushes what the next byte names (128).
    ExtendedPush,
    /// Stores the top in what the next byte names (129).
    ExtendedStore,
    /// Pops into what the next byte names (130).
    ExtendedStoreAndPop,
    /// Sends the literal that the next byte names, with as many arguments as it says (131).
    ExtendedSend,
    /// Sends the literal of the second byte with as many arguments as the first says (132).
    DoubleExtendedSend,
    /// As 131, to super (133).
    ExtendedSuperSend,
    /// As 132, to super (134).
    DoubleExtendedSuperSend,
    /// Pops (135).
    PopStack,
    /// Pushes the top again (136).
    DuplicateTop,
    /// Pushes the active context (137).
    PushActiveContext,
    /// Jumps by this number plus 1 (144 to 151).
    ShortUnconditionalJump(u8),
    /// Pops, and jumps on false by this number plus 1 (152 to 159).
    ShortJumpOnFalse(u8),
    /// Jumps by this number less 4, times 256, plus the next byte (160 to 167).
    LongUnconditionalJump(u8),
    /// Pops, and jumps on true by this number times 256 plus the next byte (168 to 171).
    LongJumpOnTrue(u8),
    /// Pops, and jumps on false by this number times 256 plus the next byte (172 to 175).
    LongJumpOnFalse(u8),
    /// Sends the special selector of this number, for which arithmetic on SmallIntegers is tried first (176 to 191).
    ArithmeticSend(u8),
    /// Sends the special selector of this number (192 to 197, 203 to 207).
    SpecialSend(u8),
    /// Sends the special selector of this number, for which a primitive is tried first (198 to 202).
    PrimitiveSend(u8),
    /// Sends a literal with 0, 1 or 2 arguments (208 to 255).
    LiteralSend { literal: u8, arguments: u8 },
}

/// What the byte after an extended code names.
pub fn extended_operand(byte: u8) -> Operand
    ensures operand { result ≡ operand_of byte }
    ensures numbered { IsNumberedOperand result }
{
    let number = byte % 64;
    match byte / 64 {
        0 => Operand::ReceiverVariable(number),
        1 => Operand::TemporaryVariable(number),
        2 => Operand::LiteralConstant(number),
        3.. => Operand::LiteralVariable(number),
    }
}

/// What the first byte of a bytecode means.
#[inline(always)]
pub fn decode(byte: u8) -> Bytecode
    ensures code { result ≡ decoded byte }
    ensures numbered { IsNumbered result }
{
    CODES[byte as usize]
}
