ghost use Rattle.std.specs.Prelude.{◌≡◌};
ghost use Rattle.st_model.specs.PrimitiveTable.{row_of, primitive_of, IsNumberedRow, IsNumberedIfAny};

use crate::primitives::PRIMITIVES;

/// A primitive that reads, stores, makes, exchanges, finds or counts objects (chapter 29).
#[derive(Clone, Copy)]
pub enum StoragePrimitive {
    /// primitiveAt (60).
    At,
    /// primitiveAtPut (61).
    AtPut,
    /// primitiveSize (62).
    Size,
    /// primitiveStringAt (63).
    StringAt,
    /// primitiveStringAtPut (64).
    StringAtPut,
    /// primitiveNext (65).
    Next,
    /// primitiveNextPut (66).
    NextPut,
    /// primitiveAtEnd (67).
    AtEnd,
    /// primitiveObjectAt (68).
    ObjectAt,
    /// primitiveObjectAtPut (69).
    ObjectAtPut,
    /// primitiveNew (70).
    New,
    /// primitiveNewWithArg (71).
    NewWith,
    /// primitiveBecome (72).
    Become,
    /// primitiveInstVarAt (73).
    InstanceVariableAt,
    /// primitiveInstVarAtPut (74).
    InstanceVariableAtPut,
    /// primitiveAsOop (75).
    AsOop,
    /// primitiveAsObject (76).
    AsObject,
    /// primitiveSomeInstance (77).
    SomeInstance,
    /// primitiveNextInstance (78).
    NextInstance,
    /// primitiveNewMethod (79).
    NewMethod,
    /// primitiveCopyBits (96).
    CopyBits,
    /// primitiveStringReplace (105).
    Replace,
    /// primitiveCoreLeft (112).
    CoreLeft,
    /// primitiveOopsLeft (115).
    OopsLeft,
}

/// A primitive on blocks (chapter 29).
#[derive(Clone, Copy)]
pub enum BlockPrimitive {
    /// primitiveBlockCopy (80).
    BlockCopy,
    /// primitiveValue (81).
    Value,
    /// primitiveValueWithArgs (82).
    ValueWith,
}

/// A primitive on processes (chapter 29).
#[derive(Clone, Copy)]
pub enum ProcessPrimitive {
    /// primitiveSignal (85).
    Signal,
    /// primitiveWait (86).
    Wait,
    /// primitiveResume (87).
    Resume,
    /// primitiveSuspend (88).
    Suspend,
}

/// A primitive on the input and output devices or the clocks (chapter 29).
#[derive(Clone, Copy)]
pub enum InputPrimitive {
    /// primitiveMousePoint (90).
    MousePoint,
    /// primitiveCursorLocPut (91).
    MoveMouse,
    /// primitiveCursorLink (92).
    LinkCursor,
    /// primitiveInputSemaphore (93).
    InputSemaphore,
    /// primitiveSampleInterval (94).
    SampleInterval,
    /// primitiveInputWord (95).
    InputWord,
    /// primitiveTimeWordsInto (98).
    SecondClock,
    /// primitiveTickWordsInto (99).
    MillisecondClock,
    /// primitiveSignalAtTick (100).
    Timer,
    /// primitiveBeCursor (101).
    BeCursor,
    /// primitiveBeDisplay (102).
    BeDisplay,
    /// primitiveSignalAtOopsLeftWordsLeft (116).
    LowSpace,
}

/// A primitive (chapter 29), with the book's name of each.
#[derive(Clone, Copy)]
pub enum Primitive {
    /// One of 1 to 18, on two SmallIntegers, by its number.
    Arithmetic(u8),
    /// One of 21 to 36, on two integers from 0 up, by its number.
    LargeArithmetic(u8),
    /// The shift of an integer from 0 up (37).
    LargeBitShift,
    /// One on objects.
    Storage(StoragePrimitive),
    /// One on blocks.
    Blocks(BlockPrimitive),
    /// primitivePerform (83).
    Perform,
    /// primitivePerformWithArgs (84).
    PerformWith,
    /// One on processes.
    Processes(ProcessPrimitive),
    /// primitiveFlushCache (89).
    FlushCache,
    /// One on devices or clocks.
    Input(InputPrimitive),
    /// primitiveSnapshot (97).
    Snapshot,
    /// primitiveEquivalent (110).
    Equivalent,
    /// primitiveClass (111).
    Class,
    /// primitiveQuit (113).
    Quit,
    /// primitiveExitToDebugger (114).
    ExitToDebugger,
    /// The bytes of the receiver are printed (128); the book has no name for it.
    Say,
}

/// What the table of primitives has for a number.
#[derive(Clone, Copy)]
pub enum PrimitiveRow {
    /// No primitive, which always fails.
    Unassigned,
    /// A primitive with so many arguments, which fails with any other number of them.
    Exactly(u8, Primitive),
    /// A primitive with so many arguments or more.
    AtLeast(u8, Primitive),
}

/// The row of the primitive of this number.
#[inline(always)]
fn row_of(number: u32) -> PrimitiveRow
    ensures row { result ≡ row_of number }
    ensures numbered { IsNumberedRow result }
{
    if number < 129 {
        PRIMITIVES[number as usize]
    } else {
        PrimitiveRow::Unassigned
    }
}

/// The primitive of this number, from 0 to 255, if it takes so many arguments.
#[inline(always)]
#[tactic(auto, using(std::proofs::lemmas::Bool::Decides::nat_tests), unfolding(crate::specs::PrimitiveTable::primitive_of, crate::specs::PrimitiveTable::with_arguments))]
pub fn primitive_of(number: u32, arguments: u32) -> Option<Primitive>
    ensures primitive { result ≡ primitive_of number arguments }
    ensures numbered { IsNumberedIfAny result }
{
    match row_of(number) {
        PrimitiveRow::Exactly(n, primitive) if arguments == u32::from(n) => Some(primitive),
        PrimitiveRow::AtLeast(n, primitive) if u32::from(n) <= arguments => Some(primitive),
        _ => None,
    }
}
