ghost use Rattle.std.specs.Prelude.{◌≡◌};
ghost use Rattle.st_model.specs.Values.{Ref, word};
ghost use Rattle.st_model.specs.Objects.{place_of};

use crate::word::Word;

/// An object of the root page, which stays at its pointer (the known pointers of chapter 27).
#[derive(Clone, Copy)]
pub enum PageObject {
    /// nil.
    NilObject,
    /// false.
    FalseObject,
    /// true.
    TrueObject,
    /// The association whose value is the scheduler.
    SchedulerAssociation,
    /// The class SmallInteger.
    SmallIntegerClass,
    /// The class String.
    StringClass,
    /// The class Array.
    ArrayClass,
    /// The class MethodContext.
    MethodContextClass,
    /// The class BlockContext.
    BlockContextClass,
    /// The class Point.
    PointClass,
    /// The class LargePositiveInteger.
    LargeClass,
    /// The class Message.
    MessageClass,
    /// The class CompiledMethod.
    MethodClass,
    /// The class Character.
    CharacterClass,
    /// The selector doesNotUnderstand:.
    NotUnderstood,
    /// The selector cannotReturn:.
    CannotReturn,
    /// The Array of the special selectors and their numbers of arguments.
    Selectors,
    /// The Array of the characters.
    Characters,
    /// The selector mustBeBoolean.
    MustBeBoolean,
    /// The class Symbol.
    SymbolClass,
}

impl PageObject {
    /// The word that names it.
    #[tactic(auto, unfolding(crate::specs::Values::value_of))]
    pub fn word(self) -> Word
        ensures { word result ≡ Ref (place_of self) }
    {
        match self {
            PageObject::NilObject => Word(2),
            PageObject::FalseObject => Word(4),
            PageObject::TrueObject => Word(6),
            PageObject::SchedulerAssociation => Word(8),
            PageObject::SmallIntegerClass => Word(12),
            PageObject::StringClass => Word(14),
            PageObject::ArrayClass => Word(16),
            PageObject::MethodContextClass => Word(22),
            PageObject::BlockContextClass => Word(24),
            PageObject::PointClass => Word(26),
            PageObject::LargeClass => Word(28),
            PageObject::MessageClass => Word(32),
            PageObject::MethodClass => Word(34),
            PageObject::CharacterClass => Word(40),
            PageObject::NotUnderstood => Word(42),
            PageObject::CannotReturn => Word(44),
            PageObject::Selectors => Word(48),
            PageObject::Characters => Word(50),
            PageObject::MustBeBoolean => Word(52),
            PageObject::SymbolClass => Word(56),
        }
    }
}
