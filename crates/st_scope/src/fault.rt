//! Why a definition isn't installed.

use st_model::Demand;

/// Why a definition isn't installed; nothing has changed then. `class_of_name` answers
/// `NoClass` and `NoGlobals` alone.
#[derive(Clone, Copy, Debug, PartialEq, Eq)]
pub enum InstallFault {
    /// There is no global of the class's name, or the value of the first one is no class.
    NoClass,
    /// The image names no table of globals.
    NoGlobals,
    /// The entries and words of the objects that it makes have no room beside those that are kept.
    NoRoom { demand: Demand },
    /// The class, its superclasses, their names, the dictionary, the symbol table or the characters aren't of the form that it asks.
    Shape,
    /// There was no memory.
    OutOfMemory,
}
