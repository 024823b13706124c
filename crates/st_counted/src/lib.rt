//! An object memory that keeps its objects as words of a heap, and a count of the references to each, with the list of the places to
//! which there are none.
#![tactic(auto)]

mod contents;
mod counting;
mod counts;
mod links;
mod loader;
mod memory;
mod roots;
mod standing;
mod tally;

ghost use Rattle.st_model.specs.Births.{births};
ghost use Rattle.st_model.specs.Table.{table};
ghost use Rattle.st_counted.specs.inside.Taking.{TakesNoneSupported, LeftSupportsItself, TakingSettles};

pub use contents::Head;
pub use loader::CountedLoader;
pub use memory::CountedMemory;
pub use roots::Roots;
pub use standing::objects_are_stored_and_counted;
pub use tally::ROOT_PAGE;

/// Where members of the kept objects that are neither a root nor referred to by a member left are taken away one after the
/// other, in any order, until there is none, what is left is the largest set that supports itself: what is taken away is in no
/// set that supports itself, and what is left at the end supports itself. Here the objects are those that are never moved.
pub fn births_settle()
    ensures taken { TakesNoneSupported births }
    ensures left { LeftSupportsItself births }
    ensures settled { TakingSettles births }
{}

/// The same law where the objects stand in a table, at the places of their pointers, as a memory of this crate shows them.
pub fn table_settles()
    ensures taken { TakesNoneSupported table }
    ensures left { LeftSupportsItself table }
    ensures settled { TakingSettles table }
{}
