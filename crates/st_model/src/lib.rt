//! The definitions of the machine: values and objects, the object memory over births and over a
//! table, the registers, the bytecodes, cycles and runs, the image, and the text of the report.
//!
//! The book is Goldberg and Robson, "Smalltalk-80: The Language and its Implementation" (1983).
#![tactic(auto)]

ghost use Rattle.std.specs.Prelude.{◌≡◌};
ghost use Rattle.st_model.specs.Values.{Ref, value, word};
ghost use Rattle.st_model.specs.Objects.{NilObject, FalseObject, TrueObject, SmallIntegerClass, place_of};

mod bytecode;
mod call;
mod codes;
mod dead;
mod deed;
mod demand;
mod device;
mod event;
mod fault;
mod head;
mod header;
mod integers;
mod kind;
mod limits;
mod oop;
mod outcome;
mod page;
mod place;
mod primitive;
mod primitives;
mod word;

pub use bytecode::{Bytecode, Constant, Operand, decode, extended_operand};
pub use call::Call;
pub use dead::Dead;
pub use deed::Deed;
pub use demand::Demand;
pub use device::Device;
pub use event::{Event, InputFull};
pub use fault::ImageFault;
pub use head::ImageHead;
pub use header::literals;
pub use integers::{IntAnswer, LargeAnswer};
pub use kind::Kind;
pub use limits::{LONGEST_IMAGE, MOST_WORDS};
pub use oop::Oop;
pub use outcome::Outcome;
pub use page::PageObject;
pub use place::RootPlace;
pub use primitive::{
    BlockPrimitive, InputPrimitive, Primitive, ProcessPrimitive, StoragePrimitive, primitive_of,
};
pub use word::Word;

/// The pointers of nil, false and true, and the words of nil and SmallInteger, are those of the root page.
#[tactic(auto, unfolding(crate::specs::Values::value_of))]
pub fn constants_are_of_the_page()
    ensures nil { value Oop.NIL ≡ Ref (place_of NilObject) }
    ensures no { value Oop.FALSE ≡ Ref (place_of FalseObject) }
    ensures yes { value Oop.TRUE ≡ Ref (place_of TrueObject) }
    ensures word { word Word.NIL ≡ Ref (place_of NilObject) }
    ensures class { word Word.SMALL_INTEGER ≡ Ref (place_of SmallIntegerClass) }
{}
