//! Instructions of a method's tree: what its names mean, which messages have a form of their own, its literals in the
//! order in which its code names them, and how many words the code has on the stack.
#![tactic(auto)]

mod counting;
mod declared_names;
mod draft;
mod emit;
mod form;
mod instruction;
mod laws;
mod level;
mod literal;
mod literal_table;
mod names;
mod selector;
mod shape;
mod table;
mod value;

pub use counting::{names_in_statements, sum};
pub use declared_names::{DeclaredNames, NamePlaces, places_of};
pub use draft::Draft;
pub use emit::{by_selector, place_of_name};
pub use form::{By, Form, Lookup, Loop, OneSided, TwoSided};
pub use instruction::{Constant, Instruction, InstructionOperand, size_of};
pub use laws::{sizes_of_bytes, special_arguments};
pub use level::Level;
pub use literal::{Literal, LiteralList, literal_of, small_number};
pub use literal_table::LiteralTable;
pub use names::{
    Around, NamedOops, Names, TextList, Variable, constant_named, inner_scope, is_among,
    is_declared, variable_named,
};
pub use selector::{SPECIAL_SENDS, special_selector};
pub use shape::{Choice, Repetition, Shape, Side, first_repetition, only_message, shape_of};
pub use value::{lookup_behind, method_body, value as emit_value};
