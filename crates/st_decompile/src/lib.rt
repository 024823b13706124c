//! The decompiler: from the header, literals and bytes of a method to a tree that has this code.
#![tactic(auto)]

mod comparing;
mod decompiler;
mod instruction;
mod laws;
mod located;
mod reading;
mod region;
mod whole;

pub use decompiler::decompile;
pub use laws::{code_is_read_back, names_call_alike};
pub use reading::Reading;
pub use st_parts::parts_of;
