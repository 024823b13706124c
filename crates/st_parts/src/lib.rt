//! A compiled method read back as what it was made of: selector, header, literals and bytes, as the compiler answers them; and the
//! names that it sees.
#![tactic(auto)]

mod bodies;
mod contents;
mod cutting;
mod ending;
mod laws;
mod naming;
mod numbers;
mod owner;
mod parts;

pub use cutting::code_length;
pub use laws::{literals_have_one_name, parts_are_alike};
pub use naming::method_names;
pub use owner::Compiled;
pub use parts::parts_of;
