//! The fields of a compiled method's header, and the primitive in its extension (chapter 27).
#![tactic(auto)]

mod arguments;
mod extension;
mod fields;
mod header;

pub use arguments::method_arguments;
pub use extension::primitive;
pub use fields::{first_byte, flag, large, literals, temporaries};
pub use header::Header;
