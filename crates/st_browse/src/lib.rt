//! What is asked of an image: an object, the display, the classes, a class's methods, a method's text or bytecodes, the senders of a
//! selector. Each is answered line by line, without memory of its own and without a change: a text from the definitions that a store
//! keeps, and all else from the memory alone. The answers are defined in `specs/Replies.antt`, `Display.antt` and `Sources.antt`.
#![tactic(auto)]

mod ask;
mod choice;
mod classes;
mod codes;
mod comparing;
mod decompiling;
mod dictionary;
mod display;
mod fields;
mod line;
mod listing;
mod methods;
mod named;
mod names;
mod places;
mod saying;
mod senders;
mod sending;
mod sought;
mod source;

pub use ask::{Ask, Side};
pub use saying::{BrowseFault, SourceFault, browse, browse_line, browse_source};
pub use sought::find_method;
