//! The changes file: entries of definitions, read back exactly, and added whole or not at all; with an index of the span that was
//! noted last of each class, side of it and selector.
#![tactic(auto)]

mod appending;
mod changes;
mod condensing;
mod counting;
mod definition;
mod entry;
mod header;
mod index;
mod laws;
mod listing;
mod loading;
mod noting;
mod run;
mod selector;
mod span;
mod writing;

pub use changes::Changes;
pub use condensing::{CondenseFault, Condensed, condense};
pub use definition::Definition;
pub use laws::{condensing_keeps_last, one_damage, one_list};
pub use listing::Listing;
pub use loading::{load, read_listing};
pub use selector::find_selector;
pub use span::Span;
