//! What an object memory promises, however it keeps its objects, and what the rows of bytecodes do with one.
#![tactic(auto)]

mod body;
mod bytes;
mod context_fields;
mod live;
mod loader;
mod made;
mod memory;
mod objects;
mod stores;
mod transfer;

pub use body::{count_fields, count_units, unit_at};
pub use bytes::copy_bytes;
pub use context_fields::ContextFields;
pub use live::live_value;
pub use loader::Loader;
pub use made::Made;
pub use memory::Memory;
pub use objects::Objects;
pub use stores::{store_live_field, transfer_live_fields};
