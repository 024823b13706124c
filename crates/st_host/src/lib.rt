//! The outside of the machine: files by name, bytes that are said, bytes that are read in, as a machine asks for them, and the
//! runs of calls by which it asks.
#![tactic(auto)]

mod file_fault;
mod host;
mod piece;
mod reads;
mod says;
mod source;
mod writes;

pub use file_fault::FileFault;
pub use host::{Host, HostFault, SayFault};
pub use piece::Piece;
pub use reads::{file_length, read_from};
pub use says::say_all;
pub use source::{ReadFault, Source};
pub use writes::{cut_file, cut_synced, sync_file, write_bytes, write_synced};
