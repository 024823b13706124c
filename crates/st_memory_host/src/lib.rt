//! An outside in memory, for tests: a host whose calls fail and stop where it is told to, and a source.
#![tactic(auto)]

mod log;
mod memory;
mod memory_source;
mod replay;

pub use memory::MemHost;
pub use memory_source::MemSource;
pub use replay::Leave;
