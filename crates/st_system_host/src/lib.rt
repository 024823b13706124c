//! The outside itself, as the operating system has it: its files and output as a host, and its input as a source.
#![tactic(auto)]

mod dir;
mod guard;
mod stdin;

pub use dir::DirHost;
pub use guard::Refusal;
pub use stdin::StdinSource;
