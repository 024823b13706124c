//! Making a store of a memory, opening it again with its definitions replayed, and what a session keeps in it.
#![tactic(auto)]

mod archive;
mod creating;
mod fault;
mod laws;
mod opened;
mod reopening;
mod replay;

pub use archive::Archive;
pub use creating::create;
pub use fault::OpenFault;
pub use laws::{condensing_keeps, one_commit, opened_reopens, opening_keeps};
pub use opened::{Lost, LostList, Opened};
pub use reopening::reopen;
