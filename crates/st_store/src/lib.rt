//! The store: its roots file, and commits that are whole or not done after any stop.
#![tactic(auto)]

mod create;
mod fault;
mod front;
mod laws;
mod names;
mod open;
mod root;
mod steps;
mod store;

pub use create::{NewStore, clear, found};
pub use fault::{StoreFault, StorePlace};
pub use laws::one_refusal;
pub use open::open_store;
pub use root::Root;
pub use store::Store;
