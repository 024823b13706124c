//! The primitives that read and store objects, and that make, exchange and find them (chapter 29). What each succeeds by and
//! does is a definition of `st_model/specs/Storage.antt`, of the same name; that of 96 is in `BitBlt.antt`.
#![tactic(auto)]

mod compiled_methods;
mod copying;
mod dispatch;
mod elements;
mod fetching;
mod finding;
mod large;
mod making;
mod numbers;
mod putting;
mod replacing;
mod saying;
mod shapes;
mod space;
mod storing;
mod streams;
mod strings;

pub use dispatch::try_storage;
pub use saying::primitive_say;
