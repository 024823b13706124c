//! The heap: blocks of words, each with the pointer that owns it, and the holes between them; and objects as words of it: size,
//! class and body of each are in a block of its own, which an entry of the table names.
#![tactic(auto)]

mod adding;
mod block;
mod heap;
mod holes;
mod objects;
mod store;

pub use block::Block;
pub use heap::Heap;
pub use objects::HeapObjects;
