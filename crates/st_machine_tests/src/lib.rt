//! Tests of both memories, alone and beside each other, of the heap below one, of a memory that remembers what searches found,
//! and of images, drafts, events and machines over them. No crate uses it.
#![tactic(auto)]

#[cfg(test)]
mod cached;
#[cfg(test)]
mod calls;
#[cfg(test)]
mod draft;
#[cfg(test)]
mod events;
#[cfg(test)]
mod heap;
#[cfg(test)]
mod image;
#[cfg(test)]
mod machines;
#[cfg(test)]
mod memories;
#[cfg(test)]
mod near;
#[cfg(test)]
mod reads;
#[cfg(test)]
mod registers;
#[cfg(test)]
mod rows;
#[cfg(test)]
mod searches;
#[cfg(test)]
mod side_by_side;
