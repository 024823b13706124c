//! The search for a method: through the method dictionaries of a class and of its superclasses (chapter 27), and a memory
//! that remembers what searches found.
#![tactic(auto)]

mod cached;
mod class;
mod entry;
mod finding;
mod loader;
mod places;
mod reading;
mod watch;

pub use cached::Cached;
pub use class::look_up;
pub use finding::find;
pub use loader::CachedLoader;
pub use reading::Reading;
