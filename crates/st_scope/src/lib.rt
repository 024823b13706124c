//! What a definition is read with of an image: `class_of_name` finds its class, and `names` the names that its method sees. They are
//! defined in `specs/Calls.antt`. The steps that they are made of serve `st_install` too.
#![tactic(auto)]

mod arrays;
mod chains;
mod classes;
mod fault;
mod fields;
mod lineage;
mod mentions;
mod naming;
mod pools;
mod reading;
mod shapes;
mod sharing;
mod sought;
mod tables;
mod unread;

pub use classes::{class_association, class_of_name};
pub use fault::InstallFault;
pub use naming::names;
pub use reading::{class_of, count_fields, fetch_field, is_text};
pub use tables::member_named;
pub use unread::Unread;
