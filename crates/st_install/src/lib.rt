//! Definitions of methods: what comes of one is that it is installed in an image, or refused with its cause (`define`).
//! `class_of_name` finds its class, `names` the names that its method sees, `ready` tells whether the method can be installed and
//! makes the plan of that, and `install` carries the plan out. `install_shows_births` is the law that joins these four over a table to
//! the same over births, and `install_gains` the one of what is found afterwards.
#![tactic(auto)]

mod defining;
mod definition_laws;
mod filling;
mod growing;
mod installing;
mod laws;
mod literals;
mod making;
mod places;
mod plan;
mod planning;
mod preparing;
mod readiness;
mod refilling;
mod room;
mod single;
mod sizes;
mod storing;
mod sure;
mod symbol_plan;
mod symbols;
mod unprepared;

pub use defining::{carry_out, define};
pub use definition_laws::special_messages;
pub use installing::install;
pub use laws::{install_gains, install_shows_births, texts_fit};
pub use plan::Ready;
pub use preparing::{Prepared, prepare};
pub use readiness::ready;
pub use st_parts::method_names;
pub use st_scope::{InstallFault, class_of_name, names};
pub use symbols::symbol_named;
pub use unprepared::Unprepared;
