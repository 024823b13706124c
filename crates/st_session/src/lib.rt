//! A session over a store: a script is followed line by line, each line and each method of a group is answered, and what is
//! accepted is in the store before it is said. And the commands of the program: `once`, which runs cycles of an image's machine
//! and says how they end and what it shows then, `import`, which makes a store of an image, `export` and `clean`, which write
//! one out of a store, `session`, `build`, which makes a store of the image that a kernel text builds, and `drill`, which runs
//! one that a number gives.
#![tactic(auto)]

mod answering;
mod browsing;
mod building;
mod command;
mod condensing;
mod debugging;
mod drilling;
mod exporting;
mod extent;
mod first_lines;
mod importing;
mod kept;
mod laws;
mod making;
mod opening_refusal;
mod reading;
mod report;
mod running;
mod saving;
mod serving;
mod starting;
mod watch;
mod watching;

pub use building::build;
pub use command::{once, session};
pub use condensing::condense;
pub use drilling::drill;
pub use exporting::export;
pub use extent::Extent;
pub use importing::import;
pub use laws::{calls_join, made_texts_have_the_code, one_opening, run_is_said, trace_is_run};
pub use reading::serve;
