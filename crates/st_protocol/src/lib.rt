//! What a session does, as a course of deeds: what is said and what is kept, one after the other, and where that leads, or
//! the status in which the session ends. What a stop leaves while they are done, and which commits the replies acknowledge.
//! With the statuses of the program's calls, and what comes of installing a definition, and why it is refused.
#![tactic(auto)]

mod installation;
mod refusal;
mod status;

pub use installation::Installation;
pub use refusal::Refusal;
pub use status::Status;
