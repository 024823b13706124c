//! A session between two requests.

use st_machine::Machine;
use st_memory::Memory;
use st_recover::Archive;

/// The machine of a session, and what the session keeps.
#[derive(Drop)]
pub(crate) struct SessionState<M: Memory> {
    pub(crate) machine: Machine<M>,
    pub(crate) archive: Archive,
}
