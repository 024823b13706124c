//! Processes and semaphores, and the primitives on them, on devices and on clocks (chapter 29). What each does is a definition of
//! `st_model/specs/Processes.antt` or `st_model/specs/Input.antt`, of the same name; two that differ in the device alone, or in what
//! is set, are one of `specs/Devices.antt`.
#![tactic(auto)]

mod clocks;
mod devices;
mod dispatch;
mod holding;
mod lists;
mod low_space;
mod mouse;
mod processes;
mod ready;
mod scheduler;
mod shapes;
mod signals;
mod switching;
mod timer;

pub use dispatch::{try_input, try_process};
pub use scheduler::scheduled_process;
pub use signals::signal;
pub use switching::{enter_process, leave_process};
