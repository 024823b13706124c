//! What a method's source means, and what its code does: lists of deeds, which are the same.
#![tactic(auto)]

mod arena;
mod code;
mod course;
mod deed;
mod fault;
mod held;
mod laws;
mod message;
mod method_trace;
mod short;
mod sketch;
mod steps;
mod tracing;
mod walking;

pub use deed::{
    Answer, AnswerList, CONTEXT, ChangeList, Deed, Deeds, FALSE, NIL, RECEIVER, TRUE, Value,
    ValueList, Variable,
};
pub use fault::MeaningFault;
pub use laws::code_means;
pub use method_trace::trace;
pub use steps::step_walks;
pub use walking::walk;
