//! The rows of bytecodes, but for executing a method (chapters 28 and 29), over any objects: pushes, stores, jumps, and primitives on
//! two SmallIntegers, which call nothing; sends, what activates a method, the number of its primitive, returns, jumps with a
//! condition, and blocks. Sends, and returns and jumps that come to send, answer what they call.
#![tactic(auto)]

mod activation;
mod arithmetic;
mod at_once;
mod blocks;
mod called;
mod finding;
mod jump;
mod jumps;
mod messages;
mod operands;
mod passing;
mod primitive;
mod receivers;
mod returns;
mod sends;
mod sent;
mod stack;
mod values;
mod wide;

pub use activation::activate;
pub use arithmetic::{answer_integers, arithmetic_number, integer_answer, integer_under, word_of};
pub use at_once::jump_at_once;
pub use blocks::{primitive_block_copy, try_blocks};
pub use called::Called;
pub use finding::find_method;
pub use jump::{long_unconditional_jump, short_unconditional_jump};
pub use jumps::jump_on;
pub use operands::{constant_value, fetch_literal_constant};
pub use primitive::method_primitive;
pub use receivers::{answer_field, equivalence, flush_cache, receiver_class};
pub use returns::return_past;
pub use sends::{not_understood, send, send_to_super, special_send};
pub use sent::Sent;
pub use stack::{
    duplicate_top, extended_push, extended_store, extended_store_and_pop, pop_stack,
    push_active_context, push_constant, push_operand, push_receiver, store_and_pop,
};
pub use values::primitive_value;
pub use wide::{large_arithmetic, shift_large};
