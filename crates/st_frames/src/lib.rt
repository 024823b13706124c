//! The registers, in a row and between bytecodes; the contexts that they are fetched from, and the stack (chapter 27). The numbers
//! that primitives take, and the answers that they push; and what lies round the machine: the input words that wait, the mouse,
//! the clocks, and what devices hold (chapter 29). What comes from outside changes it, and a memory goes on holding what it names.
#![tactic(auto)]

mod answer;
mod answering;
mod bytes;
mod coming;
mod context;
mod ending;
mod fetched;
mod fetching;
mod fields;
mod frame;
mod frame_stack;
mod holding;
mod large;
mod naming;
mod numbers;
mod reading;
mod registers;
mod stack;
mod tried;
mod words;
mod world;

pub use answer::Answer;
pub use answering::{answer_with, succeed_leaving, succeed_with};
pub use bytes::next_byte;
pub use context::{fetch_context_registers, home_of, store_context_registers, switch};
pub use ending::RowEnd;
pub use fetched::Fetched;
pub use fetching::{fetch_integer, page};
pub use frame::{Frame, Loaded};
pub use holding::{fetch, fetch_scheduled, hold, load};
pub use large::{find_bytes, number};
pub use naming::{add_signal, hold_device, signal_once, take_newest_signal};
pub use numbers::{
    bits_or_die, check_bytes, check_class, number_read, positive_small, positive_value,
    value_within,
};
pub use registers::Registers;
pub use stack::{drop_words, jump, look_at_words, pop, push, set_stack_pointer, top, under};
pub use tried::Tried;
pub use words::{small, small_integer};
pub use world::World;
