//! A call of the program, whatever its command: the words that say the command, the file that it names, read whole, the lines
//! that it says (a report, replies of a session, the last line of a status), and the status where a file, an image or a store
//! isn't there for it. Lines are added to an `Output`, from which they are said.
#![tactic(auto)]

mod arguments;
mod file;
mod image;
mod image_refusal;
mod last_line;
mod lines;
mod objects;
mod output;
mod replies;
mod report_words;
mod said;
mod state;
mod store_refusal;
mod words;

pub use file::{FileRefusal, read_file};
pub use image::read_image;
pub use image_refusal::ImageRefusal;
pub use last_line::report_status;
pub use lines::{push_line, push_long_line, push_values, push_values_line};
pub use objects::{push_object, push_objects};
pub use output::{Output, Pushed};
pub use replies::{Reply, finish, push_why, say_reply};
pub use report_words::{push_integer, push_number};
pub use said::{push_bytes, push_escaped, say_at_once};
pub use state::{push_held, push_input, push_registers, push_state, push_used};
pub use store_refusal::store_status;
pub use words::{Command, read_command};
