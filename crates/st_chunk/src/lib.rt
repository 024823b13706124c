//! Chunk text: pieces of text that single exclamation marks end, read byte by byte, and written; and the script of a session, read
//! so: lines, and groups of methods between them.
#![tactic(auto)]

mod ask;
mod browsing;
mod buffer;
mod chunk;
mod cutting;
mod doubling;
mod heading;
mod laws;
mod line;
mod progress;
mod reader;
mod request;
mod script_laws;

pub use ask::{LentAsk, LentSide};
pub use buffer::Buffer;
pub use cutting::{Chunks, Fed};
pub use doubling::doubled;
pub use heading::{Heading, after_blanks, read_heading, trimmed, word_length};
pub use laws::{chunks_by_bytes, entries_read_back, method_read_back, whole_text};
pub use line::{is_blank, is_empty, read_number};
pub use reader::{LentDefinition, Reader};
pub use request::Request;
pub use script_laws::lines_by_bytes;
