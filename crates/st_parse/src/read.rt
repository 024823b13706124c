//! What a reader answers.

use st_grammar::leaf::Leaf;
use st_grammar::read::ReadError;

/// What was read and the leaves behind it, or the first fault.
pub type Read<'a, T> = Result<(T, &'a [Leaf]), ReadError>;
