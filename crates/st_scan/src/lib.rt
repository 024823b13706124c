//! The tokens and trees of methods, and the scanner: from the bytes of a method's text to its tokens.
#![tactic(auto)]

mod bytes;
mod chain;
mod fault;
mod front;
mod laws;
mod make;
mod number;
mod scanner;
mod string;
mod token;
mod tree;
mod word;

pub use chain::{Chain, Link};
pub use fault::{Cause, Fault, SyntaxFault};
pub use laws::{joined_pieces, one_scan, spaced_pieces, token_spans};
pub use scanner::{Scanned, scan, tokens};
pub use token::{Signed, Sort, Token};
pub use tree::{
    Content, Element, ElementList, Expression, ExpressionList, Message, MessageList, MethodTree,
    Name, NameList, Statement, StatementList, Text,
};
