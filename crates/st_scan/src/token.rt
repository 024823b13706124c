//! The tokens of a method's text.

/// The tokens of a text, in order.
pub type TokenList = Vec<Token>;

/// A token: its bytes in the text are those from `start`, counted from 0, up to the one before `end`.
#[derive(Clone, Copy, Debug, PartialEq, Eq)]
pub struct Token {
    pub start: u32,
    pub end: u32,
    pub sort: Sort,
}

/// What a token is. `Bytes` is a string, `Opening` is `#(`, and `Mark` is every token of no other sort.
#[derive(Clone, Copy, Debug, PartialEq, Eq)]
pub enum Sort {
    Name,
    Keyword,
    Operator,
    Number(Signed),
    Character(u8),
    Bytes,
    Symbol,
    Opening,
    Mark,
}

/// A whole number: whether it has a minus sign, and its size.
#[derive(Clone, Copy, Debug, PartialEq, Eq)]
pub struct Signed {
    pub minus: bool,
    pub size: u128,
}
