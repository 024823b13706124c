//! Kinds of leaves that begin parts of a text.

use st_grammar::leaf::Kind;

/// What a name is.
pub const NAMES: [Kind; 1] = [Kind::Name];

/// What a keyword is.
pub const KEYWORDS: [Kind; 3] = [Kind::Keyword, Kind::Joined, Kind::Primitive];

/// What a binary operator is.
pub const OPERATORS: [Kind; 4] = [Kind::Operator, Kind::Bar, Kind::Less, Kind::Greater];

/// What a message begins with.
pub const MESSAGE_STARTS: [Kind; 8] = [
    Kind::Keyword,
    Kind::Joined,
    Kind::Primitive,
    Kind::Operator,
    Kind::Bar,
    Kind::Less,
    Kind::Greater,
    Kind::Name,
];

/// What a statement begins with.
pub const STATEMENT_STARTS: [Kind; 7] = [
    Kind::Return,
    Kind::Opening,
    Kind::Open,
    Kind::OpenBlock,
    Kind::Number,
    Kind::Constant,
    Kind::Name,
];
