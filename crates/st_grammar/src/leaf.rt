//! Tokens as the grammar sees them.

ghost use Rattle.std.specs.Prelude.{◌≡◌, ◌<◌, ◌-◌, ◌^◌, IfOk, length};
ghost use Rattle.st_scan.specs.Scans.{AreSpans};
ghost use Rattle.st_grammar.specs.Leaves.{bytes_of, kind_of, mark_kind, operator_kind, keyword_kind, leaves_of, is_joined, kind_number};

use st_scan::{Sort, Token};
use std::alloc::{AllocError, Global};

/// What a token is to the grammar. `Joined` is a keyword directly behind a keyword, `Primitive` another one that is
/// `primitive:`, and `Constant` a character, a string or a symbol. The last ten are marks.
#[derive(Clone, Copy)]
pub enum Kind {
    Name,
    Keyword,
    Joined,
    Primitive,
    Operator,
    Bar,
    Less,
    Greater,
    Number,
    Constant,
    Opening,
    Return,
    Period,
    Semicolon,
    Colon,
    Assign,
    Open,
    Close,
    OpenBlock,
    CloseBlock,
}

impl Kind {
    /// The number of this kind, from 0 to 19.
    pub fn number(self) -> u8
        ensures { result ≡ kind_number self }
    {
        self as u8
    }
}

/// A token, its kind, and its place, counted from 1.
#[derive(Clone, Copy)]
pub struct Leaf {
    pub kind: Kind,
    pub token: Token,
    pub place: u32,
}

/// The bytes of a token.
pub fn bytes_of(text: &[u8], token: Token) -> &[u8]
    ensures { result.now ≡ bytes_of text.now token }
{
    let start = text.len().min(token.start as usize);
    let rest = &text[start..];
    let length = rest
        .len()
        .min((token.end as usize).saturating_sub(token.start as usize));
    &rest[..length]
}

/// The kind of a mark.
fn mark_kind(bytes: &[u8]) -> Kind
    ensures { result ≡ mark_kind bytes.now }
{
    match bytes {
        [b'^'] => Kind::Return,
        [b'.'] => Kind::Period,
        [b';'] => Kind::Semicolon,
        [b':'] => Kind::Colon,
        [b'('] => Kind::Open,
        [b')'] => Kind::Close,
        [b'['] => Kind::OpenBlock,
        [b']'] => Kind::CloseBlock,
        _ => Kind::Assign,
    }
}

/// The kind of an operator.
fn operator_kind(bytes: &[u8]) -> Kind
    ensures { result ≡ operator_kind bytes.now }
{
    match bytes {
        [b'|'] => Kind::Bar,
        [b'<'] => Kind::Less,
        [b'>'] => Kind::Greater,
        _ => Kind::Operator,
    }
}

/// The kind of a keyword.
fn keyword_kind(joined: bool, bytes: &[u8]) -> Kind
    ensures { result ≡ keyword_kind joined bytes.now }
{
    if joined {
        Kind::Joined
    } else if bytes == b"primitive:".as_slice() {
        Kind::Primitive
    } else {
        Kind::Keyword
    }
}

/// The kind of a token. `joined` says whether it begins where a keyword ends.
fn kind_of(text: &[u8], joined: bool, token: Token) -> Kind
    ensures { result ≡ kind_of text.now joined token }
{
    match token.sort {
        Sort::Name => Kind::Name,
        Sort::Keyword => keyword_kind(joined, bytes_of(text, token)),
        Sort::Operator => operator_kind(bytes_of(text, token)),
        Sort::Number(_) => Kind::Number,
        Sort::Character(_) | Sort::Bytes | Sort::Symbol => Kind::Constant,
        Sort::Opening => Kind::Opening,
        Sort::Mark => mark_kind(bytes_of(text, token)),
    }
}

/// Whether a token begins where this one, a keyword, ends.
fn is_joined(before: Option<Token>, token: Token) -> bool
    ensures { result ≡ is_joined before token }
{
    match before {
        Some(
            Token {
                end,
                sort: Sort::Keyword,
                ..
            },
        ) => end == token.start,
        _ => false,
    }
}

/// Tokens of a text, each with its kind and place.
pub fn leaves_of(alloc: Global, text: &[u8], tokens: &[Token]) -> Result<Vec<Leaf>, AllocError>
    requires spans { AreSpans 0 tokens.now (length text.now) }
    requires short { length text.now < 2 ^ 32 - 1 }
    ensures { IfOk result (λ leaves. leaves.items ≡ leaves_of text.now tokens.now) }
{
    let mut leaves = Vec::new(alloc);
    let mut before = None;
    for token in tokens {
        let kind = kind_of(text, is_joined(before, *token), *token);
        leaves.push(Leaf {
            kind,
            token: *token,
            place: token.start + 1,
        })?;
        before = Some(*token);
    }
    Ok(leaves)
}
