//! The tokens of a text.

ghost use Rattle.std.specs.Prelude.{◌≡◌, ◌<◌, ◌≤◌, ◌-◌, ◌^◌, IfOk, IfErr, length};
ghost use Rattle.st_scan.specs.Fronts.{shown, front_of, IsWithin};
ghost use Rattle.st_scan.specs.inside.Scanned.{ScansTo, HasTokens, IsFaultOf};
ghost use Rattle.st_scan.specs.Scans.{AreSpans, signs};
ghost use Rattle.st_scan.specs.inside.Contexts.{context_of, is_operand_token, depth_behind};

use crate::fault::{Fault, SyntaxFault};
use crate::front::{Front, front_of};
use crate::token::{Sort, Token, TokenList};
use std::alloc::{AllocError, Global};

/// A text's tokens up to its first fault, and that fault, if there is one.
#[derive(Drop)]
pub struct Scanned {
    pub tokens: TokenList,
    pub fault: Option<Fault>,
}

/// What the tokens so far say of a `-` before a digit: whether the last one is an operand, and how many parentheses of
/// a literal array are open.
#[derive(Clone, Copy)]
struct Context {
    operand: bool,
    depth: usize,
}

impl Context {
    /// Whether a `-` may be a sign.
    fn signs(self) -> bool
        ensures { result ≡ signs (context_of self) }
    {
        !self.operand || self.depth > 0
    }
}

/// Whether a `-` behind a token that begins with this byte is an operator.
fn is_operand(sort: Sort, first: u8) -> bool
    ensures { result ≡ is_operand_token sort first }
{
    match sort {
        Sort::Keyword | Sort::Operator | Sort::Opening => false,
        Sort::Mark => first == b')' || first == b']',
        Sort::Name | Sort::Number(_) | Sort::Character(_) | Sort::Bytes | Sort::Symbol => true,
    }
}

/// How many parentheses of a literal array are open behind a token that begins with this byte.
fn depth_behind(depth: usize, sort: Sort, first: u8) -> usize
    requires { depth < 2 ^ 32 }
    ensures { result ≡ depth_behind depth sort first }
{
    match sort {
        Sort::Opening => depth + 1,
        Sort::Mark if first == b'(' && depth > 0 => depth + 1,
        Sort::Mark if first == b')' => depth.saturating_sub(1),
        _ => depth,
    }
}

/// What stands at the front of the rest of a text.
fn next(context: Context, rest: &[u8]) -> Front
    requires { 0 < length rest.now }
    ensures exact { result ≡ shown (front_of (signs (context_of context)) rest.now) }
    ensures within { IsWithin (length rest.now) result }
{
    front_of(context.signs(), rest)
}

/// The tokens of a text up to its first fault, with that fault. A text has at most 2^32 - 2 bytes.
pub fn scan(alloc: Global, text: &[u8]) -> Result<Scanned, AllocError>
    requires { length text.now ≤ 2 ^ 32 - 2 }
    ensures exact { IfOk result (λ s. ScansTo text.now s.tokens.items s.fault) }
    ensures spans { IfOk result (λ s. AreSpans 0 s.tokens.items (length text.now)) }
{
    let mut tokens = Vec::new(alloc);
    let mut context = Context {
        operand: false,
        depth: 0,
    };
    let mut at = 0;
    while at < text.len() {
        let rest = &text[at..];
        match next(context, rest) {
            Front::Gap(length) => at += length,
            Front::Token(length, sort) => {
                let end = at + length;
                tokens.push(Token {
                    start: at as u32,
                    end: end as u32,
                    sort,
                })?;
                context = Context {
                    operand: is_operand(sort, rest[0]),
                    depth: depth_behind(context.depth, sort, rest[0]),
                };
                at = end;
            }
            Front::Fault(cause) => {
                let place = at as u32 + 1;
                let fault = Some(Fault { place, cause });
                return Ok(Scanned { tokens, fault });
            }
        }
    }
    Ok(Scanned {
        tokens,
        fault: None,
    })
}

/// The tokens of a text with their spans, in order, or the scanner's first fault. A text has at most 2^32 - 2 bytes.
pub fn tokens(alloc: Global, text: &[u8]) -> Result<TokenList, SyntaxFault>
    requires { length text.now ≤ 2 ^ 32 - 2 }
    ensures tokens { IfOk result (λ tokens. HasTokens text.now tokens.items) }
    ensures spans { IfOk result (λ tokens. AreSpans 0 tokens.items (length text.now)) }
    ensures fault { IfErr result (IsFaultOf text.now) }
{
    let scanned = scan(alloc, text)?;
    match scanned.fault {
        None => Ok(scanned.tokens),
        Some(fault) => Err(SyntaxFault::from(fault)),
    }
}
