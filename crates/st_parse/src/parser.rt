//! The tree of a method's text, or its first fault.

ghost use Rattle.std.specs.Prelude.{◌≡◌, ◌<◌, ◌≤◌, ◌-◌, ◌^◌, IfOk, IfErr, Some, length, drop};
ghost use Rattle.st_scan.specs.{Scans.AreSpans, Views.{MethodView, method_view}};
ghost use Rattle.st_grammar.specs.inside.Meant.{Means, IsFaultOf};
ghost use Rattle.st_grammar.specs.Texts.{IsOnly, bad_number, words, place_at, is_before};
ghost use Rattle.st_grammar.specs.Texts.{first_fault};

use crate::method::whole;
use st_grammar::leaf::{Kind, Leaf, leaves_of};
use st_grammar::read::ReadError;
use st_scan::{Cause, Fault, MethodTree, Scanned, Sort, SyntaxFault, Token, scan};
use std::alloc::{AllocError, Global};

/// A number with a fault, from a place on.
fn bad_number(place: u32) -> Leaf
    ensures { result ≡ bad_number place }
{
    let start = place.saturating_sub(1);
    let token = Token {
        start,
        end: start,
        sort: Sort::Bytes,
    };
    Leaf {
        kind: Kind::Number,
        token,
        place,
    }
}

/// What the grammar sees of a text: its tokens up to the scanner's fault, and the number there, if it is one.
fn words(alloc: Global, text: &[u8], scanned: &Scanned) -> Result<Vec<Leaf>, AllocError>
    requires spans { AreSpans 0 scanned.now.tokens.items (length text.now) }
    requires short { length text.now < 2 ^ 32 - 1 }
    ensures { IfOk result (λ l. l.items ≡ words text.now scanned.now.tokens.items scanned.now.fault) }
{
    let mut leaves = leaves_of(alloc, text, &scanned.tokens)?;
    if let Some(fault) = scanned.fault {
        if matches!(fault.cause, Cause::Number | Cause::Float) {
            leaves.push(bad_number(fault.place))?;
        }
    }
    Ok(leaves)
}

/// The place of the leaf that is the first of the last `left` ones.
fn place_at(text: &[u8], leaves: &[Leaf], left: usize) -> u32
    requires { length text.now < 2 ^ 32 - 1 }
    ensures { result ≡ place_at text.now (drop (length leaves.now - left) leaves.now) }
{
    let rest = &leaves[leaves.len().saturating_sub(left)..];
    match rest {
        [leaf, ..] => leaf.place,
        [] => text.len() as u32 + 1,
    }
}

/// Whether a fault comes before another one.
fn is_before(f: Fault, g: Fault) -> bool
    ensures { result ≡ is_before f g }
{
    f.place < g.place || (f.place == g.place && f.cause.number() < g.cause.number())
}

/// The first of the scanner's fault and the grammar's.
fn first_fault(scanner: Option<Fault>, grammar: Fault) -> Fault
    ensures { Some result ≡ first_fault scanner (Some grammar) }
{
    match scanner {
        Some(fault) if !is_before(grammar, fault) => fault,
        _ => grammar,
    }
}

/// The tree or the first fault.
fn tree_or_fault(alloc: Global, text: &[u8]) -> Result<MethodTree, SyntaxFault>
    requires { length text.now ≤ 2 ^ 32 - 2 }
    ensures tree { IfOk result (λ t. Means text.now (method_view t)) }
    ensures fault { IfErr result (IsFaultOf text.now) }
{
    let scanned = scan(alloc, text)?;
    let leaves = words(alloc, text, &scanned)?;
    match whole(alloc, text, &leaves) {
        Ok(tree) => match scanned.fault {
            None => Ok(tree),
            Some(fault) => Err(SyntaxFault::from(fault)),
        },
        Err(ReadError::Fault { cause, left }) => {
            let place = place_at(text, &leaves, left);
            let fault = first_fault(scanned.fault, Fault { place, cause });
            Err(SyntaxFault::from(fault))
        }
        Err(ReadError::OutOfMemory) => Err(SyntaxFault::OutOfMemory),
    }
}

/// The one tree of a method's text, or its first fault: the one at the least place, and there the one with the least
/// number. A text has at most 2^32 - 2 bytes.
pub fn parse(alloc: Global, text: &[u8]) -> Result<MethodTree, SyntaxFault>
    requires { length text.now ≤ 2 ^ 32 - 2 }
    // The tree is what the text means.
    ensures tree { IfOk result (λ t. Means text.now (method_view t)) }
    // The fault is the text's first.
    ensures fault { IfErr result (IsFaultOf text.now) }
    // A text that means a tree gives it, unless memory runs out.
    ensures only { (t : MethodView) → Means text.now t → IsOnly t result }
{
    tree_or_fault(alloc, text)
}
