//! From the parts of a method to a tree that has this code.

ghost use Rattle.std.specs.Prelude.{◌≡◌, Some, IfOk, IfSome, IfNone, option_map};
ghost use Rattle.st_scan.specs.Views.{MethodView, method_view};
ghost use Rattle.st_print.specs.Printed.{printed};
ghost use Rattle.st_emit.specs.inside.NameViews.{names_view};
ghost use Rattle.st_code.specs.inside.MethodDrafts.{parts_view};
ghost use Rattle.st_decompile.specs.inside.Answers.{IsCandidate, IsMeant, HasCode, IsDecompiled, IsSource, IsSourceOf, IsPrintedRead};

use crate::comparing::same_parts;
use crate::whole::candidate;
use st_code::{CodeFault, MethodParts, compile};
use st_emit::Names;
use st_expression_stack::{NO_ARGUMENTS, arity, calling_of};
use st_parse::parse;
use st_print::print;
use st_scan::{MethodTree, SyntaxFault};
use std::alloc::{AllocError, Global};

/// The most bytes of a text.
const MOST_BYTES: usize = 4_294_967_294;

/// The tree that a text means, if it means one. A longer text than a text may be is want of memory.
fn meant(alloc: Global, text: &[u8]) -> Result<Option<MethodTree>, AllocError>
    ensures { IfOk result (IsMeant text.now) }
{
    if text.len() > MOST_BYTES {
        return Err(AllocError);
    }
    match parse(alloc, text) {
        Ok(tree) => Ok(Some(tree)),
        Err(SyntaxFault::OutOfMemory) => Err(AllocError),
        Err(SyntaxFault::At { .. }) => Ok(None),
    }
}

/// Whether a tree has this code.
fn has_code(
    alloc: Global,
    tree: &MethodTree,
    names: &Names,
    parts: &MethodParts,
) -> Result<bool, AllocError>
    ensures { IfOk result (HasCode (method_view tree.now) (names_view names.now) (parts_view parts.now)) }
{
    match compile(alloc, tree, names) {
        Ok(made) => Ok(same_parts(&made, parts)),
        Err(CodeFault::OutOfMemory) => Err(AllocError),
        Err(CodeFault::At { .. }) => Ok(false),
    }
}

/// What the printed text of the tree that is read means, if it has the code that was read.
fn printed_back(
    alloc: Global,
    tree: &MethodTree,
    names: &Names,
    parts: &MethodParts,
) -> Result<Option<MethodTree>, AllocError>
    requires { IsCandidate (names_view names.now) (parts_view parts.now) (Some (method_view tree.now)) }
    ensures { IfOk result (IsDecompiled (names_view names.now) (parts_view parts.now)) }
{
    let text = print(alloc, tree)?;
    let Some(back) = meant(alloc, &text)? else {
        return Ok(None);
    };
    let same = has_code(alloc, &back, names, parts)?;
    if same { Ok(Some(back)) } else { Ok(None) }
}

/// The tree that is read of a method's parts, if one is.
fn candidate_of(
    alloc: Global,
    parts: &MethodParts,
    names: &Names,
) -> Result<Option<MethodTree>, AllocError>
    ensures { IfOk result (λ m.
        IsCandidate (names_view names.now) (parts_view parts.now) (option_map method_view m)) }
{
    let variables = arity(&parts.selector)?.max(NO_ARGUMENTS);
    let calling = calling_of(alloc, names, &parts.literals, variables)?;
    candidate(alloc, &calling, parts)
}

/// A tree that some text means and that has this code in a class with these names. There is none exactly if no text has the code.
/// It takes memory.
pub fn decompile(
    alloc: Global,
    parts: &MethodParts,
    names: &Names,
) -> Result<Option<MethodTree>, AllocError>
    // Its printed text means the tree, and this has the code.
    ensures answer { IfOk result (λ d. IfSome d (λ t. IsSourceOf
        (names_view names.now) (parts_view parts.now) (printed (method_view t)) (method_view t))) }
    // It is the text of the tree that is read.
    ensures read { IfOk result (λ d. IfSome d (λ t.
        IsPrintedRead (names_view names.now) (parts_view parts.now) (printed (method_view t)))) }
    // None is missed.
    ensures complete { IfOk result (λ d. IfNone d ((t : MethodView)
        → IsSource (names_view names.now) (parts_view parts.now) t → ⊥)) }
{
    let Some(tree) = candidate_of(alloc, parts, names)? else {
        return Ok(None);
    };
    printed_back(alloc, &tree, names, parts)
}
