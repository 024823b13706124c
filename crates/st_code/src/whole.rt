//! The bounds of a method as a whole.

ghost use Rattle.std.specs.Prelude.{◌≡◌, ◌+◌, ◌*◌, ◌≤◌, IfOk, OnOk};
ghost use Rattle.st_code.specs.Methods.{passes, symbols_fault, primitive_fault, room_bit};
ghost use Rattle.st_code.specs.inside.MethodDrafts.{bounds_of, size_with, IsWithin};
ghost use Rattle.st_code.specs.Reported.{Reports, reported};

use crate::bytes::all_reach;
use crate::fault::{Cause, CodeFault, Fault};
use crate::method::MethodDraft;
use st_emit::{Level, Names, sum};
use st_scan::Signed;
use std::alloc::AllocError;

/// The words that a small and a large context have room for.
const SMALL_ROOM: usize = 12;

const LARGE_ROOM: usize = 32;

/// Whether variables and words on the stack pass the room of a context.
fn passes(room: usize, variables: usize, depth: Level) -> Result<bool, AllocError>
    ensures { IfOk result (λ b. b ≡ passes room variables depth) }
{
    let words = sum(variables, depth.greatest)?;
    Ok(words > room || depth.blocks > room)
}

/// A fault of the method as a whole.
fn whole(cause: Cause) -> CodeFault
    ensures { result ≡ reported (record { place = 0; cause = cause }) }
{
    Fault { place: 0, cause }.into()
}

/// An image without a symbol table has no code.
pub fn symbols(names: &Names) -> Result<(), CodeFault>
    ensures { Reports (symbols_fault names.now.symbols) result }
{
    if !names.symbols {
        return Err(whole(Cause::Symbols));
    }
    Ok(())
}

/// A primitive has a number from 1 to 255.
pub fn primitive(number: Option<Signed>) -> Result<(), CodeFault>
    ensures { Reports (primitive_fault number) result }
{
    match number {
        Some(n) if n.minus || n.size < 1 || n.size > 255 => Err(whole(Cause::Primitive)),
        _ => Ok(()),
    }
}

/// How many bytes a method has, with its header and its literals.
fn bytes_within(made: &MethodDraft) -> Result<usize, AllocError>
    ensures { IfOk result (λ n. n ≡ size_with made.now) }
{
    let literals = made.draft.literals.len();
    let pointers = sum(literals, literals)?;
    sum(sum(pointers, 2)?, made.draft.size_from(0)?)
}

/// The bounds of a method, with its last literals.
pub fn bounds(made: &MethodDraft) -> Result<(), CodeFault>
    ensures fault { Reports (bounds_of made.now) result }
    ensures within { OnOk result (IsWithin made.now) }
{
    if made.draft.literals.len() > 63 {
        return Err(whole(Cause::Literals));
    }
    if made.variables > 31 {
        return Err(whole(Cause::Temporaries));
    }
    if passes(LARGE_ROOM, made.variables, made.draft.level)? {
        return Err(whole(Cause::Depth));
    }
    if !all_reach(&made.draft.steps) {
        return Err(whole(Cause::Jump));
    }
    if bytes_within(made)? > 131_066 {
        return Err(whole(Cause::Size));
    }
    Ok(())
}

/// What a header says of the room that a method needs.
pub fn room_bit(made: &MethodDraft) -> Result<u16, AllocError>
    ensures room { IfOk result (λ n. n ≡ room_bit made.now.variables made.now.draft.level) }
    ensures small { IfOk result (λ n. n ≤ 128) }
{
    if passes(SMALL_ROOM, made.variables, made.draft.level)? {
        Ok(128)
    } else {
        Ok(0)
    }
}
