//! From a method's tree to its header, literals and bytes.

ghost use Rattle.std.specs.Prelude.{◌≡◌, ◌+◌, ◌*◌, ◌++◌, None, IfOk, IfErr, OnOk};
ghost use Rattle.st_scan.specs.Views.{method_view};
ghost use Rattle.st_emit.specs.inside.NameViews.{names_view};
ghost use Rattle.st_emit.specs.inside.Views.{literal_view};
ghost use Rattle.st_code.specs.Methods.{extension, primitive_fault, fault};
ghost use Rattle.st_code.specs.inside.MethodDrafts.{HasLast, IsWhole, IsWithin, header_of, IsCodeOf};
ghost use Rattle.st_code.specs.Reported.{IsFault, Reports};

use crate::bytes::{all_bytes, sends_super};
use crate::fault::CodeFault;
use crate::method::{MethodDraft, drafted, names_fault};
use crate::simple::{count_of, flag_of, simple_by};
use crate::whole::{bounds, primitive, room_bit, symbols};
use st_emit::{Draft, Literal, LiteralList, Names};
use st_scan::{MethodTree, Text};
use std::alloc::{AllocError, Global};

/// A method: its selector, header, literals and bytes. A header with flag 7 has its extension among the literals.
#[derive(Drop)]
pub struct MethodParts {
    pub selector: Text,
    pub header: u16,
    pub literals: LiteralList,
    pub bytes: Text,
}

/// The number of arguments and the primitive.
fn extension(t: &MethodTree) -> Literal
    requires { primitive_fault t.now.primitive ≡ None }
    ensures { literal_view result ≡ extension (method_view t.now) }
{
    let primitive = match t.primitive {
        Some(n) => n.size,
        None => 0,
    };
    Literal::Number {
        minus: false,
        size: t.arguments.len() as u128 * 256 + primitive,
    }
}

/// The literals that no instruction names: the extension and the association of the method's class.
fn put_last(draft: &mut Draft, t: &MethodTree, flag: u16) -> Result<(), AllocError>
    requires { primitive_fault t.now.primitive ≡ None }
    ensures literals { OnOk result (HasLast (method_view t.now) flag draft.old draft.new) }
    ensures steps { draft.new.steps.items ≡ draft.old.steps.items }
    ensures level { draft.new.level ≡ draft.old.level }
{
    if flag == 7 {
        draft.literals.put(extension(t))?;
        draft.literals.put(Literal::Owner)?;
        return Ok(());
    }
    if sends_super(&draft.steps) {
        draft.literals.put(Literal::Owner)?;
    }
    Ok(())
}

/// The code of a method, with all its literals.
fn completed(alloc: Global, t: &MethodTree, names: &Names) -> Result<MethodDraft, AllocError>
    requires { primitive_fault t.now.primitive ≡ None }
    ensures { IfOk result (IsWhole (method_view t.now) (names_view names.now)) }
{
    let mut made = drafted(alloc, t, names)?;
    let flag = flag_of(t, simple_by(&made.draft.steps));
    put_last(&mut made.draft, t, flag)?;
    Ok(made)
}

/// The header of a method within its bounds.
fn header_of(t: &MethodTree, made: &MethodDraft) -> Result<u16, AllocError>
    requires { IsWithin made.now }
    ensures { IfOk result (λ h. h ≡ header_of (method_view t.now) made.now) }
{
    let simple = simple_by(&made.draft.steps);
    let flag = flag_of(t, simple);
    let count = count_of(t, simple, made.variables);
    let room = room_bit(made)?;
    let literals = made.draft.literals.len();
    Ok(flag * 8192 + count as u16 * 256 + room + literals as u16 * 2 + 1)
}

/// The first fault of a method, or its code within the bounds.
fn faultless(alloc: Global, t: &MethodTree, names: &Names) -> Result<MethodDraft, CodeFault>
    ensures fault { Reports (fault (method_view t.now) (names_view names.now)) result }
    ensures whole { IfOk result (IsWhole (method_view t.now) (names_view names.now)) }
    ensures within { IfOk result IsWithin }
{
    names_fault(alloc, t, names)?;
    symbols(names)?;
    primitive(t.primitive)?;
    let made = completed(alloc, t, names)?;
    bounds(&made)?;
    Ok(made)
}

/// The code of a method's tree in a class with these names, or its first fault. A want of memory is no fault of the tree.
pub fn compile(alloc: Global, t: &MethodTree, names: &Names) -> Result<MethodParts, CodeFault>
    ensures parts { IfOk result (IsCodeOf (method_view t.now) (names_view names.now)) }
    ensures fault { IfErr result (IsFault (fault (method_view t.now) (names_view names.now))) }
{
    let made = faultless(alloc, t, names)?;
    let header = header_of(t, &made)?;
    let bytes = all_bytes(alloc, &made.draft.steps)?;
    let selector = t.selector.to_vec(alloc)?;
    Ok(MethodParts {
        selector,
        header,
        literals: made.draft.literals.into_list(),
        bytes,
    })
}
