//! Methods: their names, and their code as it is made.

ghost use Rattle.std.specs.Prelude.{◌≡◌, ◌++◌, IfOk};
ghost use Rattle.st_scan.specs.Views.{method_view, names_view as list_view};
ghost use Rattle.st_emit.specs.inside.NameViews.{names_view, frame_view, scope_view};
ghost use Rattle.st_code.specs.Faults.{declare_fault, method_fault};
ghost use Rattle.st_code.specs.inside.MethodDrafts.{IsBody};
ghost use Rattle.st_code.specs.Reported.{Reports};

use crate::checking::{declare, statements};
use crate::fault::CodeFault;
use st_emit::{Around, DeclaredNames, Draft, Names, inner_scope, method_body, places_of, sum};
use st_scan::MethodTree;
use std::alloc::{AllocError, Global};

/// A method's code as it is made, and how many variables the method and its blocks have.
#[derive(Drop)]
pub struct MethodDraft {
    pub draft: Draft,
    pub variables: usize,
}

/// A scope of the arguments and the temporaries of a method.
fn scope_of<'f>(
    alloc: Global,
    arguments: DeclaredNames<'f>,
    temporaries: DeclaredNames<'f>,
) -> Result<Vec<DeclaredNames<'f>>, AllocError>
    ensures { IfOk result (λ s.
        scope_view s.items ≡ frame_view arguments.entry ++ frame_view temporaries.entry) }
{
    let outer = inner_scope(alloc, &[], arguments)?;
    inner_scope(alloc, &outer, temporaries)
}

/// The temporaries of a method, which are declared behind its arguments.
fn declare_behind<'f>(
    alloc: Global,
    arguments: DeclaredNames<'f>,
    temporaries: DeclaredNames<'f>,
) -> Result<(), CodeFault>
    ensures { Reports
        (declare_fault 0 (list_view temporaries.entry.names.now) (frame_view arguments.entry)) result }
{
    let outer = inner_scope(alloc, &[], arguments)?;
    declare(&outer, temporaries)
}

/// The names and numbers of a method: its arguments, its temporaries, its statements.
#[tactic(auto, using(crate::proofs::Reporting::reporting))]
pub fn names_fault<'t>(alloc: Global, t: &'t MethodTree, names: &'t Names) -> Result<(), CodeFault>
    ensures { Reports (method_fault (names_view names.now) (method_view t.now)) result }
{
    let argument_places = places_of(alloc, &t.arguments)?;
    let arguments = DeclaredNames {
        names: &t.arguments,
        places: &argument_places,
        first: 0,
        assignable: false,
    };
    declare(&[], arguments)?;
    let temporary_places = places_of(alloc, &t.temporaries)?;
    let temporaries = DeclaredNames {
        names: &t.temporaries,
        places: &temporary_places,
        first: 0,
        assignable: true,
    };
    declare_behind(alloc, arguments, temporaries)?;
    let scope = scope_of(alloc, arguments, temporaries)?;
    let around = Around {
        names,
        scope: &scope,
        next: 0,
    };
    statements(alloc, around, &t.body)
}

/// The code of a method's body.
pub fn drafted<'t>(
    alloc: Global,
    t: &'t MethodTree,
    names: &'t Names,
) -> Result<MethodDraft, AllocError>
    ensures { IfOk result (IsBody (method_view t.now) (names_view names.now)) }
{
    let first = t.arguments.len();
    let argument_places = places_of(alloc, &t.arguments)?;
    let arguments = DeclaredNames {
        names: &t.arguments,
        places: &argument_places,
        first: 0,
        assignable: false,
    };
    let temporary_places = places_of(alloc, &t.temporaries)?;
    let temporaries = DeclaredNames {
        names: &t.temporaries,
        places: &temporary_places,
        first,
        assignable: true,
    };
    let scope = scope_of(alloc, arguments, temporaries)?;
    let around = Around {
        names,
        scope: &scope,
        next: sum(first, t.temporaries.len())?,
    };
    let mut draft = Draft::new(alloc);
    let variables = method_body(alloc, &mut draft, around, &t.body)?;
    Ok(MethodDraft { draft, variables })
}
