//! The trace of a method's tree.

ghost use Rattle.std.specs.Prelude.{◌≡◌, ◌++◌, None, IfOk, IfErr};
ghost use Rattle.st_scan.specs.Views.{method_view};
ghost use Rattle.st_emit.specs.inside.NameViews.{names_view, frame_view, scope_view};
ghost use Rattle.st_code.specs.Methods.{fault};
ghost use Rattle.st_meaning.specs.{inside.Deeds.{answers_view, deeds_view, Lists, IsFault}, inside.Meanings.Trace};
ghost use Rattle.st_meaning.specs.inside.Sketches.{IsSketchOf};

use crate::arena::Statements;
use crate::course::{Course, MOST};
use crate::deed::{AnswerList, Deeds};
use crate::fault::MeaningFault;
use crate::sketch::{Sketch, body};
use crate::tracing::method;
use st_emit::{Around, DeclaredNames, Names, inner_scope, places_of, sum};
use st_scan::MethodTree;
use std::alloc::{AllocError, Global};

/// A scope of the arguments and the temporaries of a method.
fn scope_of<'f>(
    alloc: Global,
    arguments: DeclaredNames<'f>,
    temporaries: DeclaredNames<'f>,
) -> Result<Vec<DeclaredNames<'f>>, AllocError>
    ensures { IfOk result (λ s.
        scope_view s.items ≡ frame_view arguments.entry ++ frame_view temporaries.entry) }
{
    let outer = inner_scope(alloc, &[], arguments)?;
    inner_scope(alloc, &outer, temporaries)
}

/// The nodes of a method, and its statements.
fn sketched<'t>(
    alloc: Global,
    tree: &'t MethodTree,
    names: &'t Names,
) -> Result<(Sketch, Statements), AllocError>
    requires { fault (method_view tree.now) (names_view names.now) ≡ None }
    ensures { IfOk result (λ r. IsSketchOf (method_view tree.now) (names_view names.now) r.0 r.1) }
{
    let first = tree.arguments.len();
    let argument_places = places_of(alloc, &tree.arguments)?;
    let arguments = DeclaredNames {
        names: &tree.arguments,
        places: &argument_places,
        first: 0,
        assignable: false,
    };
    let temporary_places = places_of(alloc, &tree.temporaries)?;
    let temporaries = DeclaredNames {
        names: &tree.temporaries,
        places: &temporary_places,
        first,
        assignable: true,
    };
    let scope = scope_of(alloc, arguments, temporaries)?;
    let around = Around {
        names,
        scope: &scope,
        next: sum(first, tree.temporaries.len())?,
    };
    let mut sketch = Sketch::new(alloc);
    let (inside, _) = body(alloc, &mut sketch, around, &tree.body)?;
    Ok((sketch, inside))
}

/// The trace of a method's tree, whose code has no fault, under the names of its class: the messages it sends, the
/// assignments, the blocks it makes and what it returns, where each message takes the next answer. It ends where the
/// method returns, or finds no boolean where one has to be, or where the answers end. A loop turns once more than it may
/// jump back, so none is cut short.
pub fn trace(
    alloc: Global,
    tree: &MethodTree,
    names: &Names,
    answers: &AnswerList,
) -> Result<Deeds, MeaningFault>
    requires { fault (method_view tree.now) (names_view names.now) ≡ None }
    ensures list { IfOk result (λ r. Lists (Trace (method_view tree.now) (names_view names.now)
        (answers_view answers.now.items)) (deeds_view r.items)) }
    ensures fault { IfErr result (IsFault (Trace (method_view tree.now) (names_view names.now)
        (answers_view answers.now.items))) }
{
    let (sketch, inside) = sketched(alloc, tree, names)?;
    let mut course = Course::before_all(alloc, tree.arguments.len(), answers)?;
    method(alloc, &mut course, &sketch.nodes, &inside, MOST + 1)?;
    Ok(course.deeds)
}
