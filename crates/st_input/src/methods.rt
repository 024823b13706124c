ghost use Rattle.std.specs.Prelude.{◌<◌, length, IfSome};
ghost use Rattle.st_model.specs.{Values.{value, word}, Objects.is_method, View.object_of};
ghost use Rattle.st_model.specs.{Machine.is_there, Table.table};
ghost use Rattle.st_model.specs.Deeds.{header_stored, literal_stored};
ghost use Rattle.st_input.specs.inside.Named.{NamesKind, ChangesOne};

use crate::named::object_named;
use st_memory::{Memory, live_value};
use st_model::{Oop, Word, literals};

/// The Method that a word names, where one is there.
#[tactic(auto, using(crate::proofs::Done::named_objects))]
fn method_named<M: Memory>(m: &M, named: Word) -> Option<Oop>
    ensures named { NamesKind is_method (M.view m.now).objects (word named) result }
    ensures header { IfSome result (λ o. 0 < length (object_of (M.view m.now).objects (value o)).fields) }
{
    let object = object_named(m, named)?;
    if m.kind(object).is_method() {
        Some(object)
    } else {
        None
    }
}

/// Stores another header in a Method, where it counts as many literals.
pub fn store_header<M: Memory>(m: &mut M, method: Word, header: Word)
    ensures { ChangesOne (M.view m.old) (M.view m.new) (header_stored (word header)) (word method) }
{
    let Some(target) = method_named(m, method) else {
        return;
    };
    let Some(header) = live_value(m, header) else {
        return;
    };
    if !header.is_small() {
        return;
    }
    if literals(header) == literals(m.pointer(target, 0)) {
        m.set_pointer(target, 0, header);
    }
}

/// Stores a value that is there in a literal of a Method, counted from 0.
pub fn store_literal<M: Memory>(m: &mut M, method: Word, number: u32, stored: Word)
    ensures { let known = is_there table (M.view m.old).objects (word stored) in
        ChangesOne (M.view m.old) (M.view m.new) (literal_stored number (word stored) known) (word method) }
{
    let Some(target) = method_named(m, method) else {
        return;
    };
    let Some(literal) = live_value(m, stored) else {
        return;
    };
    if number < literals(m.pointer(target, 0)) {
        m.set_pointer(target, number + 1, literal);
    }
}
