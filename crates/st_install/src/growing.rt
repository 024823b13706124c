//! How a method dictionary grows for a selector (chapter 27).

ghost use Rattle.std.specs.Prelude.{◌≡◌, ◌<◌, ◌∷◌, length, replicate, IfOk};
ghost use Rattle.st_model.specs.{Values.value, Table.table, inside.Calls.{Reads, itself}};
ghost use Rattle.st_install.specs.Plans.{There};
ghost use Rattle.st_install.specs.Dictionaries.{count_vacant, is_nearly_full, grows_for, grown_objects};
ghost use Rattle.st_install.specs.{inside.Readies.{part_of, parts_of}, inside.Naming.nil, inside.Growing.{objects_in, Grows}};
ghost use Rattle.st_scope.specs.inside.Findings.{Finds};

use crate::places::{DictionaryPlace, count_places, seek};
use crate::plan::{NewObject, PlannedValue};
use crate::single::{ARRAY_CLASS, pointers_object};
use st_memory::Memory;
use st_model::{Dead, Oop};
use st_scope::{Unread, class_of, fetch_field};
use std::alloc::{AllocError, Global};

/// How many of so many places hold nil.
fn count_vacant<M: Memory>(m: &M, dictionary: Oop, places: u32) -> Result<u32, Dead>
    requires { places < 262144 }
    ensures { let t = (M.view m.now).objects in
        Reads (count_vacant table (value dictionary) 0 places) itself t result }
{
    let mut vacant = 0;
    for k in 0..places {
        vacant += u32::from(fetch_field(m, dictionary, 2 + k)?.0 == 2);
    }
    Ok(vacant)
}

/// Whether with one selector more no place would hold nil.
#[tactic(auto, using(st_model::proofs::Runs::runs), unfolding(crate::specs::Dictionaries::is_nearly_full))]
fn is_nearly_full<M: Memory>(m: &M, dictionary: Oop) -> Result<bool, Dead>
    ensures { Reads (is_nearly_full table (value dictionary)) itself (M.view m.now).objects result }
{
    let places = count_places(m, dictionary)?;
    let vacant = count_vacant(m, dictionary, places)?;
    Ok(vacant <= 1)
}

/// Whether a dictionary grows for a selector: where that is added to it and would leave no place of nil.
#[tactic(auto, using(st_model::proofs::Runs::runs), unfolding(crate::specs::Dictionaries::grows_for, crate::specs::Dictionaries::place_of_selector, crate::specs::Dictionaries::grows_at))]
pub(crate) fn grows_for<M: Memory>(
    m: &M,
    dictionary: Oop,
    selector: PlannedValue,
) -> Result<bool, Dead>
    ensures { let t = (M.view m.now).objects in
        Reads (grows_for table (value dictionary) (part_of selector)) itself t result }
{
    let PlannedValue::There(selector) = selector else {
        return is_nearly_full(m, dictionary);
    };
    match seek(m, dictionary, selector, selector)? {
        Some(DictionaryPlace::Holds(_)) => Ok(false),
        Some(DictionaryPlace::Vacant(_)) | None => is_nearly_full(m, dictionary),
    }
}

/// The fields of a dictionary with so many places, all of nil.
#[tactic(auto, using(crate::proofs::Growth::parts))]
fn dictionary_fields(
    alloc: Global,
    tally: Oop,
    methods: PlannedValue,
    places: u32,
) -> Result<Vec<PlannedValue>, AllocError>
    ensures { IfOk result (λ fields. parts_of fields.items
        ≡ There (value tally) ∷ part_of methods ∷ replicate places (There nil)) }
{
    let mut fields = vec![in alloc; PlannedValue::There(tally), methods]?;
    let vacant = vacant_parts(alloc, places)?;
    fields.extend_from_slice(&vacant)?;
    Ok(fields)
}

/// So many parts of nil.
#[tactic(auto, using(crate::proofs::Growth::parts))]
fn vacant_parts(alloc: Global, count: u32) -> Result<Vec<PlannedValue>, AllocError>
    ensures { IfOk result (λ parts. parts_of parts.items ≡ replicate count (There nil)) }
{
    vec![in alloc; PlannedValue::There(Oop::NIL); count as usize]
}

/// A dictionary of the same class with the same tally and twice the places, which is object number `next`, and its Array.
#[tactic(auto, using(st_model::proofs::Runs::runs), unfolding(crate::specs::Dictionaries::grown_objects))]
fn grown_objects<M: Memory>(
    alloc: Global,
    m: &M,
    dictionary: Oop,
    next: u32,
) -> Result<Vec<NewObject>, Unread>
    requires { next < 4294967295 }
    ensures count { IfOk result (λ os. length os.items ≡ 2) }
    ensures tells { let t = (M.view m.now).objects in
        Finds (grown_objects table (value dictionary) next) objects_in t result }
{
    let class = class_of(m, dictionary)?;
    let tally = fetch_field(m, dictionary, 0)?;
    let places = count_places(m, dictionary)?;
    let fields = dictionary_fields(alloc, tally, PlannedValue::Made(next + 1), 2 * places)?;
    let methods = vacant_parts(alloc, 2 * places)?;
    let mut objects = Vec::new(alloc);
    objects.push(pointers_object(alloc, class, fields))?;
    objects.push(pointers_object(alloc, ARRAY_CLASS, methods))?;
    Ok(objects)
}

/// What is made where a dictionary grows for a selector: the dictionary of this number, and its Array; else nothing.
pub(crate) fn grown_for<M: Memory>(
    alloc: Global,
    m: &M,
    dictionary: Oop,
    selector: PlannedValue,
    next: u32,
) -> Result<Vec<NewObject>, Unread>
    requires { next < 4294967295 }
    ensures { Grows (value dictionary) (part_of selector) next (M.view m.now).objects result }
{
    if grows_for(m, dictionary, selector)? {
        grown_objects(alloc, m, dictionary, next)
    } else {
        Ok(Vec::new(alloc))
    }
}
