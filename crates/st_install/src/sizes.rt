//! The sizes of objects that are to be made, and the method among them.

ghost use Rattle.std.specs.Prelude.{◌≡◌, ◌∷◌, IfOk, Ok, nat_le};
ghost use Rattle.st_model.specs.{Values.value_of, Table.Table, inside.Calls.{Reads, itself}};
ghost use Rattle.st_install.specs.Plans.{There, method_object, words_of_new};
ghost use Rattle.st_install.specs.{Shapes.{most_of_one, all_fit, check_size}, inside.Rooms.AreSmall};
ghost use Rattle.st_install.specs.inside.Readies.{parts_of, object_of, objects_of};

use crate::plan::{NewObject, PlannedValue};
use st_model::{Dead, Kind, Oop};
use std::alloc::{AllocError, Global};

/// The pointer of class CompiledMethod.
const METHOD_CLASS: Oop = Oop(34);

/// The most words of an object's fields and bytes.
const MOST_BODY: usize = 65533;

/// Whether an object has at most 65535 words, its size word and its class word among them.
fn is_small(object: &NewObject) -> bool
    ensures { result ≡ nat_le (words_of_new (object_of object.now)) most_of_one }
{
    let fields = object.fields.len();
    let bytes = object.bytes.len();
    fields <= MOST_BODY && bytes / 2 + bytes % 2 <= MOST_BODY - fields
}

/// Whether none of these objects has too many words.
fn all_fit(objects: &[NewObject]) -> bool
    ensures { result ≡ all_fit (objects_of objects.now) }
{
    for object in objects {
        if !is_small(object) {
            return false;
        }
    }
    true
}

/// None of these objects has too many words.
#[tactic(auto, using(st_model::proofs::Runs::runs), unfolding(crate::specs::Shapes::check_size))]
pub(crate) fn check_size(objects: &[NewObject]) -> Result<(), Dead>
    ensures check { (t : Table) → Reads (check_size (objects_of objects.now)) itself t result }
    ensures small { IfOk result (λ u. AreSmall (objects_of objects.now)) }
{
    if !all_fit(objects) {
        return Err(Dead::Field);
    }
    Ok(())
}

/// A Method: its header, its literals and its bytes.
pub(crate) fn method_object(
    alloc: Global,
    header: u16,
    literals: &[PlannedValue],
    bytes: Vec<u8>,
) -> Result<NewObject, AllocError>
    ensures { IfOk result (λ o. object_of o
        ≡ method_object (value_of 34) (There (value_of header) ∷ parts_of literals.now) bytes.items) }
{
    let mut fields = vec![in alloc; PlannedValue::There(Oop(header))]?;
    fields.extend_from_slice(literals)?;
    Ok(NewObject {
        class: METHOD_CLASS,
        kind: Kind::Method,
        fields,
        bytes,
    })
}
