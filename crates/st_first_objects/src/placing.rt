// The placing of objects.
ghost use Rattle.std.specs.Prelude.{◌≡◌, ◌*◌, ◌/◌, ◌<◌, ◌≤◌, [], length};
ghost use Rattle.st_model.specs.{declared.oop.Oop.Oop, Values.{value, Ref}};
ghost use Rattle.st_first_objects.specs.Contents.{Fields, Bytes};
ghost use Rattle.st_first_objects.specs.Pointers.{place, place_in, value_in, object_by, object_in};
ghost use Rattle.st_first_objects.specs.inside.Placing.{Puts, CanPlace};
ghost use Rattle.st_first_objects.specs.inside.Views.{thing_of, field_of, fields_of, content_of};

use crate::content::{Body, Content, Field};
use crate::plan::FirstObjects;
use crate::thing::Thing;
use st_memory::Loader;
use st_model::{Kind, Oop};

/// Half of each pointer of the root page, and of the even ones between them.
const FIRST_PLACES: [u16; 28] = [
    1, 2, 3, 4, 6, 7, 8, 11, 12, 13, 14, 16, 17, 20, 21, 22, 24, 25, 26, 28, 5, 9, 10, 15, 18, 19,
    23, 27,
];

const NIL: Oop = Oop(2);

/// Half of the pointer of the object that is made as this one, counted from 0.
#[tactic(auto, using(crate::proofs::Places::place_first, crate::proofs::Places::place_later))]
fn place(i: usize) -> u16
    requires { i < 32767 }
    ensures is { result ≡ place i }
    ensures least { 0 < result }
    ensures most { result < 32768 }
{
    if i < FIRST_PLACES.len() {
        FIRST_PLACES[i]
    } else {
        (i + 1) as u16
    }
}

/// The pointer of the object that is made as this one, counted from 0.

pub(crate) fn pointer_at(i: usize) -> Oop
    requires { i < 32767 }
    ensures value { value result ≡ Ref (place i) }
    ensures half { result.0 ≡ 2 * place i }
{
    Oop(2 * place(i))
}

/// The pointer of a thing, or nil's.
pub(crate) fn pointer<'a>(plan: &FirstObjects<'a>, thing: &Thing<'a>) -> Oop
    requires { length plan.now.order.things ≤ 32767 }
    ensures value { value result ≡ Ref (place_in plan.now.order.things (thing_of thing.now)) }
    ensures half { result.0 ≡ 2 * place_in plan.now.order.things (thing_of thing.now) }
{
    match plan.position(thing) {
        Some(i) => pointer_at(i),
        None => NIL,
    }
}

/// What a field holds.
fn word<'a>(plan: &FirstObjects<'a>, field: &Field<'a>) -> Oop
    requires { length plan.now.order.things ≤ 32767 }
    ensures { value result ≡ value_in plan.now.order.things (field_of field.now) }
{
    match field {
        Field::Empty => NIL,
        Field::Number(number) => Oop((2 * (*number % 32768) + 1) as u16),
        Field::To(thing) => pointer(plan, thing),
    }
}

/// Places an object with fields.
fn place_fields<'a, L: Loader>(
    loader: &mut L,
    plan: &FirstObjects<'a>,
    at: Oop,
    class: Oop,
    fields: &[Field<'a>],
)
    requires few { length plan.now.order.things ≤ 32767 }
    requires can { CanPlace (L.loaded loader.old) at class (at.0 / 2)
        (object_by plan.now.order.things (class.0 / 2) (Fields (fields_of fields.now))) }
    ensures { Puts (L.loaded loader.old) (L.loaded loader.new) (at.0 / 2)
        (object_by plan.now.order.things (class.0 / 2) (Fields (fields_of fields.now))) }
{
    loader.place(at, class, Kind::Pointers, fields.len() as u32, 0);
    for (i, field) in fields.iter().enumerate() {
        loader.set_pointer(at, i as u32, word(plan, field));
    }
}

/// Places an object with bytes.
fn place_bytes<L: Loader>(loader: &mut L, at: Oop, class: Oop, bytes: &[u8])
    requires can { CanPlace (L.loaded loader.old) at class (at.0 / 2)
        (object_by [] (class.0 / 2) (Bytes bytes.now)) }
    ensures { Puts (L.loaded loader.old) (L.loaded loader.new) (at.0 / 2)
        (object_by [] (class.0 / 2) (Bytes bytes.now)) }
{
    loader.place(at, class, Kind::Bytes, bytes.len() as u32, 0);
    for (i, byte) in bytes.iter().enumerate() {
        loader.set_byte(at, i as u32, *byte);
    }
}

/// Places an object.
pub(crate) fn place_content<'a, L: Loader>(
    loader: &mut L,
    plan: &FirstObjects<'a>,
    at: Oop,
    content: &Content<'a>,
)
    requires few { length plan.now.order.things ≤ 32767 }
    requires can { (class : Oop) × CanPlace (L.loaded loader.old) at class (at.0 / 2)
        (object_in plan.now.order.things (content_of content.now)) }
    ensures { Puts (L.loaded loader.old) (L.loaded loader.new) (at.0 / 2)
        (object_in plan.now.order.things (content_of content.now)) }
{
    let class = pointer(plan, &content.class);
    match &content.body {
        Body::Fields(fields) => place_fields(loader, plan, at, class, fields),
        Body::Bytes(bytes) => place_bytes(loader, at, class, bytes),
        Body::NoWords => loader.place(at, class, Kind::Words, 0, 0),
    }
}
