//! The objects of an installation are made.

ghost use Rattle.std.specs.{Prelude.{◌≡◌, [], ◌∷◌, length, true}, List.AllByRecursion};
ghost use Rattle.st_model.specs.{Values.value, Table.bounded_table, View.fits};
ghost use Rattle.st_install.specs.inside.Carried.{Goes, Becomes, Makes, IsPlannable, AreShaped};
ghost use Rattle.st_install.specs.Installing.{size_by, literals_by, make_new, make_all};
ghost use Rattle.st_install.specs.{Plans.demand_of_all, inside.Readies.{object_of as planned_of, objects_of}};
ghost use Rattle.st_scope.specs.inside.Meanings.{values};

use crate::plan::NewObject;
use st_memory::Memory;
use st_model::{Kind, Oop};

/// How many fields or bytes an object gets; of a Method header and literals count as bytes.
fn size_of_new(object: &NewObject) -> u32
    requires { IsPlannable (planned_of object.now) }
    ensures { result ≡ size_by object.now.kind (planned_of object.now) }
{
    match object.kind {
        Kind::Pointers => object.fields.len() as u32,
        Kind::Words | Kind::Bytes => object.bytes.len() as u32,
        Kind::Method => 2 * object.fields.len() as u32 + object.bytes.len() as u32,
    }
}

/// How many literals it gets.
fn literals_of_new(object: &NewObject) -> u32
    requires { IsPlannable (planned_of object.now) }
    ensures { result ≡ literals_by object.now.kind (planned_of object.now) }
{
    match object.kind {
        Kind::Pointers | Kind::Words | Kind::Bytes => 0,
        Kind::Method => object.fields.len() as u32 - 1,
    }
}

/// A new object, as it is planned; it has its class, its size and the number of its literals, and nil and 0 else.
fn make_new<M: Memory>(m: &mut M, object: &NewObject) -> Oop
    requires goes { Goes (make_new bounded_table (planned_of object.now)) (M.view m.old) }
    requires plannable { IsPlannable (planned_of object.now) }
    requires room { fits (M.view m.old) (demand_of_all (planned_of object.now ∷ [])) ≡ true }
    ensures becomes { let o = planned_of object.now in
        Becomes (make_new bounded_table o) (M.view m.old) (value result) (M.view m.new) }
    ensures makes { Makes (M.view m.old) (planned_of object.now) (value result) (M.view m.new) }
{
    let size = size_of_new(object);
    let literals = literals_of_new(object);
    m.make(object.class, object.kind, size, literals)
}

/// All objects, one after the other; their pointers take the place of what was given for them.
pub fn make_all<M: Memory>(m: &mut M, made: &mut [Oop], objects: &[NewObject])
    requires goes { Goes (make_all bounded_table (objects_of objects.now)) (M.view m.old) }
    requires plannable { AllByRecursion IsPlannable (objects_of objects.now) }
    requires room { fits (M.view m.old) (demand_of_all (objects_of objects.now)) ≡ true }
    requires each { length made.old ≡ length objects.now }
    ensures becomes { let os = objects_of objects.now in
        Becomes (make_all bounded_table os) (M.view m.old) (values made.new) (M.view m.new) }
    ensures shaped { AreShaped (M.view m.new).objects (values made.new) (objects_of objects.now) }
    ensures each { length made.new ≡ length objects.now }
{
    for i in 0..objects.len() {
        made[i] = make_new(m, &objects[i]);
    }
}
