//! What is made gets its fields and bytes.

ghost use Rattle.std.specs.{Prelude.{◌≡◌, ◌≤◌, ◌+◌, ◌*◌, length}, List.AllByRecursion};
ghost use Rattle.st_model.specs.{Values.value, Objects.nil, Table.table, View.object_of};
ghost use Rattle.st_model.specs.Steps.{store_fields, store_bytes};
ghost use Rattle.st_install.specs.inside.Carried.{Goes, Becomes, KeepsFields, IsShaped, AreShaped, IsPlannable};
ghost use Rattle.st_install.specs.inside.Goes.{HasHeader};
ghost use Rattle.st_install.specs.Installing.{part_value, part_values, store_method_fields, fill_method, fill_by, fill_all};
ghost use Rattle.st_install.specs.inside.Readies.{part_of, parts_of, object_of as planned_of, objects_of};
ghost use Rattle.st_scope.specs.inside.Meanings.{values};

use crate::plan::{NewObject, PlannedValue};
use crate::sure::{store_byte, store_field, store_method_field};
use st_memory::Memory;
use st_model::{Kind, Oop};

/// The pointer that a part stands for, once the objects are made.
pub fn part_value(made: &[Oop], part: PlannedValue) -> Oop
    ensures { value result ≡ part_value nil (values made.now) (part_of part) }
{
    match part {
        PlannedValue::There(o) => o,
        PlannedValue::Made(k) if (k as usize) < made.len() => made[k as usize],
        PlannedValue::Made(_) => Oop::NIL,
    }
}

/// The parts go into the fields of an object, from field 0 on.
fn store_fields<M: Memory>(m: &mut M, made: &[Oop], o: Oop, parts: &[PlannedValue])
    requires goes { let fields = part_values nil (values made.now) (parts_of parts.now) in
        Goes (store_fields table (value o) 0 fields) (M.view m.old) }
    requires few { length parts.now ≤ 65535 }
    ensures becomes { let fields = part_values nil (values made.now) (parts_of parts.now) in
        Becomes (store_fields table (value o) 0 fields) (M.view m.old) tt (M.view m.new) }
    ensures fields { KeepsFields (M.view m.old).objects (M.view m.new).objects }
{
    for i in 0..parts.len() as u32 {
        let x = part_value(made, parts[i as usize]);
        store_field(m, o, i, x);
    }
}

/// The parts go into the header and the literals of a Method.
fn store_method_fields<M: Memory>(m: &mut M, made: &[Oop], o: Oop, parts: &[PlannedValue])
    requires goes { let fields = part_values nil (values made.now) (parts_of parts.now) in
        Goes (store_method_fields table (value o) 0 fields) (M.view m.old) }
    requires few { length parts.now ≤ 65535 }
    requires shaped { length (object_of (M.view m.old).objects (value o)).fields ≡ length parts.now }
    requires headed { HasHeader (parts_of parts.now) }
    ensures becomes { let fields = part_values nil (values made.now) (parts_of parts.now) in
        Becomes (store_method_fields table (value o) 0 fields) (M.view m.old) tt (M.view m.new) }
    ensures fields { KeepsFields (M.view m.old).objects (M.view m.new).objects }
{
    for i in 0..parts.len() as u32 {
        let x = part_value(made, parts[i as usize]);
        store_method_field(m, o, i, x);
    }
}

/// The bytes go into an object, from one place on.
fn store_bytes<M: Memory>(m: &mut M, o: Oop, to: u32, bytes: &[u8])
    requires goes { Goes (store_bytes table (value o) to bytes.now) (M.view m.old) }
    requires few { to + length bytes.now ≤ 262144 }
    ensures becomes { Becomes (store_bytes table (value o) to bytes.now) (M.view m.old) tt (M.view m.new) }
    ensures fields { KeepsFields (M.view m.old).objects (M.view m.new).objects }
{
    for i in 0..bytes.len() as u32 {
        store_byte(m, o, to + i, bytes[i as usize]);
    }
}

/// A Method gets its header, its literals and its bytes.
fn fill_method<M: Memory>(m: &mut M, made: &[Oop], o: Oop, parts: &[PlannedValue], bytes: &[u8])
    requires goes { let fields = part_values nil (values made.now) (parts_of parts.now) in
        Goes (fill_method table (value o) fields bytes.now) (M.view m.old) }
    requires few { 2 * length parts.now + length bytes.now ≤ 131072 }
    requires shaped { length (object_of (M.view m.old).objects (value o)).fields ≡ length parts.now }
    requires headed { HasHeader (parts_of parts.now) }
    ensures becomes { let fields = part_values nil (values made.now) (parts_of parts.now) in
        Becomes (fill_method table (value o) fields bytes.now) (M.view m.old) tt (M.view m.new) }
    ensures fields { KeepsFields (M.view m.old).objects (M.view m.new).objects }
{
    store_method_fields(m, made, o, parts);
    store_bytes(m, o, 2 * parts.len() as u32, bytes);
}

/// An object gets what it was planned with.
fn fill<M: Memory>(m: &mut M, made: &[Oop], o: Oop, planned: &NewObject)
    requires goes { let fields = part_values nil (values made.now) (parts_of planned.now.fields.items) in
        Goes (fill_by table (value o) fields planned.now.bytes.items planned.now.kind) (M.view m.old) }
    requires plannable { IsPlannable (planned_of planned.now) }
    requires shaped { IsShaped (M.view m.old).objects (value o) (planned_of planned.now) }
    ensures becomes { let fields = part_values nil (values made.now) (parts_of planned.now.fields.items) in
        Becomes (fill_by table (value o) fields planned.now.bytes.items planned.now.kind)
        (M.view m.old) tt (M.view m.new) }
    ensures fields { KeepsFields (M.view m.old).objects (M.view m.new).objects }
{
    match planned.kind {
        Kind::Pointers => store_fields(m, made, o, &planned.fields),
        Kind::Words => {}
        Kind::Bytes => store_bytes(m, o, 0, &planned.bytes),
        Kind::Method => fill_method(m, made, o, &planned.fields, &planned.bytes),
    }
}

/// Each object that was made gets what it was planned with, one after the other.
pub fn fill_all<M: Memory>(m: &mut M, made: &[Oop], objects: &[NewObject])
    requires goes { let vs = values made.now in
        Goes (fill_all table nil vs vs (objects_of objects.now)) (M.view m.old) }
    requires plannable { AllByRecursion IsPlannable (objects_of objects.now) }
    requires shaped { AreShaped (M.view m.old).objects (values made.now) (objects_of objects.now) }
    requires each { length made.now ≡ length objects.now }
    ensures becomes { let vs = values made.now in
        Becomes (fill_all table nil vs vs (objects_of objects.now)) (M.view m.old) tt (M.view m.new) }
{
    for i in 0..objects.len() {
        fill(m, made, made[i], &objects[i]);
    }
}
