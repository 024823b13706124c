ghost use Rattle.std.specs.Prelude.{◌≤◌};
ghost use Rattle.st_model.specs.Storage.{storage};
ghost use Rattle.st_frames.specs.inside.Rows.{RowTries, Takes, storage_changes};

use crate::compiled_methods::{primitive_new_method, primitive_object_at, primitive_object_at_put};
use crate::copying::primitive_copy_bits;
use crate::fetching::{primitive_at, primitive_instance_variable_at, primitive_size};
use crate::finding::{
    primitive_as_object, primitive_as_oop, primitive_become, primitive_next_instance,
    primitive_some_instance,
};
use crate::making::{primitive_new, primitive_new_with};
use crate::putting::{
    primitive_at_put, primitive_instance_variable_at_put, primitive_string_at_put,
};
use crate::replacing::primitive_replace;
use crate::space::{primitive_core_left, primitive_oops_left};
use crate::streams::{primitive_at_end, primitive_next, primitive_next_put};
use crate::strings::primitive_string_at;
use st_frames::{Registers, Tried};
use st_memory::Objects;
use st_model::{Dead, StoragePrimitive};

/// Tries the primitive on objects.
#[tactic(auto, unfolding(st_model::specs::Storage::storage))]
pub fn try_storage<O: Objects>(
    m: &mut O,
    r: &mut Registers,
    primitive: StoragePrimitive,
) -> Result<Tried, Dead>
    requires room { storage_changes ≤ O.room m.old }
    ensures does { RowTries O.Objects.own (storage O.names primitive)
        m.old r.old result m.new r.new }
    ensures takes { Takes O.Objects.own storage_changes m.old m.new }
{
    match primitive {
        StoragePrimitive::At => primitive_at(m, r),
        StoragePrimitive::AtPut => primitive_at_put(m, r),
        StoragePrimitive::Size => primitive_size(m, r),
        StoragePrimitive::StringAt => primitive_string_at(m, r),
        StoragePrimitive::StringAtPut => primitive_string_at_put(m, r),
        StoragePrimitive::Next => primitive_next(m, r),
        StoragePrimitive::NextPut => primitive_next_put(m, r),
        StoragePrimitive::AtEnd => primitive_at_end(m, r),
        StoragePrimitive::ObjectAt => primitive_object_at(m, r),
        StoragePrimitive::ObjectAtPut => primitive_object_at_put(m, r),
        StoragePrimitive::New => primitive_new(m, r),
        StoragePrimitive::NewWith => primitive_new_with(m, r),
        StoragePrimitive::Become => primitive_become(m, r),
        StoragePrimitive::InstanceVariableAt => primitive_instance_variable_at(m, r),
        StoragePrimitive::InstanceVariableAtPut => primitive_instance_variable_at_put(m, r),
        StoragePrimitive::AsOop => primitive_as_oop(m, r),
        StoragePrimitive::AsObject => primitive_as_object(m, r),
        StoragePrimitive::SomeInstance => primitive_some_instance(m, r),
        StoragePrimitive::NextInstance => primitive_next_instance(m, r),
        StoragePrimitive::NewMethod => primitive_new_method(m, r),
        StoragePrimitive::CopyBits => primitive_copy_bits(m, r),
        StoragePrimitive::Replace => primitive_replace(m, r),
        StoragePrimitive::CoreLeft => primitive_core_left(m, r),
        StoragePrimitive::OopsLeft => primitive_oops_left(m, r),
    }
}
