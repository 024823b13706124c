//! Whether a method can be installed, and with what.

ghost use Rattle.std.specs.Prelude.{◌≡◌, IfOk};
ghost use Rattle.st_model.specs.{Values.value, Table.table};
ghost use Rattle.st_code.specs.inside.MethodDrafts.{parts_view};
ghost use Rattle.st_install.specs.{Calls.ready, inside.Readies.{plan_of, HasRoom}, inside.PlanDrafts.{planned_step, ready_step}};
ghost use Rattle.st_install.specs.{inside.Carried.HasSmallBodies, inside.Rooms.TellsReady};
ghost use Rattle.st_scope.specs.inside.Findings.{Finds};

use crate::plan::{Owner, Ready};
use crate::planning::plan;
use crate::room::with_room;
use st_code::MethodParts;
use st_memory::Memory;
use st_model::{Dead, Oop};
use st_scope::{InstallFault, Unread, class_association};
use std::alloc::Global;

/// The plan for parts that were compiled for a class.
fn planned<M: Memory>(alloc: Global, m: &M, of: Owner, parts: MethodParts) -> Result<Ready, Unread>
    ensures plan { let v = M.view m.now in
        Finds (planned_step v.head of (parts_view parts)) plan_of v.objects result }
    ensures room { IfOk result HasRoom }
    ensures bodies { IfOk result (λ r. HasSmallBodies (plan_of r)) }
{
    let symbols = m.symbols();
    if symbols.0 == 0 {
        return Err(Unread::Dies(Dead::Field));
    }
    plan(alloc, m, symbols, of, parts)
}

/// The plan, if its objects have room beside those that are kept.
fn ready_for<M: Memory>(
    alloc: Global,
    m: &M,
    of: Owner,
    parts: MethodParts,
) -> Result<Ready, InstallFault>
    ensures plan { let v = M.view m.now in
        TellsReady (ready_step v.head of (parts_view parts)) v.objects result }
    ensures room { IfOk result HasRoom }
    ensures bodies { IfOk result (λ r. HasSmallBodies (plan_of r)) }
{
    match planned(alloc, m, of, parts) {
        Ok(ready) => with_room(m, ready),
        Err(Unread::Dies(_)) => Err(InstallFault::Shape),
        Err(Unread::OutOfMemory) => Err(InstallFault::OutOfMemory),
    }
}

/// What the installation of a method makes and stores, with all memory that it needs; nothing is changed. `class_of_name` answered
/// the class for this name and side, and the parts were compiled under what `names` answered for it. `Shape` comes if the name is no
/// class's, or if the plan dies, also for an object of more than 65535 words. `NoRoom` comes if its objects have no room beside those
/// that are kept, and `OutOfMemory` if there was no memory, or for 2^32 objects, fields or words or more.
pub fn ready<M: Memory>(
    alloc: Global,
    m: &M,
    class: Oop,
    name: &[u8],
    meta: bool,
    parts: MethodParts,
) -> Result<Ready, InstallFault>
    ensures plan { let v = M.view m.now in
        let step = ready table v.head (value class) name.now meta (parts_view parts) in
        TellsReady step v.objects result }
    ensures room { IfOk result HasRoom }
    ensures bodies { IfOk result (λ r. HasSmallBodies (plan_of r)) }
{
    let globals = m.globals();
    if globals.0 == 0 {
        return Err(InstallFault::Shape);
    }
    match class_association(m, globals, name) {
        Ok(association) => {
            let of = Owner {
                association,
                class,
                meta,
            };
            ready_for(alloc, m, of, parts)
        }
        Err(_) => Err(InstallFault::Shape),
    }
}
