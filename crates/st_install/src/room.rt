//! The room that the objects of an installation take.

ghost use Rattle.std.specs.Prelude.{◌≡◌, ◌<◌, ◌≤◌, ◌^◌, length, Some, Err, IfSome, IfNone, IfOk};
ghost use Rattle.st_model.specs.Table.{table};
ghost use Rattle.st_scope.specs.declared.fault.InstallFault.TheVariants.{OutOfMemory};
ghost use Rattle.st_install.specs.{Plans.{words_of_new, words_of_all, demand_of_all}, Calls.with_room};
ghost use Rattle.st_install.specs.{inside.Readies.{object_of, objects_of, plan_of, HasRoom}, inside.Carried.HasSmallBodies};
ghost use Rattle.st_install.specs.inside.Rooms.{TellsReady};

use crate::plan::{NewObject, Ready};
use st_memory::Memory;
use st_model::Demand;
use st_scope::InstallFault;

/// The words of a new object, where they are below 2^32.
fn words_of_new(object: &NewObject) -> Option<u32>
    ensures words { IfSome result (λ n. n ≡ words_of_new (object_of object.now)) }
    ensures many { IfNone result (2 ^ 32 ≤ words_of_new (object_of object.now)) }
{
    let bytes = object.bytes.len().checked_add(1)? / 2;
    let words = object.fields.len().checked_add(2)?.checked_add(bytes)?;
    u32::try_from(words).ok()
}

/// The words of objects, where they are below 2^32.
fn words_of_all(objects: &[NewObject]) -> Option<u32>
    ensures words { IfSome result (λ n. n ≡ words_of_all (objects_of objects.now)) }
    ensures many { IfNone result (2 ^ 32 ≤ words_of_all (objects_of objects.now)) }
{
    let mut words = 0_u32;
    for object in objects {
        words = words.checked_add(words_of_new(object)?)?;
    }
    Some(words)
}

/// The entries and words of objects, where the words are below 2^32.
#[tactic(auto, using(crate::proofs::Rooms::sizes))]
fn demand_of_all(objects: &[NewObject]) -> Option<Demand>
    ensures demand { IfSome result (λ d. d ≡ demand_of_all (objects_of objects.now)) }
    ensures many { IfNone result (2 ^ 32 ≤ words_of_all (objects_of objects.now)) }
{
    let entries = u32::try_from(objects.len()).ok()?;
    let words = words_of_all(objects)?;
    Some(Demand { entries, words })
}

/// The plan, if there is room for its objects beside those that are kept. `OutOfMemory` comes for more
/// than 65537 objects alone, which can have 2^32 words.
pub(crate) fn with_room<M: Memory>(m: &M, ready: Ready) -> Result<Ready, InstallFault>
    requires room { HasRoom ready }
    requires bodies { HasSmallBodies (plan_of ready) }
    ensures plan { let v = M.view m.now in
        TellsReady (with_room table v.head (Some (plan_of ready))) v.objects result }
    ensures many { result ≡ Err OutOfMemory → 65537 < length (plan_of ready).objects }
    ensures room { IfOk result HasRoom }
    ensures bodies { IfOk result (λ r. HasSmallBodies (plan_of r)) }
{
    let Some(demand) = demand_of_all(&ready.objects) else {
        return Err(InstallFault::OutOfMemory);
    };
    if !m.room(demand) {
        return Err(InstallFault::NoRoom { demand });
    }
    Ok(ready)
}
