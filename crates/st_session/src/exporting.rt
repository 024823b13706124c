//! The commands `export` and `clean`.

ghost use Rattle.std.specs.Prelude.{◌≡◌, List, IsTrue, IfErr, None};
ghost use Rattle.st_model.specs.{Births.Births, Machine.{State, empty_world}, Objects.nil, Show.Shows};
ghost use Rattle.st_model.specs.View.{no_devices};
ghost use Rattle.st_frames.specs.inside.Shown.{IsFrame, IsReady, shown};
ghost use Rattle.st_protocol.specs.Statuses.{Counts, StatusHasCause};
ghost use Rattle.st_session.specs.Ends.{status_in};
ghost use Rattle.st_session.specs.Exports.{DoesExport, ExportsImage, ExportsState, HasExported, LeavesOthers};
ghost use Rattle.st_session.specs.Exports.{IsOfExporting, ExportEnds};
ghost use Rattle.st_session.specs.{declared.extent.Extent.TheVariants.{Kept, Reachable}, inside.Standing.shown_by};

use crate::extent::Extent;
use crate::opening_refusal::refuse_opening;
use crate::reading::status_of;
use st_call::{Reply, report_status, say_reply};
use st_clean::clean;
use st_frames::{Loaded, World};
use st_host::{FileFault, Host, HostFault};
use st_image::write;
use st_machine::Machine;
use st_memory::{Loader, Memory};
use st_protocol::Status;
use st_recover::reopen;
use std::alloc::{AllocError, Global};

/// Writes the image of a memory to a file, and says its length.
fn export_kept<H: Host, M: Memory>(host: &mut H, m: &M, image: &str) -> Result<(), Status>
    ensures { let v = M.view m.now in
        DoesExport H.Host.own image.now (ExportsImage Kept v.objects v.head) host.old host.new result }
{
    match write(m, host, image) {
        Ok(length) => say_reply(host, Reply::Exported(length)),
        Err(HostFault) => Err(Status::DiskFault),
    }
}

/// Writes the image of what can be reached in a memory to a file, and says how many objects and words it has.
fn export_reachable<H: Host, M: Memory, L: Loader>(
    alloc: Global,
    host: &mut H,
    m: &M,
    image: &str,
) -> Result<(), Status>
    ensures { let v = M.view m.now in
        DoesExport H.Host.own image.now (ExportsImage Reachable v.objects v.head) host.old host.new result }
{
    match clean::<M, L, H>(alloc, m, host, image) {
        Ok(demand) => say_reply(host, Reply::Cleaned(demand)),
        Err(FileFault::Disk) => Err(Status::DiskFault),
        Err(FileFault::OutOfMemory) => Err(Status::OutOfMemory),
    }
}

/// Writes the image of this extent of a memory to a file, and says what was written.
fn export_image<H: Host, M: Memory, L: Loader>(
    alloc: Global,
    host: &mut H,
    extent: Extent,
    m: &M,
    image: &str,
) -> Result<(), Status>
    ensures { let v = M.view m.now in
        DoesExport H.Host.own image.now (ExportsImage extent v.objects v.head) host.old host.new result }
{
    match extent {
        Extent::Kept => export_kept(host, m, image),
        Extent::Reachable => export_reachable::<H, M, L>(alloc, host, m, image),
    }
}

/// Saves a machine that isn't dead, and exports its image; or says of what saving died.
fn export_machine<H: Host, M: Memory, L: Loader>(
    alloc: Global,
    host: &mut H,
    extent: Extent,
    machine: &mut Machine<M>,
    image: &str,
) -> Result<(), Status>
    requires ready { IsReady (M.view machine.old.memory) machine.old.frame machine.old.world }
    requires alive { machine.old.death ≡ None }
    ensures has { (s : State Births) → Shows (shown_by M.view machine.old) s → IsTrue H.is_told →
        HasExported H.Host.own image.now (ExportsState extent s) host.old host.new result }
    ensures others { LeavesOthers H.Host.own image.now host.old host.new }
    ensures counts { Counts H.Host.own ⊥ host.old host.new result }
    ensures kind { IfErr result IsOfExporting }
{
    match machine.save() {
        Ok(()) => export_image::<H, M, L>(alloc, host, extent, machine.memory(), image),
        Err(cause) => say_reply(host, Reply::Died { finished: 0, cause }),
    }
}

/// Exports what a store was opened as.
fn export_loaded<H: Host, L: Loader>(
    alloc: Global,
    host: &mut H,
    extent: Extent,
    loaded: Loaded<L::Done>,
    image: &str,
) -> Result<(), Status>
    requires frame { IsFrame (L.Done.view loaded.memory) loaded.frame }
    requires quiet { (L.Done.view loaded.memory).held.devices ≡ no_devices }
    ensures has { let first = shown (L.Done.view loaded.memory) loaded.frame (empty_world nil) in
        (s : State Births) → Shows first s → IsTrue H.is_told →
        HasExported H.Host.own image.now (ExportsState extent s) host.old host.new result }
    ensures others { LeavesOthers H.Host.own image.now host.old host.new }
    ensures counts { Counts H.Host.own ⊥ host.old host.new result }
    ensures kind { IfErr result IsOfExporting }
{
    let world = match World::new(alloc) {
        Ok(world) => world,
        Err(AllocError) => return Err(Status::OutOfMemory),
    };
    let mut machine = Machine::boot(loaded, world);
    export_machine::<H, L::Done, L>(alloc, host, extent, &mut machine, image)
}

/// The commands `export` and `clean`: opens a store, saves what it opens as, writes the image of that to a file, of all objects or
/// of those that can be reached, and says what was written; or says of what saving died, and writes none. A stop at any moment
/// leaves files that the store opens from as before.
pub fn export<H: Host, L: Loader>(
    alloc: Global,
    host: &mut H,
    extent: Extent,
    store: &str,
    image: &str,
) -> Status
    ensures ends { ExportEnds H.Host.own extent store.now image.now host.old host.new result }
    ensures cause { StatusHasCause H.Host.own ⊥ host.old host.new result }
{
    match reopen::<L, H>(alloc, host, store) {
        Ok(opened) => {
            let status = status_of(export_loaded::<H, L>(
                alloc,
                host,
                extent,
                opened.loaded,
                image,
            ));
            report_status(host, status);
            status
        }
        Err(fault) => refuse_opening(host, fault),
    }
}
