ghost use Rattle.std.specs.Prelude.{◌≡◌, IsTrue, IfOk, IfErr, OnOk};
ghost use Rattle.st_host.specs.{Files.bytes_of, Runs.{OnlyReads, ReadsAlike}};
ghost use Rattle.st_model.specs.View.{no_devices};
ghost use Rattle.st_frames.specs.inside.Shown.{IsFrame};
ghost use Rattle.st_image.specs.{inside.Back.CanStart, HeadValues.head_over, inside.Reading.IsStart};
ghost use Rattle.st_call.specs.Refusals.{IsImageRefusal, RefusalHasCause, IsReadableOver, IsFaultyOver};

use crate::file::read_file;
use crate::image_refusal::ImageRefusal;
use st_frames::Loaded;
use st_host::Host;
use st_image::{HeadValues, ReadImage, read};
use st_memory::Loader;
use st_model::LONGEST_IMAGE;
use std::alloc::Global;

/// The memory and registers of the image in a file, read with these values in place of those of its head, where that has at most
/// 2^27 bytes and is well-formed with them. Nothing is held but by the registers. No file is changed.
pub fn read_image<H: Host, L: Loader>(
    alloc: Global,
    host: &mut H,
    name: &str,
    over: &HeadValues,
) -> Result<Loaded<L::Done>, ImageRefusal>
    ensures readable { IfOk result (λ _. IsTrue H.is_told →
        IsReadableOver over.now (bytes_of (H.files host.old name.now))) }
    ensures start { let bytes = bytes_of (H.files host.old name.now) in
        IfOk result (λ l. IsTrue H.is_told →
        IsStart (head_over over.now bytes) bytes (L.Done.view l.memory) l.frame) }
    ensures starts { IfOk result (λ l. CanStart (L.Done.view l.memory)) }
    ensures frame { IfOk result (λ l. IsFrame (L.Done.view l.memory) l.frame) }
    ensures quiet { IfOk result (λ l. (L.Done.view l.memory).held.devices ≡ no_devices) }
    ensures refused { IfErr result (λ e. IsTrue H.is_told →
        IsImageRefusal (IsFaultyOver over.now) (bytes_of (H.files host.old name.now)) e) }
    ensures alike { OnOk result (ReadsAlike H.Host.own host.old host.new) }
    ensures cause { IfErr result (RefusalHasCause H.Host.own host.old host.new) }
    ensures reads { OnlyReads H.Host.own host.old host.new }
{
    let bytes = read_file(alloc, host, name, LONGEST_IMAGE)?;
    match read::<L>(alloc, &bytes, over) {
        Ok(loaded) => Ok(loaded),
        Err(ReadImage::Fault(fault)) => Err(ImageRefusal::Image(fault)),
        Err(ReadImage::OutOfMemory) => Err(ImageRefusal::OutOfMemory),
    }
}
