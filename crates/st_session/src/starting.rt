ghost use Rattle.std.specs.Prelude.{◌≡◌, IsTrue, IfOk, IfErr, None};
ghost use Rattle.st_host.specs.{Files.bytes_of, Runs.OnlyReads};
ghost use Rattle.st_model.specs.{Objects.nil, Machine.empty_world, Image.image_head};
ghost use Rattle.st_frames.specs.inside.Shown.{IsReady};
ghost use Rattle.st_image.specs.inside.Reading.{IsStart};
ghost use Rattle.st_recover.specs.Openings.{IsReadable, IsFaulty};
ghost use Rattle.st_call.specs.Refusals.{IsImageRefusal, RefusalHasCause};

use st_call::{ImageRefusal, read_image};
use st_frames::World;
use st_host::Host;
use st_image::HeadValues;
use st_machine::Machine;
use st_memory::Loader;
use std::alloc::Global;

/// A machine at the start of the image in a file, where that has at most 2^27 bytes and is well-formed.
pub fn start<H: Host, L: Loader>(
    alloc: Global,
    host: &mut H,
    name: &str,
) -> Result<Machine<L::Done>, ImageRefusal>
    ensures readable { IfOk result (λ _. IsTrue H.is_told →
        IsReadable (bytes_of (H.files host.old name.now))) }
    ensures start { let bytes = bytes_of (H.files host.old name.now) in
        IfOk result (λ m. IsTrue H.is_told →
        IsStart (image_head bytes) bytes (L.Done.view m.memory) m.frame) }
    ensures ready { IfOk result (λ m. IsReady (L.Done.view m.memory) m.frame m.world) }
    ensures world { IfOk result (λ m. m.world ≡ empty_world nil) }
    ensures alive { IfOk result (λ m. m.death ≡ None) }
    ensures refused { IfErr result (λ e. IsTrue H.is_told →
        IsImageRefusal IsFaulty (bytes_of (H.files host.old name.now)) e) }
    ensures cause { IfErr result (RefusalHasCause H.Host.own host.old host.new) }
    ensures reads { OnlyReads H.Host.own host.old host.new }
{
    let loaded = read_image::<H, L>(alloc, host, name, &HeadValues::NONE)?;
    let world = World::new(alloc)?;
    Ok(Machine::boot(loaded, world))
}
