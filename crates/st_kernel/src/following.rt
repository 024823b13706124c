// Following a kernel text over the memory of its first objects.
ghost use Rattle.std.specs.Prelude.{◌≡◌, ◌≤◌, ◌<◌, ◌-◌, ◌^◌, ◌∷◌, List, Result, IfOk, IfErr, length};
ghost use Rattle.st_kernel_text.specs.{Parts.{Part as APart, start}, inside.Views.{start_of, parts_of}};
ghost use Rattle.st_kernel_text.specs.{Parts.{Side as ASide}, Definitions.AreDefinitions};
ghost use Rattle.st_install.specs.Defining.{installed};
ghost use Rattle.st_protocol.specs.Installing.{Install};
ghost use Rattle.st_kernel.specs.Built.{Built, Fault, no_side};
ghost use Rattle.st_kernel.specs.inside.Answered.{IsBegun, IsFaultOf};
ghost use Rattle.st_kernel.specs.inside.Following.{side_in, IsUnderway, Finishes, IsQuiet};

use crate::beginning::start_process;
use crate::fault::{KernelFault, cause_number, unfinished};
use crate::part::{Heading, Next, follow_part};
use st_frames::World;
use st_kernel_text::{Cause, Kernel, Start};
use st_memory::Memory;
use std::alloc::Global;

/// Begins the first process by the start, which is the chunk of this number, where the text is over behind it.
fn finish_text<M: Memory>(
    alloc: Global,
    m: &mut M,
    first: &Start,
    chunk: u32,
    cause: Option<Cause>,
) -> Result<(), KernelFault>
    requires few { chunk < 2 ^ 32 - 1 }
    requires quiet { IsQuiet (M.view m.old) }
    ensures finishes { (install : Install) (whole : Result Built Fault) (side : ASide) (parts : List APart)
        → IsUnderway install cause whole chunk side (start (start_of first.now) ∷ parts) (M.view m.old)
        → Finishes whole result (M.view m.new) }
    ensures begun { IfOk result (λ u. IsBegun (M.view m.new)) }
{
    let world = World::new(alloc)?;
    match start_process(m, &world, first) {
        Err(_) => Err(KernelFault::At { chunk, cause: 6 }),
        Ok(false) => Err(KernelFault::At { chunk, cause: 7 }),
        Ok(true) => match cause {
            None => Ok(()),
            Some(cause) => Err(KernelFault::At {
                chunk: chunk + 1,
                cause: cause_number(cause),
            }),
        },
    }
}

/// Follows a whole text over the memory of its first objects.
pub(crate) fn install_methods<M: Memory>(
    alloc: Global,
    m: &mut M,
    kernel: &Kernel,
) -> Result<(), KernelFault>
    requires good { AreDefinitions no_side (parts_of kernel.now.parts.items) }
    requires short { length kernel.now.parts.items ≤ 2 ^ 32 - 2 }
    requires quiet { IsQuiet (M.view m.old) }
    ensures follows { (whole : Result Built Fault)
        → IsUnderway installed kernel.now.cause whole 1 no_side
        (parts_of kernel.now.parts.items) (M.view m.old)
        → Finishes whole result (M.view m.new) }
    ensures begun { IfOk result (λ u. IsBegun (M.view m.new)) }
{
    let mut heading = Heading {
        class: &[],
        meta: false,
    };
    let mut chunk = 1;
    let mut rest = kernel.parts.as_slice();
    while let [part, later @ ..] = rest {
        match follow_part(alloc, m, heading, chunk, part)? {
            Next::On(next) => heading = next,
            Next::Starts(first) => return finish_text(alloc, m, first, chunk, kernel.cause),
        }
        chunk += 1;
        rest = later;
    }
    Err(unfinished(chunk, kernel.cause))
}
