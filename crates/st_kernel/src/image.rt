// The image of a kernel text.
ghost use Rattle.std.specs.Prelude.{◌≡◌, ◌≤◌, ◌+◌, ◌-◌, ◌^◌, ◌∷◌, List, Option, length, IfOk, IfErr, MatchResult};
ghost use Rattle.st_image.specs.inside.Back.{CanStart};
ghost use Rattle.st_kernel_text.specs.{declared.cause.Cause.{Cause as ACause}, Parts.{Part as APart}};
ghost use Rattle.st_kernel_text.specs.inside.Views.{part_of, parts_of};
ghost use Rattle.st_install.specs.Defining.{installed};
ghost use Rattle.st_kernel.specs.Built.{built, without_room};
ghost use Rattle.st_kernel.specs.inside.Answered.{IsBuilt, IsBegun, IsFaultOf};

use crate::fault::{KernelFault, unfinished};
use crate::following::install_methods;
use st_first_objects::{Unmade, make_first};
use st_kernel_text::{Kernel, Part, read};
use st_memory::{Loader, Memory};
use std::alloc::Global;

/// The chunk that opened the last group, behind the part of a chunk, where the first objects have no room; or the fault of the text,
/// where that is known at this part.
#[tactic(auto, unfolding(crate::specs::Built::without_room))]
fn opened_behind(part: &Part, opened: u32, chunk: u32) -> Result<u32, KernelFault>
    ensures { (cause : Option ACause) (parts : List APart)
        → let whole = without_room cause opened chunk (part_of part.now ∷ parts) in
        MatchResult result (λ last. whole ≡ without_room cause last (chunk + 1) parts) (IsFaultOf whole) }
{
    match part {
        Part::Opening => Ok(chunk),
        Part::Method(_) => Err(KernelFault::At {
            chunk: opened,
            cause: 7,
        }),
        Part::Start(_) => Err(KernelFault::At { chunk, cause: 6 }),
        Part::Class(_) => Ok(opened),
        Part::Pool(_) => Ok(opened),
        Part::Global(_) => Ok(opened),
        Part::Header(_) => Ok(opened),
        Part::Closing => Ok(opened),
    }
}

/// The fault of a text whose first objects have no room.
fn without_room(kernel: &Kernel) -> KernelFault
    requires { length kernel.now.parts.items ≤ 2 ^ 32 - 2 }
    ensures { IsFaultOf (without_room kernel.now.cause 0 1 (parts_of kernel.now.parts.items)) result }
{
    let mut opened = 0;
    let mut chunk = 1;
    let mut rest = kernel.parts.as_slice();
    while let [part, later @ ..] = rest {
        match opened_behind(part, opened, chunk) {
            Ok(last) => opened = last,
            Err(fault) => return fault,
        }
        chunk += 1;
        rest = later;
    }
    unfinished(chunk, kernel.cause)
}

/// Builds the image of a kernel text, as `specs/Built.antt` defines it: the memory of its objects, in which nothing is held but the
/// registers of the first process, so `fetch_scheduled` finds these; or the first chunk that is wrong, counted from 1, with its least
/// cause.
pub fn build<L: Loader>(alloc: Global, text: &[u8]) -> Result<L::Done, KernelFault>
    requires short { length text.now ≤ 2 ^ 32 - 2 }
    ensures built { IfOk result (λ m. IsBuilt (built installed text.now) (L.Done.view m)) }
    ensures begun { IfOk result (λ m. IsBegun (L.Done.view m)) }
    ensures starts { IfOk result (λ m. CanStart (L.Done.view m)) }
    ensures refused { IfErr result (IsFaultOf (built installed text.now)) }
{
    let kernel = read(alloc, text)?;
    match make_first::<L>(alloc, &kernel) {
        Ok(mut m) => {
            install_methods(alloc, &mut m, &kernel)?;
            Ok(m)
        }
        Err(Unmade::NoRoom) => Err(without_room(&kernel)),
        Err(Unmade::OutOfMemory) => Err(KernelFault::OutOfMemory),
    }
}
