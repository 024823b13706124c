// One part more.
ghost use Rattle.std.specs.Prelude.{◌≡◌, ◌∷◌, [], List, Option, Result};
ghost use Rattle.st_chunk.specs.{Definitions.IsDefinition, inside.ScriptDefinitions.definition_of};
ghost use Rattle.st_kernel_text.specs.{declared.cause.Cause.{Cause as ACause}, Parts.{Part as APart, method}};
ghost use Rattle.st_kernel_text.specs.{inside.Views.{part_of, side_of}, Definitions.{AreDefinitions, definition_by}};
ghost use Rattle.st_install.specs.Defining.{installed};
ghost use Rattle.st_kernel.specs.Built.{Built, Fault};
ghost use Rattle.st_kernel.specs.inside.Following.{side_in, IsUnderway, Installs, GoesOn, StaysGood, IsQuiet};

use crate::fault::KernelFault;
use st_chunk::LentDefinition;
use st_install::define;
use st_kernel_text::{Part, Side, Start};
use st_memory::Memory;
use st_protocol::Installation;
use std::alloc::Global;

/// The side of a class whose methods stand in a group.
#[derive(Clone, Copy)]
pub(crate) struct Heading<'a> {
    pub(crate) class: &'a [u8],
    pub(crate) meta: bool,
}

/// What stands behind a part.
#[derive(Clone, Copy)]
pub(crate) enum Next<'a> {
    /// The next part, where methods are of this side.
    On(Heading<'a>),
    /// The part itself is the start.
    Starts(&'a Start),
}

/// The side that a header names.
fn heading_of(side: &Side) -> Heading<'_>
    ensures { side_in result ≡ side_of side.now }
{
    Heading {
        class: side.class.as_slice(),
        meta: side.meta,
    }
}

/// The definition of a method, which has no category.
fn definition_by<'a>(heading: Heading<'a>, text: &'a [u8]) -> LentDefinition<'a>
    ensures { definition_of result ≡ definition_by (side_in heading.entry) text.now }
{
    LentDefinition {
        class: heading.class,
        meta: heading.meta,
        category: &[],
        text,
    }
}

/// Installs the method of the chunk of this number.
fn install_method<M: Memory>(
    alloc: Global,
    m: &mut M,
    heading: Heading<'_>,
    text: &[u8],
    chunk: u32,
) -> Result<(), KernelFault>
    requires good { IsDefinition (definition_by (side_in heading) text.now) }
    requires quiet { IsQuiet (M.view m.old) }
    ensures installs { (cause : Option ACause) (whole : Result Built Fault) (parts : List APart)
        → IsUnderway installed cause whole chunk (side_in heading.entry)
        (method text.now ∷ parts) (M.view m.old)
        → Installs installed cause whole chunk (side_in heading.entry) parts result (M.view m.new) }
    ensures quiet { IsQuiet (M.view m.new) }
{
    match define(alloc, m, &definition_by(heading, text)) {
        Installation::Accepted(_selector) => Ok(()),
        Installation::Refused(_why) => Err(KernelFault::At { chunk, cause: 5 }),
        Installation::OutOfMemory => Err(KernelFault::OutOfMemory),
    }
}

/// Follows the part of the chunk of this number.
pub(crate) fn follow_part<'a, M: Memory>(
    alloc: Global,
    m: &mut M,
    heading: Heading<'a>,
    chunk: u32,
    part: &'a Part,
) -> Result<Next<'a>, KernelFault>
    requires good { AreDefinitions (side_in heading) (part_of part.now ∷ []) }
    requires quiet { IsQuiet (M.view m.old) }
    ensures follows { (cause : Option ACause) (whole : Result Built Fault) (parts : List APart)
        → IsUnderway installed cause whole chunk (side_in heading.entry)
        (part_of part.now ∷ parts) (M.view m.old)
        → GoesOn installed cause whole chunk (side_in heading.entry) parts result (M.view m.new) }
    ensures good { StaysGood (side_in heading.entry) (part_of part.now) result }
    ensures quiet { IsQuiet (M.view m.new) }
{
    match part {
        Part::Header(side) => Ok(Next::On(heading_of(side))),
        Part::Method(text) => {
            install_method(alloc, m, heading, text, chunk)?;
            Ok(Next::On(heading))
        }
        Part::Start(start) => Ok(Next::Starts(start)),
        Part::Class(_) | Part::Pool(_) | Part::Global(_) | Part::Opening | Part::Closing => {
            Ok(Next::On(heading))
        }
    }
}
