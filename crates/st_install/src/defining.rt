//! A definition is installed, from its text on.

ghost use Rattle.st_chunk.specs.Definitions.{Definition as DefinitionView, IsDefinition};
ghost use Rattle.st_chunk.specs.inside.ScriptDefinitions.{definition_of};
ghost use Rattle.st_model.specs.{Machine.{State, World}, Births.Births, Show.Shows};
ghost use Rattle.st_frames.specs.{declared.frame.Frame.Frame, inside.Shown.{IsReady, shown}};
ghost use Rattle.st_install.specs.{Defining.installed, inside.Prepareds.IsPrepared};
ghost use Rattle.st_protocol.specs.inside.Installations.{InstallsAs, Unchanged};
ghost use Rattle.st_protocol.specs.declared.installation.Installation.TheVariants.{Accepted};

use crate::installing::install;
use crate::preparing::{Prepared, prepare};
use crate::unprepared::Unprepared;
use st_chunk::LentDefinition;
use st_memory::Memory;
use st_protocol::Installation;
use std::alloc::Global;

/// Installs what is prepared, and drops what nothing supports then. Answers the method's selector.
pub fn carry_out<M: Memory>(m: &mut M, prepared: Prepared) -> Vec<u8>
    requires prepared { (d : DefinitionView) × IsPrepared (M.view m.old) d prepared }
    ensures installs { (d : DefinitionView) (f : Frame) (w : World) (s : State Births)
        → IsPrepared (M.view m.old) d prepared → IsReady (M.view m.old) f w
        → Shows (shown (M.view m.old) f w) s
        → InstallsAs (installed d s) (Accepted result) (shown (M.view m.new) f w) }
    ensures ready { (f : Frame) (w : World) → IsReady (M.view m.old) f w
        → IsReady (M.view m.new) f w }
{
    install(m, prepared.ready);
    prepared.selector
}

/// Installs a definition, or says why it isn't installed. Whatever the registers and the world are for which the memory is
/// ready, it is ready for them again.
pub fn define<M: Memory>(alloc: Global, m: &mut M, definition: &LentDefinition<'_>) -> Installation
    requires good { IsDefinition (definition_of definition.now) }
    ensures installs { (f : Frame) (w : World) (s : State Births) → IsReady (M.view m.old) f w
        → Shows (shown (M.view m.old) f w) s
        → InstallsAs (installed (definition_of definition.now) s) result (shown (M.view m.new) f w) }
    ensures refused { Unchanged result (M.view m.old) (M.view m.new) }
    ensures ready { (f : Frame) (w : World) → IsReady (M.view m.old) f w → IsReady (M.view m.new) f w }
{
    match prepare(alloc, m, definition) {
        Ok(prepared) => Installation::Accepted(carry_out(m, prepared)),
        Err(Unprepared::Refused(why)) => Installation::Refused(why),
        Err(Unprepared::OutOfMemory) => Installation::OutOfMemory,
    }
}
