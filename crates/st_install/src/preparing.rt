//! From a definition's text to what is to be installed.

ghost use Rattle.std.specs.Prelude.{◌≡◌, ◌≤◌, ◌-◌, ◌^◌, length};
ghost use Rattle.st_chunk.specs.Definitions.{IsDefinition};
ghost use Rattle.st_chunk.specs.inside.ScriptDefinitions.{definition_of};
ghost use Rattle.st_install.specs.inside.Prepareds.{PreparesAs};

use crate::plan::Ready;
use crate::readiness::ready;
use crate::unprepared::Unprepared;
use st_chunk::LentDefinition;
use st_code::compile;
use st_memory::Memory;
use st_parse::parse;
use st_scope::{class_of_name, names};
use std::alloc::Global;

/// A method that is ready to be installed.
#[derive(Drop)]
pub struct Prepared {
    /// The method's selector.
    pub selector: Vec<u8>,
    /// What is made and stored.
    pub ready: Ready,
}

/// What a definition's installation makes and stores, or why it isn't installed: the first of NoGlobals, NoClass, a fault of the
/// text's syntax, Shape for class and symbol table, a fault of the method's code, Shape for the table of characters and for the
/// size of what is replaced, and NoRoom. All memory that the installation needs is taken here.
pub fn prepare<M: Memory>(
    alloc: Global,
    m: &M,
    definition: &LentDefinition<'_>,
) -> Result<Prepared, Unprepared>
    requires good { IsDefinition (definition_of definition.now) }
    ensures { PreparesAs (M.view m.now) (definition_of definition.now) result }
{
    let class = class_of_name(m, definition.class, definition.meta)?;
    let tree = parse(alloc, definition.text)?;
    let seen = names(alloc, m, class, definition.meta, &tree)?;
    let parts = compile(alloc, &tree, &seen)?;
    let selector = parts.selector.to_vec(alloc)?;
    let ready = ready(alloc, m, class, definition.class, definition.meta, parts)?;
    Ok(Prepared { selector, ready })
}
