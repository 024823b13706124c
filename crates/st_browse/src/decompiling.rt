//! The text of a method of which none is kept.

ghost use Rattle.std.specs.Prelude.{◌≡◌, true, IfOk, option_map};
ghost use Rattle.st_model.specs.{Values.value, View.is_live};
ghost use Rattle.st_emit.specs.inside.NameViews.{names_view};
ghost use Rattle.st_scope.specs.inside.Findings.{text_of};
ghost use Rattle.st_parts.specs.{Parts.parts_at, inside.Places.place_of};
ghost use Rattle.st_chunk.specs.Asks.{side_of};
ghost use Rattle.st_browse.specs.{inside.MadeTexts.{IsMade, IsTextOfParts}, inside.Placing.{AreNamesIf, IsCompiled}};

use crate::sought::find_compiled;
use st_chunk::LentSide;
use st_decompile::{decompile, parts_of};
use st_emit::Names;
use st_install::{InstallFault, method_names};
use st_memory::Memory;
use st_parts::Compiled;
use st_print::print;
use st_scan::Text;
use std::alloc::{AllocError, Global};

/// The names that a method sees, where its class has the form that an installation asks.
fn names_of<M: Memory>(alloc: Global, m: &M, of: Compiled<'_>) -> Result<Option<Names>, AllocError>
    requires { is_live (M.view m.now).objects (value of.method) ≡ true }
    ensures { IfOk result (AreNamesIf (M.view m.now) (place_of of.entry)) }
{
    match method_names(alloc, m, of.class, of.meta, of.method) {
        Ok(names) => Ok(Some(names)),
        Err(InstallFault::OutOfMemory) => Err(AllocError),
        Err(InstallFault::NoClass) => Ok(None),
        Err(InstallFault::NoGlobals) => Ok(None),
        Err(InstallFault::NoRoom { .. }) => Ok(None),
        Err(InstallFault::Shape) => Ok(None),
    }
}

/// A text of a method under names, if one has its code.
fn text_under<M: Memory>(
    alloc: Global,
    m: &M,
    names: &Names,
    of: Compiled<'_>,
) -> Result<Option<Text>, AllocError>
    requires { IsCompiled (M.view m.now).objects of }
    ensures { let names = names_view names.now in
        let parts = parts_at names (M.view m.now) (place_of of.entry) in
        IfOk result (λ text. IsTextOfParts names parts (option_map text_of text)) }
{
    let Some(parts) = parts_of(
        alloc,
        m,
        of.class,
        of.name,
        of.meta,
        of.selector,
        names,
        of.method,
    )?
    else {
        return Ok(None);
    };
    match decompile(alloc, &parts, names)? {
        Some(tree) => Ok(Some(print(alloc, &tree)?)),
        None => Ok(None),
    }
}

/// A text that has the code of a class's method for a selector. There is none exactly where no text has it, or class or method is
/// missing. It takes memory.
pub fn decompiled<M: Memory>(
    alloc: Global,
    m: &M,
    side: LentSide<'_>,
    selector: &[u8],
) -> Result<Option<Text>, AllocError>
    ensures { IfOk result (λ text.
        IsMade (M.view m.now) (side_of side.entry) selector.now (option_map text_of text)) }
{
    let Some(of) = find_compiled(m, side, selector) else {
        return Ok(None);
    };
    match names_of(alloc, m, of)? {
        Some(names) => text_under(alloc, m, &names, of),
        None => Ok(None),
    }
}
