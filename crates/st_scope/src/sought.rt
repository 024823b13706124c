//! Names that pools and the table of globals share, each sought once.

ghost use Rattle.std.specs.Prelude.{IfOk, OnOk};
ghost use Rattle.st_scope.specs.inside.Walks.{mentions_of};
ghost use Rattle.st_scope.specs.inside.Sought.{NotesShared, NotesSought, Seeks, AreShared};

use crate::sharing::association_in;
use st_emit::NamedOops;
use st_memory::Memory;
use st_model::Oop;
use st_scan::{Name, Text};
use std::alloc::{AllocError, Global};
use std::collections::BTreeSet;

/// The names that were sought, and those of them that are shared.
#[derive(Drop)]
struct Search {
    names: BTreeSet<Text>,
    shared: NamedOops,
}

/// Notes the association of a name, if one was found.
fn note_shared(
    alloc: Global,
    shared: &mut NamedOops,
    text: &[u8],
    association: Option<Oop>,
) -> Result<(), AllocError>
    ensures { OnOk result (NotesShared text.now association shared.old.entries shared.new.entries) }
{
    match association {
        Some(association) => {
            shared.insert(text.to_vec(alloc)?, association)?;
            Ok(())
        }
        None => Ok(()),
    }
}

/// Notes that a name was sought.
fn note_sought(alloc: Global, names: &mut BTreeSet<Text>, text: &[u8]) -> Result<(), AllocError>
    ensures { OnOk result (NotesSought text.now names.old.keys names.new.keys) }
{
    names.insert(text.to_vec(alloc)?)?;
    Ok(())
}

/// Seeks a name in the tables, where it wasn't sought before.
fn seek<M: Memory>(
    alloc: Global,
    m: &M,
    tables: &[Oop],
    search: &mut Search,
    text: &[u8],
) -> Result<(), AllocError>
    ensures { OnOk result (Seeks (M.view m.now).objects tables.now text.now search.old search.new) }
{
    if search.names.contains(text) {
        return Ok(());
    }
    let association = association_in(m, tables, text);
    note_shared(alloc, &mut search.shared, text, association)?;
    note_sought(alloc, &mut search.names, text)
}

/// Those of these names that the tables share, each with its association in the first table that has one.
pub fn shared_names<M: Memory>(
    alloc: Global,
    m: &M,
    tables: &[Oop],
    names: &[&Name],
) -> Result<NamedOops, AllocError>
    ensures { IfOk result (λ shared.
        AreShared (M.view m.now).objects tables.now (mentions_of names.now) shared.entries) }
{
    let mut search = Search {
        names: BTreeSet::new(alloc),
        shared: NamedOops::new(alloc),
    };
    for name in names {
        seek(alloc, m, tables, &mut search, &name.text)?;
    }
    Ok(search.shared)
}
