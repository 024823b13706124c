//! Names that are declared together, found without looking at all of them.

ghost use Rattle.std.specs.Prelude.{◌≡◌, OnOk, IfOk};
ghost use Rattle.st_emit.specs.inside.NamePlaces.{name_place, NotesFirst, IsNameIndex};

use st_scan::{Name, Text};
use std::alloc::{AllocError, Global};
use std::collections::BTreeMap;

/// Texts of names, each with the place of the first name that has it.
pub type NamePlaces = BTreeMap<Text, usize>;

/// Names that are declared together, with their places: the arguments or the temporaries of the method, or the
/// arguments of a block. They are numbered from `first` on, and only temporaries are assignable.
#[derive(Clone, Copy)]
pub struct DeclaredNames<'a> {
    pub names: &'a [Name],
    pub places: &'a NamePlaces,
    pub first: usize,
    pub assignable: bool,
    pub ghost indexed: { IsNameIndex names.now places.now.entries },
}

/// Notes the place of a text where none is noted.
fn note(alloc: Global, places: &mut NamePlaces, text: &[u8], place: usize) -> Result<(), AllocError>
    ensures { OnOk result (NotesFirst text.now place places.old.entries places.new.entries) }
{
    if places.get(text).is_none() {
        places.insert(text.to_vec(alloc)?, place)?;
    }
    Ok(())
}

/// The places of names.
pub fn places_of(alloc: Global, names: &[Name]) -> Result<NamePlaces, AllocError>
    ensures { IfOk result (λ m. IsNameIndex names.now m.entries) }
{
    let mut places = BTreeMap::new(alloc);
    for (i, name) in names.iter().enumerate() {
        note(alloc, &mut places, &name.text, i)?;
    }
    Ok(places)
}

/// The place of the first name with a text.
pub fn name_place(frame: DeclaredNames<'_>, text: &[u8]) -> Option<usize>
    ensures { result ≡ name_place frame.entry.names.now text.now }
{
    frame.places.get(text).copied()
}
