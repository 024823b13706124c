// The definitions of a changes file, in order.
ghost use Rattle.std.specs.Prelude.{◌≡◌, ◌++◌, ◌∷◌, [], IfOk, OnOk, MatchResult};
ghost use Rattle.st_changes.specs.inside.Views.{definitions_of};
ghost use Rattle.st_changes.specs.Lists.{Lists, IsDamaged};

use crate::Definition;
use crate::changes::Changes;
use crate::counting::count_before;
use crate::entry::find_entry;
use crate::noting::index_all;
use st_scan::Text;
use std::alloc::{AllocError, Global};
use std::marker::Model;

fn add(listed: &mut Vec<Definition>, definition: Definition) -> Result<(), AllocError>
    ensures { OnOk result (listed.new.items ≡ listed.old.items ++ definition ∷ []) }
{
    listed.push(definition)?;
    Ok(())
}

/// The definitions whose entries these bytes are, where the base stands at one of them or at the end; or the place of the
/// first wrong entry, or the base.
pub(crate) fn list(
    alloc: Global,
    bytes: &[u8],
    base: u64,
) -> Result<Result<Vec<Definition>, u64>, AllocError>
    ensures { IfOk result (λ r.
        MatchResult r (λ ds. Lists bytes.now base (definitions_of ds.items)) (IsDamaged bytes.now base)) }
{
    let mut listed = Vec::new(alloc);
    let mut at = 0;
    let mut has_base = base == 0;
    while at < bytes.len() {
        let Some(found) = find_entry(alloc, &bytes[at..])? else {
            return Ok(Err(at as u64));
        };
        at += found.length;
        has_base = has_base || base == at as u64;
        add(&mut listed, found.definition)?;
    }
    if has_base {
        Ok(Ok(listed))
    } else {
        Ok(Err(base))
    }
}

/// The definitions that the changes file of a store keeps, in order, before they are indexed.
#[derive(Drop)]
pub struct Listing {
    pub(crate) listed: Vec<Definition>,
    pub(crate) length: u64,
    pub(crate) name: String,
    pub(crate) second: bool,
}

impl Model for Listing {
    ghost use Rattle.std.specs.Prelude.{All, string_bytes};
    ghost use Rattle.st_changes.specs.inside.Views.{definitions_of};
    ghost use Rattle.st_changes.specs.inside.States.{ChangesState, IsTotal, unreserved};
    ghost use Rattle.st_chunk.specs.Definitions.{IsDefinition};

    ghost Value = { ChangesState };

    ghost view = { λ l. unreserved (string_bytes l.name) l.second (definitions_of l.listed.items) };

    ghost invariant = { λ l. IsTotal l.length (definitions_of l.listed.items)
        × All IsDefinition (definitions_of l.listed.items) };
}

impl Listing {
    ghost use Rattle.std.specs.Prelude.{◌≡◌, ◌++◌, IfOk, length};
    ghost use Rattle.st_chunk.specs.Definitions.{entries};
    ghost use Rattle.st_changes.specs.{inside.Views.definitions_of, Lists.StandsAt, Last.FindsLast};

    /// The definitions before a place of the changes file, and those from it on. The place, in bytes from 0, is the first byte of an
    /// entry, or the end.
    pub fn split(&self, place: u64) -> (&[Definition], &[Definition])
        requires stands { StandsAt self.now.listed place }
        ensures all { definitions_of result.0.now ++ definitions_of result.1.now ≡ self.now.listed }
        ensures before { place ≡ length (entries (definitions_of result.0.now)) }
    {
        self.listed.split_at(count_before(&self.listed, place))
    }

    /// Indexes the definitions. For the last ones their selectors are handed over, none where a text means no tree; the texts of
    /// those before them are parsed.
    pub fn index(self, alloc: Global, selectors: &[Option<Text>]) -> Result<Changes, AllocError>
        requires finds { FindsLast self.listed selectors.now }
        ensures { IfOk result (λ changes. changes ≡ self) }
    {
        let Listing {
            listed,
            length,
            name,
            second,
        } = self;
        Ok(Changes {
            index: index_all(alloc, &listed, selectors)?,
            name,
            second,
            listed,
            length,
            ready: None,
        })
    }
}
