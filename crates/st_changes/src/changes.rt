// The list of the definitions that a changes file keeps.
use crate::Definition;
use crate::counting::{count_before, text_span};
use crate::index::Index;
use crate::noting::prepare;
use crate::selector::find_selector;
use crate::span::Span;
use crate::writing::{entry_length, entry_text};
use st_scan::Text;
use std::alloc::{AllocError, Global};
use std::marker::Model;

/// The entry of a definition that there is room for, and the definition's selector.
#[derive(Drop)]
pub(crate) struct ReservedEntry {
    pub(crate) entry: Text,
    pub(crate) selector: Option<Text>,
}

/// The definitions that the changes file of a store keeps, in order, with an index of them, and the entry that there is
/// room for.
#[derive(Drop)]
pub struct Changes {
    pub(crate) name: String,
    pub(crate) second: bool,
    pub(crate) listed: Vec<Definition>,
    pub(crate) index: Index,
    pub(crate) length: u64,
    pub(crate) ready: Option<ReservedEntry>,
}

impl Model for Changes {
    ghost use Rattle.std.specs.Prelude.{All, string_bytes};
    ghost use Rattle.std.specs.Vec.{vec_len, vec_capacity};
    ghost use Rattle.st_changes.specs.inside.Views.{definitions_of};
    ghost use Rattle.st_changes.specs.inside.States.{ChangesState, IsTotal, HasRoom};
    ghost use Rattle.st_changes.specs.inside.Readying.{reserved_of, IsReadyFor};
    ghost use Rattle.st_changes.specs.Last.{Answers};
    ghost use Rattle.st_chunk.specs.Definitions.{IsDefinition};
    ghost use Rattle.st_changes.specs.inside.IndexStates.{found};

    ghost Value = { ChangesState };

    ghost view = { λ c. record {
      name = string_bytes c.name;
      second = c.second;
      listed = definitions_of c.listed.items;
      reserved = reserved_of c.ready;
    } };

    ghost invariant = { λ c. IsTotal c.length (definitions_of c.listed.items)
        × HasRoom (vec_len c.listed) (vec_capacity c.listed) c.ready
        × Answers (definitions_of c.listed.items) (found c.index)
        × IsReadyFor c.index c.ready
        × All IsDefinition (definitions_of c.listed.items) };
}

/// The most bytes of a changes file.
const LIMIT: u64 = 1 << 30;

impl Changes {
    ghost use Rattle.std.specs.Prelude.{◌≡◌, ◌≤◌, ◌↔◌, Some, All, IsTrue, OnOk, OnErr, MatchOption, length, take};
    ghost use Rattle.st_chunk.specs.Definitions.{IsDefinition, entry, entries};
    ghost use Rattle.st_changes.specs.inside.Views.{definition_of, definitions_of};
    ghost use Rattle.st_changes.specs.inside.States.{FitsBehind};
    ghost use Rattle.st_changes.specs.Lists.{StandsAt};
    ghost use Rattle.std.specs.Option.{option_map};
    ghost use Rattle.st_changes.specs.Last.{FindsSelector, IsNowhere, IsLast, IsLastSpan, IsLastText};

    /// The definitions, in order.
    pub fn definitions(&self) -> &[Definition]
        ensures { definitions_of result.now ≡ self.now.listed }
    {
        self.listed.as_slice()
    }

    /// How many definitions stand before this place of the changes file, in bytes from 0: the first byte of an entry, or the end.
    pub fn count_before(&self, place: u64) -> usize
        requires good { All IsDefinition self.now.listed }
        requires stands { StandsAt self.now.listed place }
        ensures within { result ≤ length self.now.listed }
        ensures before { place ≡ length (entries (take result self.now.listed)) }
    {
        count_before(&self.listed, place)
    }

    /// Whether the changes file has at most 2^30 bytes with the entry of this definition behind it.
    pub fn fits(&self, definition: &Definition) -> bool
        requires { IsDefinition (definition_of definition.now) }
        ensures { IsTrue result ↔ FitsBehind self.now.listed (definition_of definition.now) }
    {
        let entry = entry_length(definition);
        self.length <= LIMIT && entry <= LIMIT - self.length
    }

    /// The number, from 0, of the last definition of this class, this side of it (the class side, or the instance side) and this
    /// selector; none if there is none.
    fn last_number(&self, class: &[u8], meta: bool, selector: &[u8]) -> Option<usize>
        ensures { MatchOption result (IsNowhere self.now.listed class.now meta selector.now)
            (IsLast self.now.listed class.now meta selector.now) }
    {
        self.index.find(class, meta, selector)
    }

    /// The place in the changes file of the text of the last definition of this class, this side of it and this
    /// selector; none if there is none. Of the text each `!` is doubled there.
    pub fn last(&self, class: &[u8], meta: bool, selector: &[u8]) -> Option<Span>
        ensures { MatchOption result (IsNowhere self.now.listed class.now meta selector.now)
            (IsLastSpan self.now.listed class.now meta selector.now) }
    {
        let number = self.last_number(class, meta, selector)?;
        Some(text_span(&self.listed, number, self.length))
    }

    /// The text of that definition, as it was defined.
    pub fn last_text(&self, class: &[u8], meta: bool, selector: &[u8]) -> Option<&[u8]>
        ensures { MatchOption (option_map (λ t. t.now) result)
            (IsNowhere self.now.listed class.now meta selector.now)
            (IsLastText self.now.listed class.now meta selector.now) }
    {
        let number = self.last_number(class, meta, selector)?;
        let listed = self.definitions();
        Some(&listed[number].text)
    }

    /// Takes the memory that `append` needs for this definition. After an error what was ready before is so still.
    pub fn reserve(&mut self, alloc: Global, definition: &Definition) -> Result<(), AllocError>
        requires { IsDefinition (definition_of definition.now) }
        ensures named { self.new.name ≡ self.old.name }
        ensures second { self.new.second ≡ self.old.second }
        ensures listed { self.new.listed ≡ self.old.listed }
        ensures reserved { OnOk result (self.new.reserved ≡ Some (entry (definition_of definition.now))) }
        ensures err { OnErr result (self.new.reserved ≡ self.old.reserved) }
    {
        let selector = find_selector(alloc, &definition.text)?;
        self.reserve_as(alloc, definition, selector)
    }

    /// The same for a definition whose text is parsed: of this selector, or of none where it means no tree.
    pub fn reserve_as(
        &mut self,
        alloc: Global,
        definition: &Definition,
        selector: Option<Text>,
    ) -> Result<(), AllocError>
        requires good { IsDefinition (definition_of definition.now) }
        requires finds { FindsSelector (definition_of definition.now).text
            (option_map (λ v. v.items) selector) }
        ensures named { self.new.name ≡ self.old.name }
        ensures second { self.new.second ≡ self.old.second }
        ensures listed { self.new.listed ≡ self.old.listed }
        ensures reserved { OnOk result (self.new.reserved ≡ Some (entry (definition_of definition.now))) }
        ensures err { OnErr result (self.new.reserved ≡ self.old.reserved) }
    {
        let entry = entry_text(alloc, definition)?;
        self.listed.reserve(1)?;
        prepare(alloc, &mut self.index, definition, &selector)?;
        self.ready = Some(ReservedEntry { entry, selector });
        Ok(())
    }
}
