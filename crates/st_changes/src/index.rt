// An index of definitions by their numbers.
ghost use Rattle.std.specs.Prelude.{◌≡◌, ◌≤◌, ℕ, Bool, List, OnOk, Some, None};
ghost use Rattle.st_changes.specs.inside.IndexStates.{found, HasName, updated};

use indexmap::{IndexMap, IndexSet};
use std::alloc::{AllocError, Global};
use std::marker::Model;

/// Of each class, side of it and selector the number of the definition that was noted last. Look-ups take no memory.
#[derive(Drop)]
pub struct Index {
    // The names of classes and selectors. A name's place is its number.
    names: IndexSet<Vec<u8>>,
    // By a class's number, whether it is the class side, and a selector's number.
    last: IndexMap<(usize, bool, usize), usize>,
}

impl Model for Index {
    ghost use Rattle.std.specs.HashMap.{spare};
    ghost use Rattle.st_changes.specs.inside.IndexStates.{IndexState, IsBounded};

    ghost Value = { IndexState };

    ghost view = { λ x. record { names = x.names.keys; last = x.last.entries; room = spare x.last } };

    ghost invariant = { λ x. IsBounded x.names.keys x.last.entries };
}

impl Index {
    /// An index in which nothing is noted.
    pub fn new(alloc: Global) -> Index
        ensures { (c : List ℕ) (m : Bool) (s : List ℕ) → found result c m s ≡ None }
    {
        Index {
            names: IndexSet::new(alloc),
            last: IndexMap::new(alloc),
        }
    }

    /// The number that was noted last of a class, a side of it and a selector.
    pub fn find(&self, class: &[u8], meta: bool, selector: &[u8]) -> Option<usize>
        ensures { result ≡ found self.now class.now meta selector.now }
    {
        let class = self.names.get_index_of(class)?;
        let selector = self.names.get_index_of(selector)?;
        self.last.get(&(class, meta, selector)).copied()
    }

    /// Gives a name its number, if it has none yet.
    fn add_name(&mut self, alloc: Global, name: &[u8]) -> Result<(), AllocError>
        ensures same { (c : List ℕ) (m : Bool) (s : List ℕ) → found self.new c m s ≡ found self.old c m s }
        ensures named { OnOk result (HasName self.new name.now) }
        ensures keeps { (n : List ℕ) → HasName self.old n → HasName self.new n }
        ensures room { self.new.room ≡ self.old.room }
    {
        if self.names.get_index_of(name).is_some() {
            return Ok(());
        }
        let mut owned = Vec::new(alloc);
        owned.extend_from_slice(name)?;
        self.names.insert(owned)?;
        Ok(())
    }

    /// Takes the memory that noting of a class and a selector needs.
    pub fn reserve(
        &mut self,
        alloc: Global,
        class: &[u8],
        selector: &[u8],
    ) -> Result<(), AllocError>
        ensures same { (c : List ℕ) (m : Bool) (s : List ℕ) → found self.new c m s ≡ found self.old c m s }
        ensures class { OnOk result (HasName self.new class.now) }
        ensures selector { OnOk result (HasName self.new selector.now) }
        ensures ready { OnOk result (1 ≤ self.new.room) }
        ensures keeps { (n : List ℕ) → HasName self.old n → HasName self.new n }
        ensures room { self.old.room ≤ self.new.room }
    {
        self.add_name(alloc, class)?;
        self.add_name(alloc, selector)?;
        self.last.reserve(1)?;
        Ok(())
    }

    /// Notes the number of a definition of a class, a side of it and a selector, in place of an earlier one. It takes no memory.
    pub fn note(&mut self, class: &[u8], meta: bool, selector: &[u8], number: usize)
        requires class { HasName self.old class.now }
        requires selector { HasName self.old selector.now }
        requires ready { 1 ≤ self.old.room }
        ensures { (c : List ℕ) (m : Bool) (s : List ℕ) → found self.new c m s
            ≡ updated (found self.old) class.now meta selector.now number c m s }
    {
        let (Some(class), Some(selector)) = (
            self.names.get_index_of(class),
            self.names.get_index_of(selector),
        ) else {
            unreachable!()
        };
        let Ok(_) = self.last.insert((class, meta, selector), number) else {
            unreachable!()
        };
    }
}
