// The order in which things are made.
ghost use Rattle.std.specs.Prelude.{◌≡◌, ◌<◌, length, not, slice_get, Some, IfSome, IfOk, OnOk};
ghost use Rattle.std.specs.List.{position};
ghost use Rattle.st_first_objects.specs.Things.{same};
ghost use Rattle.st_first_objects.specs.Orders.{empty, is_made, put, with_symbol, want, want_all};
ghost use Rattle.st_first_objects.specs.inside.Views.{thing_of, things_of};

use crate::thing::{Thing, What};
use indexmap::IndexSet;
use std::alloc::{AllocError, Global};
use std::marker::Model;

/// Things in the order of their making, how many of them are Symbols, and how many places the symbol table has.
#[derive(Drop)]
pub(crate) struct Order<'a> {
    things: IndexSet<Thing<'a>>,
    symbols: usize,
    places: usize,
}

impl<'a> Model for Order<'a> {
    ghost use Rattle.st_first_objects.specs.Orders.{Order};
    ghost use Rattle.st_first_objects.specs.inside.Views.{things_of};

    ghost Value = { Order };

    ghost view = { λ o. record { things = things_of o.things.keys; symbols = o.symbols; places = o.places } };
}

impl<'a> Order<'a> {
    /// Nothing is made.
    pub(crate) fn new(alloc: Global) -> Order<'a>
        ensures { result ≡ empty }
    {
        Order {
            things: IndexSet::new(alloc),
            symbols: 0,
            places: 16,
        }
    }

    /// How many things there are.
    pub(crate) fn count(&self) -> usize
        ensures { result ≡ length self.now.things }
    {
        self.things.len()
    }

    /// How many places the symbol table has.
    pub(crate) fn places(&self) -> usize
        ensures { result ≡ self.now.places }
    {
        self.places
    }

    /// The thing that is made as this one, counted from 0.
    pub(crate) fn thing(&self, i: usize) -> Thing<'a>
        requires { i < length self.now.things }
        ensures { slice_get self.now.things i ≡ Some (thing_of result) }
    {
        let Some(thing) = self.things.get_index(i) else {
            unreachable!()
        };
        *thing
    }

    /// As which a thing is made, counted from 0.
    pub(crate) fn position(&self, thing: &Thing<'a>) -> Option<usize>
        ensures found { result ≡ position (same (thing_of thing.now)) self.now.things }
        ensures within { IfSome result (λ i. i < length self.now.things) }
    {
        self.things.get_index_of(thing)
    }

    /// Makes a thing that isn't there, and says whether it did.
    fn put(&mut self, thing: Thing<'a>) -> Result<bool, AllocError>
        ensures added { IfOk result (λ added. added ≡ not (is_made self.old (thing_of thing.entry))) }
        ensures put { OnOk result (self.new ≡ put self.old (thing_of thing.entry)) }
    {
        let (_, added) = self.things.insert_full(thing)?;
        Ok(added)
    }

    /// Counts a Symbol more, for which the symbol table grows where it is full.
    fn add_symbol(&mut self) -> Result<(), AllocError>
        ensures { OnOk result (self.new ≡ with_symbol self.old) }
    {
        let is_full = self.symbols == self.places;
        self.symbols = self.symbols.checked_add(1).ok_or(AllocError)?;
        if is_full {
            self.places = self.places.checked_mul(2).ok_or(AllocError)?;
            self.put(Thing::numbered(What::SymbolTable, self.places))?;
        }
        Ok(())
    }

    /// A thing is wanted.
    #[tactic(auto, unfolding(crate::specs::Orders::want))]
    pub(crate) fn want(&mut self, thing: Thing<'a>) -> Result<(), AllocError>
        ensures { OnOk result (self.new ≡ want self.old (thing_of thing.entry)) }
    {
        let is_symbol = thing.is(What::Symbol);
        let added = self.put(thing)?;
        if added && is_symbol {
            self.add_symbol()?;
        }
        Ok(())
    }

    /// These things are wanted.
    pub(crate) fn want_all(&mut self, things: &[Thing<'a>]) -> Result<(), AllocError>
        ensures { OnOk result (self.new ≡ want_all self.old (things_of things.now)) }
    {
        for thing in things {
            self.want(*thing)?;
        }
        Ok(())
    }
}
