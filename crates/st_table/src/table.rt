ghost use Rattle.std.specs.Prelude.{◌≡◌, ℕ, ◌+◌, ◌≤◌, ◌↔◌, Some, None, replicate, slice_set, IfOk, IfSome, IfNone, IsSome, IsTrue};
ghost use Rattle.st_table.specs.inside.Entries.{place, entry_of, with_next, with_before, HasEntry, IsFree, IsLeastFree};
ghost use Rattle.st_model.specs.declared.oop.Oop.{Oop as Pointer};

use crate::entry::Entry;
use crate::free_map::FreeMap;
use st_model::Oop;
use std::alloc::{AllocError, Global};
use std::marker::Model;

/// A table that serves the pointers from 2 to twice its number of entries. Clauses see it as a list, which has at each place
/// the entry of the pointer that is twice the place, or none.
#[derive(Drop)]
pub struct Table {
    entries: Vec<Option<Entry>>,
    places: FreeMap,
}

impl Model for Table {
    ghost use Rattle.std.specs.Prelude.{List, Option};
    ghost use Rattle.st_table.specs.declared.entry.Entry.{Entry as Kept};
    ghost use Rattle.st_table.specs.inside.Mapped.{IsMapped};

    ghost Value = { List (Option Kept) };

    ghost view = { λ t. t.entries.items };

    ghost invariant = { λ t. IsMapped t.places.words.items t.entries.items };
}

impl Table {
    /// A table without entries that serves the pointers from 2 to 2n.
    pub fn new(alloc: Global, entries: u32) -> Result<Table, AllocError>
        requires { entries ≤ 32767 }
        ensures { IfOk result (λ t. t ≡ replicate (entries + 1) None) }
    {
        let places = FreeMap::with_free(alloc, entries as usize)?;
        let entries = no_entries(alloc, entries as usize + 1)?;
        Ok(Table { entries, places })
    }

    /// The least pointer that it serves and that has no entry.
    pub fn least_free(&self) -> Option<Oop>
        ensures least { IfSome result (IsLeastFree self.now) }
        ensures none { IfNone result ((p : Pointer) → ¬ IsFree self.now p) }
    {
        let k = self.places.least_free()?;
        Some(Oop(2 * k as u16))
    }

    /// Whether a pointer has an entry.
    pub fn has(&self, o: Oop) -> bool
        ensures { IsTrue result ↔ HasEntry self.now o }
    {
        let k = (o.0 / 2) as usize;
        o.0 % 2 == 0 && k < self.entries.len() && self.entries[k].is_some()
    }

    /// The entry of a pointer.
    pub fn entry(&self, o: Oop) -> Entry
        requires { HasEntry self.now o }
        ensures { entry_of self.now o ≡ Some result }
    {
        self.entries[(o.0 / 2) as usize].unwrap()
    }

    /// Gives a pointer without an entry one.
    pub fn take_entry(&mut self, o: Oop, e: Entry)
        requires { IsFree self.old o }
        ensures { self.new ≡ slice_set self.old (place o) (Some e) }
    {
        let k = (o.0 / 2) as usize;
        self.places.take(k);
        self.entries[k] = Some(e);
    }

    /// Changes the entry of a pointer.
    pub fn set_entry(&mut self, o: Oop, e: Entry)
        requires { HasEntry self.old o }
        ensures { self.new ≡ slice_set self.old (place o) (Some e) }
    {
        self.entries[(o.0 / 2) as usize] = Some(e);
    }

    /// Has another follow what has an entry at the place of a pointer, in the list that it is in.
    pub fn set_next(&mut self, o: Oop, next: Oop)
        requires { IsSome (entry_of self.old o) }
        ensures { self.new ≡ slice_set self.old (place o) (with_next (entry_of self.old o) next) }
    {
        match &mut self.entries[(o.0 / 2) as usize] {
            Some(entry) => entry.next = next,
            None => unreachable!(),
        }
    }

    /// Has another stand before it there.
    pub fn set_before(&mut self, o: Oop, before: Oop)
        requires { IsSome (entry_of self.old o) }
        ensures { self.new ≡ slice_set self.old (place o) (with_before (entry_of self.old o) before) }
    {
        match &mut self.entries[(o.0 / 2) as usize] {
            Some(entry) => entry.before = before,
            None => unreachable!(),
        }
    }

    /// Takes the entry of a pointer away.
    pub fn free_entry(&mut self, o: Oop)
        requires { HasEntry self.old o }
        ensures { self.new ≡ slice_set self.old (place o) None }
    {
        let k = (o.0 / 2) as usize;
        self.places.free(k);
        self.entries[k] = None;
    }
}

/// Places without entries.
fn no_entries(alloc: Global, n: usize) -> Result<Vec<Option<Entry>>, AllocError>
    ensures { IfOk result (λ v. v.items ≡ replicate n None) }
{
    vec![in alloc; None; n]
}
