ghost use Rattle.std.specs.Prelude.{◌≡◌, ◌<◌, ◌≤◌, ℕ, length, true, false, Some, None, IfSome, IfNone, IfOk, slice_get};
ghost use Rattle.st_model.specs.Limits.{most_words};
ghost use Rattle.st_model.specs.Values.{value};
ghost use Rattle.st_model.specs.Objects.{one, words_of};
ghost use Rattle.st_model.specs.Table.{entry, total_used};
ghost use Rattle.st_model.specs.Settled.{object_names};
ghost use Rattle.st_model.specs.View.{is_live, object_of, with_exchanged, with_stored, with_unit};
ghost use Rattle.st_plain.specs.inside.Marked.{AddsMarks};
ghost use Rattle.st_plain.specs.inside.Lists.{IsLaidOut, IsCounted, IsFull, IsPlaced, slot, entry_of, entry_object};

use crate::entry::Entry;
use crate::lists::{empty_places, nil_words, zero_units};
use crate::marks::Marks;
use st_model::{Demand, Oop};
use std::alloc::{AllocError, Global};

/// The objects of a memory. Entry k is that of pointer 2k; the fields and units of all objects stand in a list each.
#[derive(Drop)]
pub struct Objects {
    /// An entry for each place that has an object.
    pub entries: Vec<Option<Entry>>,
    /// A field of an object in each.
    pub pointers: Vec<Oop>,
    /// A word, or a byte, of an object in each.
    pub units: Vec<u16>,
    /// The places of the table from here on are empty.
    pub table_end: u32,
    /// The first pointer that no object has had.
    pub next_field: u32,
    /// The first unit that no object has had.
    pub next_unit: u32,
    /// How many objects there are, and how many words they have.
    pub used: Demand,
    /// Each place from 1 up to here has an object.
    pub full_end: u32,
    pub ghost laid_out: { IsLaidOut entries.items (length pointers.items) (length units.items)
        table_end next_field next_unit },
    ghost counted: { IsCounted entries.items used },
    ghost full: { IsFull entries.items full_end },
}

impl Objects {
    ghost use Rattle.st_plain.specs.inside.ListsPlain.{objects_of, is_referred, extent_of, unused};

    /// No objects, and room for the fields and units of so many words.
    pub fn new(alloc: Global, words: u32) -> Result<Objects, AllocError>
        requires { words ≤ most_words }
        ensures places { IfOk result (λ o. length (objects_of o) ≡ 32768) }
        ensures empty { IfOk result (λ o. (k : ℕ) → entry (objects_of o) k ≡ None) }
        ensures extent { IfOk result (λ o. extent_of o ≡ unused words) }
    {
        let entries = empty_places(alloc, 32768)?;
        let pointers = nil_words(alloc, words as usize)?;
        let units = zero_units(alloc, 2 * words as usize)?;
        Ok(Objects {
            entries,
            pointers,
            units,
            table_end: 0,
            next_field: 0,
            next_unit: 0,
            used: Demand {
                entries: 0,
                words: 0,
            },
            full_end: 1,
        })
    }

    /// The entry at a place.
    pub fn slot(&self, k: usize) -> Option<Entry>
        ensures slot { result ≡ slot self.now.entries.items k }
        ensures placed { IfSome result (IsPlaced self.now.next_field self.now.next_unit) }
    {
        match self.entries.get(k) {
            Some(entry) => *entry,
            None => None,
        }
    }

    /// The entry of a word.
    #[tactic(auto, using(crate::proofs::Slots::slots))]
    fn entry(&self, o: Oop) -> Option<Entry>
        ensures { result ≡ entry_of self.now.entries.items (value o) }
    {
        if o.is_small() {
            return None;
        }
        self.slot(usize::from(o.0 >> 1))
    }

    /// Whether the word is the pointer of an object.
    #[tactic(auto, using(crate::proofs::Slots::lives))]
    pub fn live(&self, o: Oop) -> bool
        ensures { result ≡ is_live (objects_of self.now) (value o) }
    {
        self.entry(o).is_some()
    }

    /// The entry of a live pointer.
    #[tactic(auto, using(crate::proofs::Slots::lives))]
    pub fn live_entry(&self, o: Oop) -> Entry
        requires { is_live (objects_of self.now) (value o) ≡ true }
        ensures entry { entry_of self.now.entries.items (value o) ≡ Some result }
        ensures object { object_of (objects_of self.now) (value o)
            ≡ entry_object self.now.pointers.items self.now.units.items result }
        ensures placed { IsPlaced self.now.next_field self.now.next_unit result }
    {
        self.entry(o).unwrap()
    }

    /// Field `at` of an object.
    pub fn field(&self, o: Oop, at: u32) -> Oop
        requires live { is_live (objects_of self.now) (value o) ≡ true }
        requires range { at < length (object_of (objects_of self.now) (value o)).fields }
        ensures { slice_get (object_of (objects_of self.now) (value o)).fields at ≡ Some (value result) }
    {
        let entry = self.live_entry(o);
        self.pointers[(entry.fields_at + at) as usize]
    }

    /// Unit `at` of an object.
    pub fn unit(&self, o: Oop, at: u32) -> u16
        requires live { is_live (objects_of self.now) (value o) ≡ true }
        requires range { at < length (object_of (objects_of self.now) (value o)).units }
        ensures { slice_get (object_of (objects_of self.now) (value o)).units at ≡ Some result }
    {
        let entry = self.live_entry(o);
        self.units[(entry.units_at + at) as usize]
    }

    /// Stores v in field `at`.
    pub fn set_field(&mut self, o: Oop, at: u32, v: Oop)
        requires live { is_live (objects_of self.old) (value o) ≡ true }
        requires range { at < length (object_of (objects_of self.old) (value o)).fields }
        ensures objects { objects_of self.new ≡ with_stored (objects_of self.old) (value o) at (value v) }
        ensures extent { extent_of self.new ≡ extent_of self.old }
    {
        let entry = self.live_entry(o);
        self.pointers[(entry.fields_at + at) as usize] = v;
    }

    /// Stores v in unit `at`.
    pub fn set_unit(&mut self, o: Oop, at: u32, v: u16)
        requires live { is_live (objects_of self.old) (value o) ≡ true }
        requires range { at < length (object_of (objects_of self.old) (value o)).units }
        ensures objects { objects_of self.new ≡ with_unit (objects_of self.old) (value o) at v }
        ensures extent { extent_of self.new ≡ extent_of self.old }
    {
        let entry = self.live_entry(o);
        self.units[(entry.units_at + at) as usize] = v;
    }

    /// Exchanges the objects of two pointers.
    pub fn exchange(&mut self, a: Oop, b: Oop)
        requires first { is_live (objects_of self.old) (value a) ≡ true }
        requires second { is_live (objects_of self.old) (value b) ≡ true }
        ensures objects { objects_of self.new ≡ with_exchanged (objects_of self.old) (value a) (value b) }
        ensures extent { extent_of self.new ≡ extent_of self.old }
    {
        let first = self.live_entry(a);
        let second = self.live_entry(b);
        self.entries[usize::from(a.0 >> 1)] = Some(second);
        self.entries[usize::from(b.0 >> 1)] = Some(first);
    }

    /// How many objects there are, and how many words they have.
    pub fn used(&self) -> Demand
        ensures { let objects = objects_of self.now in
            result ≡ record { entries = total_used one objects; words = total_used words_of objects } }
    {
        self.used
    }

    /// The least pointer of an object above `after`.
    pub fn next_live(&self, after: u32) -> Option<Oop>
        ensures found { IfSome result (λ o. (is_live (objects_of self.now) (value o) ≡ true)
            × (after < o.0)) }
        ensures least { IfSome result (λ o. (p : Oop) → after < p.0 → p.0 < o.0
            → is_live (objects_of self.now) (value p) ≡ false) }
        ensures none { IfNone result ((p : Oop) → after < p.0
            → is_live (objects_of self.now) (value p) ≡ false) }
    {
        for k in after as usize / 2 + 1..self.table_end as usize {
            if self.slot(k).is_some() {
                return Some(Oop((2 * k) as u16));
            }
        }
        None
    }

    /// Marks what the object at a place refers to.
    fn mark_from(&self, k: usize, marks: &mut Marks)
        ensures { let named = object_names (entry (objects_of self.now) k) in
            AddsMarks marks.old.names.items marks.new.names.items named }
    {
        if let Some(e) = self.slot(k) {
            let first = e.fields_at as usize;
            marks.mark_all(&self.pointers[first..first + e.fields as usize]);
            marks.mark(e.class);
        }
    }

    /// Marks what the objects refer to.
    pub fn mark_references(&self, marks: &mut Marks)
        ensures { AddsMarks marks.old.names.items marks.new.names.items (is_referred (objects_of self.now)) }
    {
        for k in 0..self.table_end as usize {
            self.mark_from(k, marks);
        }
    }
}
