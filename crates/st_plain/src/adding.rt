ghost use Rattle.std.specs.Prelude.{◌≡◌, ◌<◌, ◌≤◌, ◌+◌, ◌/◌, ◌*◌, length, take, drop, replicate, map, false, Some, None, slice_set};
ghost use Rattle.st_model.specs.Values.{value, Ref, is_small};
ghost use Rattle.st_model.specs.Formed.{IsMakeable, fresh};
ghost use Rattle.st_model.specs.Table.{first_free, placed};
ghost use Rattle.st_model.specs.View.{is_live, with_object};
ghost use Rattle.st_counted.specs.inside.Words.{nil_word};
ghost use Rattle.st_plain.specs.inside.Lists.{slot, cleared, new_entry, words_for, entry_object, IsFull};
ghost use Rattle.st_plain.specs.inside.ListsPlain.{objects_of, extent_of, with_taken};

use crate::entry::Entry;
use crate::objects::Objects;
use crate::runs::{copy_run, fill_run};
use st_model::{Demand, Kind, Oop};

impl Objects {
    /// An object whose fields and units are the first free ones, as they stand.
    pub fn add(&mut self, k: usize, class: Oop, kind: Kind, fields: u32, units: u32)
        requires within { k < 32768 }
        requires free { slot self.old.entries.items k ≡ None }
        requires class { is_small (value class) ≡ false }
        requires small { 2 * fields + units ≤ 131066 }
        requires parts { 2 * fields + units ≤ 2 * words_for kind fields units }
        requires fields_end { self.old.next_field + fields ≤ length self.old.pointers.items }
        requires units_end { self.old.next_unit + units ≤ length self.old.units.items }
        ensures objects { let e = new_entry class kind self.old.next_field fields self.old.next_unit units in
            let o = entry_object self.old.pointers.items self.old.units.items e in
            objects_of self.new ≡ slice_set (objects_of self.old) k (Some o) }
        ensures extent { extent_of self.new ≡ with_taken (extent_of self.old) fields units }
    {
        let entry = Entry {
            class,
            kind,
            fields_at: self.next_field,
            fields,
            units_at: self.next_unit,
            units,
        };
        self.entries[k] = Some(entry);
        self.table_end = self.table_end.max(k as u32 + 1);
        self.next_field += fields;
        self.next_unit += units;
        self.used = Demand {
            entries: self.used.entries + 1,
            words: self.used.words + entry.words(),
        };
    }

    /// Makes the first free fields nil and the first free units 0.
    fn clear_free(&mut self, fields: u32, units: u32)
        requires fields_end { self.old.next_field + fields ≤ length self.old.pointers.items }
        requires units_end { self.old.next_unit + units ≤ length self.old.units.items }
        ensures objects { objects_of self.new ≡ objects_of self.old }
        ensures entries { self.new.entries.items ≡ self.old.entries.items }
        ensures extent { extent_of self.new ≡ extent_of self.old }
        ensures fields { take fields (drop self.old.next_field self.new.pointers.items)
            ≡ replicate fields nil_word }
        ensures units { take units (drop self.old.next_unit self.new.units.items) ≡ replicate units 0 }
    {
        fill_run(
            self.pointers.as_mut_slice(),
            self.next_field as usize,
            fields as usize,
            Oop::NIL,
        );
        fill_run(
            self.units.as_mut_slice(),
            self.next_unit as usize,
            units as usize,
            0,
        );
    }

    /// Copies fields and units to the first free ones.
    pub fn copy_free(&mut self, fields: &[Oop], units: &[u16])
        requires fields_end { self.old.next_field + length fields.now ≤ length self.old.pointers.items }
        requires units_end { self.old.next_unit + length units.now ≤ length self.old.units.items }
        ensures objects { objects_of self.new ≡ objects_of self.old }
        ensures entries { self.new.entries.items ≡ self.old.entries.items }
        ensures extent { extent_of self.new ≡ extent_of self.old }
        ensures fields { take (length fields.now) (drop self.old.next_field self.new.pointers.items)
            ≡ fields.now }
        ensures units { take (length units.now) (drop self.old.next_unit self.new.units.items) ≡ units.now }
    {
        copy_run(
            self.pointers.as_mut_slice(),
            self.next_field as usize,
            fields,
        );
        copy_run(self.units.as_mut_slice(), self.next_unit as usize, units);
    }

    /// A new object of nil and 0 at a pointer.
    fn place_cleared(&mut self, at: Oop, class: Oop, kind: Kind, fields: u32, units: u32)
        requires even { is_small (value at) ≡ false }
        requires free { is_live (objects_of self.old) (value at) ≡ false }
        requires class { is_small (value class) ≡ false }
        requires small { 2 * fields + units ≤ 131066 }
        requires parts { 2 * fields + units ≤ 2 * words_for kind fields units }
        requires fields_end { self.old.next_field + fields ≤ length self.old.pointers.items }
        requires units_end { self.old.next_unit + units ≤ length self.old.units.items }
        ensures objects { objects_of self.new
            ≡ with_object (objects_of self.old) (value at) (cleared (class.0 / 2) kind fields units) }
        ensures extent { extent_of self.new ≡ with_taken (extent_of self.old) fields units }
    {
        self.clear_free(fields, units);
        self.add(usize::from(at.0 >> 1), class, kind, fields, units);
    }

    /// A new object at a free pointer, with fields of nil, units of 0 and, in a Method, its literal count.
    pub fn place(&mut self, at: Oop, class: Oop, kind: Kind, size: u32, literals: u32)
        requires even { is_small (value at) ≡ false }
        requires free { is_live (objects_of self.old) (value at) ≡ false }
        requires class { is_small (value class) ≡ false }
        requires makeable { IsMakeable (class.0 / 2) kind size literals }
        requires fields_end { let o = fresh (class.0 / 2) kind size literals in
            self.old.next_field + length o.fields ≤ length self.old.pointers.items }
        requires units_end { let o = fresh (class.0 / 2) kind size literals in
            self.old.next_unit + length o.units ≤ length self.old.units.items }
        ensures objects { let o = fresh (class.0 / 2) kind size literals in
            objects_of self.new ≡ with_object (objects_of self.old) (value at) o }
        ensures extent { let o = fresh (class.0 / 2) kind size literals in
            extent_of self.new ≡ with_taken (extent_of self.old) (length o.fields) (length o.units) }
    {
        let fields = fields_of(class, kind, size, literals);
        let units = units_of(class, kind, size, literals);
        self.place_cleared(at, class, kind, fields, units);
        if kind.is_method() {
            self.set_field(at, 0, Oop(2 * literals as u16 + 1));
        }
    }

    /// The least free place from 1 up.
    fn least_free(&self) -> u32
        ensures least { result ≡ first_free (objects_of self.now) }
        ensures full { IsFull self.now.entries.items result }
    {
        let mut k = self.full_end.max(1);
        while self.slot(k as usize).is_some() {
            k += 1;
        }
        k
    }

    /// A new object at the least free pointer.
    pub fn make(&mut self, class: Oop, kind: Kind, size: u32, literals: u32) -> Oop
        requires left { first_free (objects_of self.old) < 32768 }
        requires class { is_small (value class) ≡ false }
        requires makeable { IsMakeable (class.0 / 2) kind size literals }
        requires fields_end { let o = fresh (class.0 / 2) kind size literals in
            self.old.next_field + length o.fields ≤ length self.old.pointers.items }
        requires units_end { let o = fresh (class.0 / 2) kind size literals in
            self.old.next_unit + length o.units ≤ length self.old.units.items }
        ensures pointer { value result ≡ Ref (first_free (objects_of self.old)) }
        ensures objects { let o = fresh (class.0 / 2) kind size literals in
            objects_of self.new ≡ placed (objects_of self.old) o }
        ensures extent { let o = fresh (class.0 / 2) kind size literals in
            extent_of self.new ≡ with_taken (extent_of self.old) (length o.fields) (length o.units) }
    {
        let k = self.least_free();
        let at = Oop((2 * k) as u16);
        self.place(at, class, kind, size, literals);
        self.full_end = k + 1;
        at
    }
}

/// How many fields a new object has.
pub fn fields_of(class: Oop, kind: Kind, size: u32, literals: u32) -> u32
    requires { IsMakeable (class.0 / 2) kind size literals }
    ensures { result ≡ length (fresh (class.0 / 2) kind size literals).fields }
{
    match kind {
        Kind::Pointers => size,
        Kind::Words | Kind::Bytes => 0,
        Kind::Method => literals + 1,
    }
}

/// How many units a new object has.
pub fn units_of(class: Oop, kind: Kind, size: u32, literals: u32) -> u32
    requires { IsMakeable (class.0 / 2) kind size literals }
    ensures { result ≡ length (fresh (class.0 / 2) kind size literals).units }
{
    match kind {
        Kind::Pointers => 0,
        Kind::Words | Kind::Bytes => size,
        Kind::Method => size - 2 * (literals + 1),
    }
}
