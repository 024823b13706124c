ghost use Rattle.std.specs.Prelude.{◌≡◌, ◌<◌, ◌≤◌, ◌+◌, ◌*◌, ◌/◌, ℕ, length, false, IfOk};
ghost use Rattle.st_model.specs.Limits.{most_words};
ghost use Rattle.st_model.specs.Values.{value, Ref, is_small};
ghost use Rattle.st_model.specs.Objects.{one, words_of};
ghost use Rattle.st_model.specs.Formed.{IsMakeable, fresh};
ghost use Rattle.st_model.specs.Table.{total_used, settled_table, first_free, placed};
ghost use Rattle.st_model.specs.Settled.{is_marked};
ghost use Rattle.st_model.specs.View.{empty_view, head_of, fits, IsWhole};

use crate::adding::{fields_of, units_of};
use crate::marks::Marks;
use crate::objects::Objects;
use crate::roots::mark_roots;
use st_counted::{Head, Roots};
use st_model::{Demand, Kind, Oop};
use std::alloc::{AllocError, Global};
use std::mem::swap;

/// What a memory consists of, whole or not yet.
#[derive(Drop)]
pub struct Contents {
    /// The objects.
    pub objects: Objects,
    /// Room for the same objects, which they are copied to where their free fields or units are used up.
    pub spare: Objects,
    /// What is held.
    pub roots: Roots,
    /// What the head of the image said.
    pub head: Head,
    /// Room for the marks of a search for what is needed.
    pub marks: Marks,
}

impl Contents {
    ghost use Rattle.st_plain.specs.inside.ListsPlain.{extent_of, unused};
    ghost use Rattle.st_plain.specs.inside.Plain.{plain_view, is_needed, AreLong};

    /// No objects under a head, and nothing held.
    pub fn new(alloc: Global, head: Head) -> Result<Contents, AllocError>
        requires { head.capacity.words ≤ most_words }
        ensures empty { let said = head_of head.capacity head.globals head.symbols in
            IfOk result (λ c. plain_view c ≡ empty_view said) }
        ensures extent { IfOk result (λ c. extent_of c.objects ≡ unused head.capacity.words) }
        ensures spare { IfOk result (λ c. extent_of c.spare ≡ unused head.capacity.words) }
        ensures head { IfOk result (λ c. c.head ≡ head) }
    {
        let objects = Objects::new(alloc, head.capacity.words)?;
        let spare = Objects::new(alloc, head.capacity.words)?;
        let roots = Roots::new(alloc)?;
        let marks = Marks::new(alloc)?;
        Ok(Contents {
            objects,
            spare,
            roots,
            head,
            marks,
        })
    }

    /// Marks the roots and what the objects refer to, and no other name of an object.
    fn mark_needed(&mut self)
        ensures marked { (n : ℕ) → n < self.old.objects.table_end
            → is_marked self.new.marks.names.items n ≡ is_needed (plain_view self.old) n }
        ensures rest { self.new ≡ record self.old { marks = self.new.marks } }
    {
        self.marks.clear(self.objects.table_end as usize);
        self.marks.mark_page();
        self.marks.mark_table(self.head.globals);
        self.marks.mark_table(self.head.symbols);
        mark_roots(&self.roots, &mut self.marks);
        self.objects.mark_references(&mut self.marks);
    }

    /// Takes away each object that is no root and that no object refers to, and answers how many there were.
    pub fn drop_unneeded(&mut self) -> u32
        ensures objects { let old = plain_view self.old in
            (plain_view self.new).objects ≡ settled_table old.objects (is_needed old) }
        ensures held { (plain_view self.new).held ≡ (plain_view self.old).held }
        ensures head { (plain_view self.new).head ≡ (plain_view self.old).head }
        ensures gone { total_used one (plain_view self.new).objects + result
            ≡ total_used one (plain_view self.old).objects }
        ensures long { AreLong self.old → AreLong self.new }
    {
        self.mark_needed();
        self.objects.keep_marked(&self.marks)
    }

    /// Whether d fits within the capacities beside the objects.
    pub fn room(&self, d: Demand) -> bool
        requires { IsWhole (plain_view self.now) }
        ensures { result ≡ fits (plain_view self.now) d }
    {
        let used = self.objects.used();
        let capacity = self.head.capacity;
        d.entries <= capacity.entries - used.entries && d.words <= capacity.words - used.words
    }

    /// Leaves so many free fields and units behind those in use.
    fn free(&mut self, fields: u32, units: u32)
        requires long { AreLong self.old }
        requires small { 2 * fields + units ≤ 131066 }
        requires fits { let used = total_used words_of (plain_view self.old).objects in
            2 * used + 2 * fields + units ≤ 2 * self.old.head.capacity.words }
        ensures objects { (plain_view self.new).objects ≡ (plain_view self.old).objects }
        ensures fields_end { self.new.objects.next_field + fields ≤ length self.new.objects.pointers.items }
        ensures units_end { self.new.objects.next_unit + units ≤ length self.new.objects.units.items }
        ensures long { AreLong self.new }
        ensures held { (plain_view self.new).held ≡ (plain_view self.old).held }
        ensures head { self.new.head ≡ self.old.head }
    {
        let fields_end = self.objects.next_field + fields;
        let units_end = self.objects.next_unit + units;
        if fields_end as usize <= self.objects.pointers.len()
            && units_end as usize <= self.objects.units.len()
        {
            return;
        }
        self.spare.close_up(&self.objects);
        swap(&mut self.objects, &mut self.spare);
    }

    /// A new object at the least free pointer.
    pub fn make(&mut self, class: Oop, kind: Kind, size: u32, literals: u32) -> Oop
        requires long { AreLong self.old }
        requires left { first_free (plain_view self.old).objects < 32768 }
        requires class { is_small (value class) ≡ false }
        requires makeable { IsMakeable (class.0 / 2) kind size literals }
        requires words { let used = total_used words_of (plain_view self.old).objects in
            used + words_of (fresh (class.0 / 2) kind size literals) ≤ self.old.head.capacity.words }
        ensures pointer { value result ≡ Ref (first_free (plain_view self.old).objects) }
        ensures objects { let o = fresh (class.0 / 2) kind size literals in
            (plain_view self.new).objects ≡ placed (plain_view self.old).objects o }
        ensures held { (plain_view self.new).held ≡ (plain_view self.old).held }
        ensures head { (plain_view self.new).head ≡ (plain_view self.old).head }
        ensures long { AreLong self.new }
    {
        let fields = fields_of(class, kind, size, literals);
        let units = units_of(class, kind, size, literals);
        self.free(fields, units);
        self.objects.make(class, kind, size, literals)
    }
}
