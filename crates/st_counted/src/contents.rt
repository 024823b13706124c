ghost use Rattle.std.specs.Prelude.{◌≡◌, ◌+◌, ◌<◌, ◌/◌, ◌==◌, ℕ, true, false, None, [], length, slice_set, IfOk, IfSome, IfNone, if◌then◌else◌};
ghost use Rattle.st_model.specs.Values.{value, Ref};
ghost use Rattle.st_model.specs.Formed.{IsHeader, IsMakeable, fresh};
ghost use Rattle.st_model.specs.Table.{first_free, placed};
ghost use Rattle.st_model.specs.View.{empty_view, head_of, fits, IsWhole, IsPlace, IsKnown, is_live, object_of, with_held, demand_of};
ghost use Rattle.st_table.specs.inside.Entries.{place as place_at};
ghost use Rattle.st_heap.specs.inside.Places.{SamePlaces, SameOtherPlaces, Stands};
ghost use Rattle.st_counted.specs.inside.Counts.{count_at, is_counted, number_at, is_unused, raised};
ghost use Rattle.st_counted.specs.inside.Links.{SameObjects, IsListed};
ghost use Rattle.st_counted.specs.inside.Contents.{counts_of};
ghost use Rattle.st_counted.specs.inside.References.{all_roots, nils_of, IsCounted};

use crate::counting::{count_store, lower, names_unused, raise};
use crate::counts::Counts;
use crate::links::pointer_of;
use crate::roots::Roots;
use st_heap::HeapObjects;
use st_model::{Demand, Kind, Oop, RootPlace};
use std::alloc::{AllocError, Global};

/// What the head of an image says.
#[derive(Clone, Copy)]
pub struct Head {
    /// How many objects there can be, and how many words they can have.
    pub capacity: Demand,
    /// The pointer of the global name table, or 0.
    pub globals: Oop,
    /// The pointer of the symbol table, or 0.
    pub symbols: Oop,
}

/// What a memory consists of, whole or not yet.
#[derive(Drop)]
pub struct Contents {
    /// The objects.
    pub objects: HeapObjects,
    /// What is held.
    pub roots: Roots,
    /// What the head of the image said.
    pub head: Head,
    /// How many references there are to each object.
    pub counts: Counts,
}

impl Contents {
    ghost use Rattle.st_counted.specs.inside.Counted.{counted_view, numbers_of, HasRoom, AllCounted, SameButLinks, StoresPointer};
    ghost use Rattle.st_counted.specs.inside.Links.{IsListed};

    /// No objects under a head, and nothing held.
    pub fn new(alloc: Global, head: Head) -> Result<Contents, AllocError>
        ensures empty { let empty = empty_view (head_of head.capacity head.globals head.symbols) in
            IfOk result (λ c. counted_view c ≡ empty) }
        ensures counts { IfOk result (λ c. (k : ℕ) → count_at (numbers_of c) k ≡ None) }
        ensures room { IfOk result HasRoom }
        ensures head { IfOk result (λ c. c.head ≡ head) }
    {
        let objects = HeapObjects::new(alloc, head.capacity.words)?;
        let roots = Roots::new(alloc)?;
        let counts = Counts::new(alloc)?;
        Ok(Contents {
            objects,
            roots,
            head,
            counts,
        })
    }

    /// Stores v in field `at`; in a Method's header only what counts the same literals.
    pub fn set_pointer(&mut self, o: Oop, at: u32, v: Oop)
        requires whole { IsWhole (counted_view self.old) }
        requires counted { AllCounted self.old }
        requires listed { IsListed self.old.objects self.old.counts }
        requires live { is_live (counted_view self.old).objects (value o) ≡ true }
        requires range { at < length (object_of (counted_view self.old).objects (value o)).fields }
        requires known { IsKnown (counted_view self.old).objects (value v) }
        requires header { IsHeader (object_of (counted_view self.old).objects (value o)) at (value v) }
        ensures { StoresPointer self.old self.new (value o) at (value v) }
    {
        let stand = self.objects.place_of(o);
        self.set_placed_pointer(o, stand, at, v);
    }

    /// Stores v in field `at` of an object whose block stands at a place; in a Method's header only what counts the same literals.
    #[inline(always)]
    pub fn set_placed_pointer(&mut self, o: Oop, stand: u32, at: u32, v: Oop)
        requires whole { IsWhole (counted_view self.old) }
        requires counted { AllCounted self.old }
        requires listed { IsListed self.old.objects self.old.counts }
        requires live { is_live (counted_view self.old).objects (value o) ≡ true }
        requires place { Stands self.old.objects (value o) stand }
        requires range { at < length (object_of (counted_view self.old).objects (value o)).fields }
        requires known { IsKnown (counted_view self.old).objects (value v) }
        requires header { IsHeader (object_of (counted_view self.old).objects (value o)) at (value v) }
        ensures { StoresPointer self.old self.new (value o) at (value v) }
    {
        let old = self.objects.placed_field(o, stand, at);
        self.objects.set_placed_field(o, stand, at, v);
        if names_unused(&self.counts, v) {
            count_store(&mut self.counts, &mut self.objects, v, old);
            return;
        }
        raise(&mut self.counts, &mut self.objects, v, 1);
        lower(&mut self.counts, &mut self.objects, old);
    }

    /// Holds o at a place; nil clears it.
    #[inline(always)]
    pub fn hold(&mut self, place: RootPlace, o: Oop)
        requires whole { IsWhole (counted_view self.old) }
        requires counted { AllCounted self.old }
        requires listed { IsListed self.old.objects self.old.counts }
        requires place { IsPlace place }
        requires known { IsKnown (counted_view self.old).objects (value o) }
        ensures objects { (counted_view self.new).objects ≡ (counted_view self.old).objects }
        ensures held { (counted_view self.new).held ≡ with_held (counted_view self.old).held place (value o) }
        ensures head { self.new.head ≡ self.old.head }
        ensures counted { AllCounted self.new }
        ensures listed { IsListed self.new.objects self.new.counts }
        ensures room { HasRoom self.old → HasRoom self.new }
        ensures places { SamePlaces self.old.objects.store self.new.objects.store }
    {
        let old = self.roots.held(place);
        if old == o {
            return;
        }
        raise(&mut self.counts, &mut self.objects, o, 1);
        self.roots.hold(place, o);
        lower(&mut self.counts, &mut self.objects, old);
    }

    /// A new object at the least free pointer, with fields of nil, units of 0 and, in a Method, its literal count.
    pub fn make(&mut self, class: Oop, kind: Kind, size: u32, literals: u32) -> Oop
        requires whole { IsWhole (counted_view self.old) }
        requires counted { AllCounted self.old }
        requires listed { IsListed self.old.objects self.old.counts }
        requires class { is_live (counted_view self.old).objects (value class) ≡ true }
        requires makeable { IsMakeable (class.0 / 2) kind size literals }
        requires room { let new = fresh (class.0 / 2) kind size literals in
            fits (counted_view self.old) (demand_of new) ≡ true }
        requires words { HasRoom self.old }
        ensures pointer { value result ≡ Ref (first_free (counted_view self.old).objects) }
        ensures objects { let new = fresh (class.0 / 2) kind size literals in
            (counted_view self.new).objects ≡ placed (counted_view self.old).objects new }
        ensures held { (counted_view self.new).held ≡ (counted_view self.old).held }
        ensures head { self.new.head ≡ self.old.head }
        ensures counted { AllCounted self.new }
        ensures listed { IsListed self.new.objects self.new.counts }
        ensures words { HasRoom self.new }
    {
        raise(&mut self.counts, &mut self.objects, class, 1);
        let nils = count_nils(kind, size, literals);
        raise_nil(&mut self.counts, &mut self.objects, nils);
        let o = self.objects.make(class, kind, size, literals);
        self.counts.enter(&mut self.objects, usize::from(o.0 / 2));
        o
    }

    /// Takes away an object to which nothing refers.
    pub fn drop_object(&mut self, k: usize)
        requires place { k < 32768 }
        requires counted { AllCounted self.old }
        requires listed { IsListed self.old.objects self.old.counts }
        requires unused { is_unused (numbers_of self.old) k ≡ true }
        ensures objects { (counted_view self.new).objects ≡ slice_set (counted_view self.old).objects k None }
        ensures held { (counted_view self.new).held ≡ (counted_view self.old).held }
        ensures head { self.new.head ≡ self.old.head }
        ensures counted { AllCounted self.new }
        ensures listed { IsListed self.new.objects self.new.counts }
        ensures room { HasRoom self.old → HasRoom self.new }
        ensures places { SameOtherPlaces self.old.objects.store self.new.objects.store k }
    {
        let o = pointer_of(k);
        self.counts.leave(&mut self.objects, k);
        let class = self.objects.class_of(o);
        lower(&mut self.counts, &mut self.objects, class);
        self.lower_fields(o);
        self.objects.remove(o);
    }

    /// Counts what stands in the fields of an object that is about to go no more; nil, which stands in most fields of a
    /// context, at once for all of them.
    fn lower_fields(&mut self, o: Oop)
        requires listed { IsListed self.old.objects self.old.counts }
        requires live { is_live (counted_view self.old).objects (value o) ≡ true }
        requires counted { let v = counted_view self.old in
            let fields = (object_of v.objects (value o)).fields in
            IsCounted (slice_set v.objects (place_at o) None) (all_roots v) fields (numbers_of self.old) }
        ensures counted { let v = counted_view self.new in
            IsCounted (slice_set v.objects (place_at o) None) (all_roots v) [] (numbers_of self.new) }
        ensures listed { IsListed self.new.objects self.new.counts }
        ensures rest { SameButLinks self.old self.new }
        ensures places { SamePlaces self.old.objects.store self.new.objects.store }
    {
        let stand = self.objects.place_of(o);
        let mut nils = 0;
        for i in 0..self.objects.count_fields(o) {
            let v = self.objects.placed_field(o, stand, i);
            if v.0 == Oop::NIL.0 {
                nils += 1;
            } else {
                lower(&mut self.counts, &mut self.objects, v);
            }
        }
        if nils > 0 {
            self.counts.lower(&mut self.objects, 1, nils);
        }
    }

    /// The place of an object to which nothing refers, if there is one.
    pub fn first_unused(&self) -> Option<usize>
        requires listed { IsListed self.now.objects self.now.counts }
        ensures found { IfSome result (λ k. is_unused (numbers_of self.now) k ≡ true) }
        ensures none { IfNone result ((k : ℕ) → is_unused (numbers_of self.now) k ≡ false) }
    {
        let first = self.counts.first;
        if first.0 < 2 {
            None
        } else {
            Some(usize::from(first.0 / 2))
        }
    }

    /// Whether d fits within the capacities beside the objects.
    pub fn room(&self, d: Demand) -> bool
        requires { IsWhole (counted_view self.now) }
        ensures { result ≡ fits (counted_view self.now) d }
    {
        let used = self.objects.used();
        let capacity = self.head.capacity;
        d.entries <= capacity.entries - used.entries && d.words <= capacity.words - used.words
    }
}

/// Counts so many references to nil more.
fn raise_nil(counts: &mut Counts, objects: &mut HeapObjects, by: u32)
    requires listed { IsListed objects.old counts.old }
    requires counted { is_counted (counts_of counts.old) 1 ≡ true }
    requires room { number_at (counts_of counts.old) 1 + by < 4294967296 }
    ensures listed { IsListed objects.new counts.new }
    ensures rest { SameObjects objects.old objects.new }
    ensures counts { let old = counts_of counts.old in
        counts_of counts.new ≡ (if by == 0 then old else raised old 1 by) }
{
    if by != 0 {
        counts.raise(objects, 1, by);
    }
}

/// How many fields of a new object are nil.
fn count_nils(kind: Kind, size: u32, literals: u32) -> u32
    ensures { result ≡ nils_of kind size literals }
{
    match kind {
        Kind::Pointers => size,
        Kind::Words | Kind::Bytes => 0,
        Kind::Method => literals,
    }
}
