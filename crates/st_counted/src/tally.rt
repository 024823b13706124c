ghost use Rattle.std.specs.Prelude.{◌≡◌, ◌≢◌, ◌+◌, ◌<◌, ℕ, true, None, length, map, slice_get, Some, is_some, if◌then◌else◌};
ghost use Rattle.st_model.specs.declared.oop.Oop.{Oop as Pointer};
ghost use Rattle.st_model.specs.Values.{Value, value};
ghost use Rattle.st_model.specs.Objects.{nil};
ghost use Rattle.st_model.specs.Machine.{table_root};
ghost use Rattle.st_model.specs.Table.{entry};
ghost use Rattle.st_model.specs.View.{IsWhole, IsKnown, is_live, object_of, held_at, table_of};
ghost use Rattle.st_model.specs.declared.place.RootPlace.{RootPlace};
ghost use Rattle.st_counted.specs.inside.Counts.{count_at, number_at};
ghost use Rattle.st_counted.specs.inside.References.{object_uses, uses, IsTallied, IsEntered, AddsReferences};
ghost use Rattle.st_counted.specs.inside.Counted.{counted_view, numbers_of, AllCounted, SameButLinks};
ghost use Rattle.st_counted.specs.inside.Links.{IsListed};

use crate::contents::Contents;
use crate::counting::add;
use crate::links::pointer_of;
use st_model::Oop;

/// The pointers of the root page.
pub const ROOT_PAGE: [Oop; 20] = [
    Oop(2),
    Oop(4),
    Oop(6),
    Oop(8),
    Oop(12),
    Oop(14),
    Oop(16),
    Oop(22),
    Oop(24),
    Oop(26),
    Oop(28),
    Oop(32),
    Oop(34),
    Oop(40),
    Oop(42),
    Oop(44),
    Oop(48),
    Oop(50),
    Oop(52),
    Oop(56),
];

/// At how many places something is held, each of which has nil at first.
const PLACES: u32 = 4106;

impl Contents {
    /// Counts all references, where none is counted yet and nothing is held.
    pub fn count_all(&mut self)
        requires whole { IsWhole (counted_view self.old) }
        requires held { (p : RootPlace) → held_at (counted_view self.old).held p ≡ nil }
        requires none { (k : ℕ) → count_at (numbers_of self.old) k ≡ None }
        ensures counted { AllCounted self.new }
        ensures listed { IsListed self.new.objects self.new.counts }
        ensures rest { SameButLinks self.old self.new }
    {
        self.enter_all();
        self.raise_objects();
        self.raise_roots();
        self.list_unused();
    }

    /// Lists the objects to which nothing refers, and no other.
    fn list_unused(&mut self)
        requires counted { AllCounted self.old }
        ensures listed { IsListed self.new.objects self.new.counts }
        ensures rest { SameButLinks self.old self.new }
        ensures numbers { numbers_of self.new ≡ numbers_of self.old }
    {
        self.counts.first = Oop(0);
        for k in 0..32768 {
            if self.counts.is_unused(k) {
                self.counts.list(&mut self.objects, k);
            }
        }
    }

    /// Counts each object from 0 on.
    fn enter_all(&mut self)
        requires whole { IsWhole (counted_view self.old) }
        requires none { (k : ℕ) → count_at (numbers_of self.old) k ≡ None }
        ensures tallied { IsTallied (counted_view self.old).objects (λ k. 0) (numbers_of self.new) }
        ensures rest { self.new ≡ record self.old { counts = self.new.counts } }
    {
        for k in 0..32768 {
            self.enter_object(k);
        }
    }

    /// Counts the root page, the two tables of names, and nil for each place at which something is held.
    fn raise_roots(&mut self)
        requires whole { IsWhole (counted_view self.old) }
        requires held { (p : RootPlace) → held_at (counted_view self.old).held p ≡ nil }
        requires tallied { let t = (counted_view self.old).objects in
            IsTallied t (λ k. uses k t) (numbers_of self.old) }
        ensures counted { AllCounted self.new }
        ensures rest { self.new ≡ record self.old { counts = self.new.counts } }
    {
        self.raise_all(&ROOT_PAGE);
        add(&mut self.counts, Oop::NIL, PLACES);
        self.raise_table(self.head.globals);
        self.raise_table(self.head.symbols);
    }

    /// Counts the object at a place, where there is one, from 0 on.
    fn enter_object(&mut self, k: usize)
        requires place { k < 32768 }
        requires whole { IsWhole (counted_view self.old) }
        requires none { count_at (numbers_of self.old) k ≡ None }
        ensures here { count_at (numbers_of self.new) k
            ≡ (if is_some (entry (counted_view self.old).objects k) then Some 0 else None) }
        ensures others { (j : ℕ) → j ≢ k
            → count_at (numbers_of self.new) j ≡ count_at (numbers_of self.old) j }
        ensures rest { self.new ≡ record self.old { counts = self.new.counts } }
    {
        let o = pointer_of(k);
        if self.objects.live(o) {
            self.counts.start(k);
        }
    }

    /// Counts what the objects refer to.
    fn raise_objects(&mut self)
        requires whole { IsWhole (counted_view self.old) }
        requires tallied { IsTallied (counted_view self.old).objects (λ k. 0) (numbers_of self.old) }
        ensures tallied { let t = (counted_view self.old).objects in
            IsTallied t (λ k. uses k t) (numbers_of self.new) }
        ensures rest { self.new ≡ record self.old { counts = self.new.counts } }
    {
        for k in 0..32768 {
            self.raise_object(k);
        }
    }

    /// Counts what the object at a place refers to.
    fn raise_object(&mut self, k: usize)
        requires place { k < 32768 }
        requires whole { IsWhole (counted_view self.old) }
        requires entered { IsEntered (counted_view self.old).objects (numbers_of self.old) }
        requires room { (j : ℕ) → number_at (numbers_of self.old) j + 65536 < 4294967296 }
        ensures tallied { let t = (counted_view self.old).objects in
            IsTallied t (λ j. object_uses j (entry t k) + number_at (numbers_of self.old) j)
            (numbers_of self.new) }
        ensures rest { self.new ≡ record self.old { counts = self.new.counts } }
    {
        let o = pointer_of(k);
        if self.objects.live(o) {
            let class = self.objects.class_of(o);
            add(&mut self.counts, class, 1);
            self.raise_fields(o);
        }
    }

    /// Counts what stands in the fields of an object.
    fn raise_fields(&mut self, o: Oop)
        requires live { is_live (counted_view self.old).objects (value o) ≡ true }
        requires whole { IsWhole (counted_view self.old) }
        requires entered { IsEntered (counted_view self.old).objects (numbers_of self.old) }
        requires room { (j : ℕ) → number_at (numbers_of self.old) j + 65535 < 4294967296 }
        ensures adds { let t = (counted_view self.old).objects in
            AddsReferences t (numbers_of self.old) (numbers_of self.new) (object_of t (value o)).fields }
        ensures rest { self.new ≡ record self.old { counts = self.new.counts } }
    {
        for i in 0..self.objects.count_fields(o) {
            let v = self.objects.field(o, i);
            add(&mut self.counts, v, 1);
        }
    }

    /// Counts what the words name.
    fn raise_all(&mut self, words: &[Oop])
        requires known { (i : ℕ) (o : Pointer) → slice_get words.now i ≡ Some o
            → IsKnown (counted_view self.old).objects (value o) }
        requires entered { IsEntered (counted_view self.old).objects (numbers_of self.old) }
        requires room { (j : ℕ) → number_at (numbers_of self.old) j + length words.now < 4294967296 }
        ensures adds { let t = (counted_view self.old).objects in
            AddsReferences t (numbers_of self.old) (numbers_of self.new) (map value words.now) }
        ensures rest { self.new ≡ record self.old { counts = self.new.counts } }
    {
        for o in words {
            add(&mut self.counts, *o, 1);
        }
    }

    /// Counts the table of a pointer of the head; 0 is none.
    fn raise_table(&mut self, o: Oop)
        requires known { (x : Value) → table_of o.0 ≡ Some x
            → is_live (counted_view self.old).objects x ≡ true }
        requires entered { IsEntered (counted_view self.old).objects (numbers_of self.old) }
        requires room { (j : ℕ) → number_at (numbers_of self.old) j + 1 < 4294967296 }
        ensures adds { let t = (counted_view self.old).objects in
            AddsReferences t (numbers_of self.old) (numbers_of self.new) (table_root (table_of o.0)) }
        ensures rest { self.new ≡ record self.old { counts = self.new.counts } }
    {
        if o.0 != 0 {
            add(&mut self.counts, o, 1);
        }
    }
}
