ghost use Rattle.std.specs.Prelude.{◌≡◌, ◌≢◌, ◌<◌, ◌≤◌, ◌+◌, ℕ, Bool, length, replicate, true, false, Some, None, is_some, slice_set, IfOk};
ghost use Rattle.st_model.specs.Table.{entry};
ghost use Rattle.st_table.specs.inside.Entries.{place};
ghost use Rattle.st_heap.specs.inside.Tables.{objects_of};
ghost use Rattle.st_counted.specs.inside.Counts.{count_at, is_counted, number_at, is_unused, raised, lowered};
ghost use Rattle.st_counted.specs.inside.Slots.{counts_in, no_count};

use crate::links::{link, pointer_of, unlink};
use st_heap::HeapObjects;
use st_model::Oop;
use std::alloc::{AllocError, Global};

/// What is kept of a place: a number, which is its count where it is counted. So a count is read and changed without a look at
/// whether there is one.
#[derive(Clone, Copy)]
struct Slot {
    number: u32,
    counted: bool,
}

/// The counts of places below 32768, and the list of those whose count is 0. Clauses see them as a list (`counts_of`),
/// which has None where a place is not counted. Place 0 never is.
#[derive(Drop)]
pub struct Counts {
    /// The count of each place.
    counts: Vec<Slot>,
    /// The first object whose count is 0, or 0. The others follow it through their entries.
    pub first: Oop,
    pub ghost places: { length (counts_in counts.items) ≡ 32768 },
    pub ghost none_first: { count_at (counts_in counts.items) 0 ≡ None },
}

impl Counts {
    ghost use Rattle.st_counted.specs.inside.Contents.{counts_of};
    ghost use Rattle.st_counted.specs.inside.Links.{SameObjects, Holds, IsListed, IsEnd, with_member};

    /// No place is counted.
    pub fn new(alloc: Global) -> Result<Counts, AllocError>
        ensures { IfOk result (λ c. (k : ℕ) → count_at (counts_of c) k ≡ None) }
    {
        let counts = no_counts(alloc, 32768)?;
        Ok(Counts {
            counts,
            first: Oop(0),
        })
    }

    /// The count of a place.
    pub fn count(&self, k: usize) -> u32
        requires { is_counted (counts_of self.now) k ≡ true }
        ensures { result ≡ number_at (counts_of self.now) k }
    {
        self.counts[k].number
    }

    /// Counts a place from now on, from 0, and leaves the list.
    pub fn start(&mut self, k: usize)
        requires place { k < 32768 }
        requires some { k ≢ 0 }
        requires absent { is_counted (counts_of self.old) k ≡ false }
        ensures counts { counts_of self.new ≡ slice_set (counts_of self.old) k (Some 0) }
        ensures first { self.new.first ≡ self.old.first }
    {
        self.counts[k] = Slot {
            number: 0,
            counted: true,
        };
    }

    /// Counts an object from now on, to which nothing refers.
    pub fn enter(&mut self, objects: &mut HeapObjects, k: usize)
        requires place { k < 32768 }
        requires absent { is_counted (counts_of self.old) k ≡ false }
        requires stored { is_some (entry (objects_of objects.old) k) ≡ true }
        requires listed { IsListed objects.old self.old }
        ensures listed { IsListed objects.new self.new }
        ensures rest { SameObjects objects.old objects.new }
        ensures counts { counts_of self.new ≡ slice_set (counts_of self.old) k (Some 0) }
    {
        self.start(k);
        self.list(objects, k);
    }

    /// Counts so many references to a place more, and leaves the list.
    pub fn add(&mut self, k: usize, by: u32)
        requires counted { is_counted (counts_of self.old) k ≡ true }
        requires room { number_at (counts_of self.old) k + by < 4294967296 }
        ensures { counts_of self.new ≡ raised (counts_of self.old) k by }
    {
        let count = self.count(k);
        set_count(&mut self.counts, k, count + by);
    }

    /// Whether a place is counted and nothing refers to it.
    pub fn is_unused(&self, k: usize) -> bool
        requires { k < 32768 }
        ensures { result ≡ is_unused (counts_of self.now) k }
    {
        let slot = self.counts[k];
        slot.counted && slot.number == 0
    }

    /// Puts an object that is not in the list at its head. It stands apart, so that counting calls nothing where nothing is listed.
    #[inline(never)]
    pub fn list(&mut self, objects: &mut HeapObjects, k: usize)
        requires place { k < 32768 }
        requires stored { is_some (entry (objects_of objects.old) k) ≡ true }
        requires head { IsEnd objects.old (place self.old.first) }
        ensures rest { SameObjects objects.old objects.new }
        ensures counts { counts_of self.new ≡ counts_of self.old }
        ensures holds { (p : ℕ → Bool) → Holds objects.old.store (place self.old.first) p → p k ≡ false
            → Holds objects.new.store (place self.new.first) (with_member k p) }
    {
        self.first = link(objects, self.first, pointer_of(k));
    }

    /// Counts a place to which nothing refers no more.
    pub fn leave(&mut self, objects: &mut HeapObjects, k: usize)
        requires unused { is_unused (counts_of self.old) k ≡ true }
        requires listed { IsListed objects.old self.old }
        ensures listed { IsListed objects.new self.new }
        ensures rest { SameObjects objects.old objects.new }
        ensures counts { counts_of self.new ≡ slice_set (counts_of self.old) k None }
    {
        self.counts[k].counted = false;
        self.first = unlink(objects, self.first, pointer_of(k));
    }

    /// Counts so many references to a place more, at least one.
    #[inline(always)]
    pub fn raise(&mut self, objects: &mut HeapObjects, k: usize, by: u32)
        requires counted { is_counted (counts_of self.old) k ≡ true }
        requires some { 0 < by }
        requires room { number_at (counts_of self.old) k + by < 4294967296 }
        requires listed { IsListed objects.old self.old }
        ensures listed { IsListed objects.new self.new }
        ensures rest { SameObjects objects.old objects.new }
        ensures counts { counts_of self.new ≡ raised (counts_of self.old) k by }
    {
        let count = self.count(k);
        set_count(&mut self.counts, k, count + by);
        if count == 0 {
            self.first = unlink(objects, self.first, pointer_of(k));
        }
    }

    /// Counts so many references to a place less, at least one and no more than there are.
    #[inline(always)]
    pub fn lower(&mut self, objects: &mut HeapObjects, k: usize, by: u32)
        requires counted { is_counted (counts_of self.old) k ≡ true }
        requires some { 0 < by }
        requires most { by ≤ number_at (counts_of self.old) k }
        requires listed { IsListed objects.old self.old }
        ensures listed { IsListed objects.new self.new }
        ensures rest { SameObjects objects.old objects.new }
        ensures counts { counts_of self.new ≡ lowered (counts_of self.old) k by }
    {
        let count = self.count(k) - by;
        set_count(&mut self.counts, k, count);
        if count == 0 {
            self.list(objects, k);
        }
    }
}

/// Sets the count of a place that is counted, where it stands.
#[inline(always)]
fn set_count(counts: &mut Vec<Slot>, k: usize, count: u32)
    requires { is_counted (counts_in counts.old.items) k ≡ true }
    ensures { counts_in counts.new.items ≡ slice_set (counts_in counts.old.items) k (Some count) }
{
    counts[k].number = count;
}

/// Slots of n places, none of which is counted.
fn no_counts(alloc: Global, n: usize) -> Result<Vec<Slot>, AllocError>
    ensures { IfOk result (λ v. v.items ≡ replicate n no_count) }
{
    let slot = Slot {
        number: 0,
        counted: false,
    };
    vec![in alloc; slot; n]
}
