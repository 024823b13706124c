ghost use Rattle.std.specs.Prelude.{◌≡◌, ◌≢◌, ◌<◌, ◌+◌, true, false, if◌then◌else◌};
ghost use Rattle.st_model.specs.Values.{value, is_small};
ghost use Rattle.st_table.specs.inside.Entries.{place};
ghost use Rattle.st_counted.specs.inside.Counts.{is_counted, number_at, is_unused};
ghost use Rattle.st_counted.specs.inside.Links.{SameObjects, IsListed};
ghost use Rattle.st_counted.specs.inside.Contents.{counts_of};
ghost use Rattle.st_counted.specs.inside.References.{raised_by, lowered_by};

use crate::counts::Counts;
use st_heap::HeapObjects;
use st_model::Oop;

/// Counts so many references more to what a word names, and leaves the list; a SmallInteger names nothing.
pub fn add(counts: &mut Counts, v: Oop, by: u32)
    requires some { 0 < by }
    requires counted { is_small (value v) ≡ false → is_counted (counts_of counts.old) (place v) ≡ true }
    requires room { number_at (counts_of counts.old) (place v) + by < 4294967296 }
    ensures { counts_of counts.new ≡ raised_by (counts_of counts.old) (value v) by }
{
    if !v.is_small() {
        counts.add(usize::from(v.0 / 2), by);
    }
}

/// Counts so many references more to what a word names, at least one; a SmallInteger names nothing.
#[inline(always)]
pub fn raise(counts: &mut Counts, objects: &mut HeapObjects, v: Oop, by: u32)
    requires some { 0 < by }
    requires counted { is_small (value v) ≡ false → is_counted (counts_of counts.old) (place v) ≡ true }
    requires room { number_at (counts_of counts.old) (place v) + by < 4294967296 }
    requires listed { IsListed objects.old counts.old }
    ensures listed { IsListed objects.new counts.new }
    ensures rest { SameObjects objects.old objects.new }
    ensures counts { counts_of counts.new ≡ raised_by (counts_of counts.old) (value v) by }
{
    if !v.is_small() {
        counts.raise(objects, usize::from(v.0 / 2), by);
    }
}

/// Whether a word names an object to which nothing refers; a SmallInteger names nothing.
#[inline(always)]
pub fn names_unused(counts: &Counts, v: Oop) -> bool
    requires { is_small (value v) ≡ false → is_counted (counts_of counts.now) (place v) ≡ true }
    ensures { let unused = is_unused (counts_of counts.now) (place v) in
        result ≡ (if is_small (value v) then false else unused) }
{
    !v.is_small() && counts.count(usize::from(v.0 / 2)) == 0
}

/// Counts one reference less to what a word names; a SmallInteger names nothing.
#[inline(always)]
pub fn lower(counts: &mut Counts, objects: &mut HeapObjects, v: Oop)
    requires counted { is_small (value v) ≡ false → is_counted (counts_of counts.old) (place v) ≡ true }
    requires some { is_small (value v) ≡ false → number_at (counts_of counts.old) (place v) ≢ 0 }
    requires listed { IsListed objects.old counts.old }
    ensures listed { IsListed objects.new counts.new }
    ensures rest { SameObjects objects.old objects.new }
    ensures counts { counts_of counts.new ≡ lowered_by (counts_of counts.old) (value v) }
{
    if !v.is_small() {
        counts.lower(objects, usize::from(v.0 / 2), 1);
    }
}

/// Counts what a store changes: one reference more to what it stores, and then one less to what stood there. It stands apart for
/// objects to which nothing referred, so that a store of any other one calls nothing.
#[inline(never)]
pub fn count_store(counts: &mut Counts, objects: &mut HeapObjects, new: Oop, old: Oop)
    requires counted { is_small (value new) ≡ false → is_counted (counts_of counts.old) (place new) ≡ true }
    requires room { number_at (counts_of counts.old) (place new) + 1 < 4294967296 }
    requires listed { IsListed objects.old counts.old }
    requires stood { let more = raised_by (counts_of counts.old) (value new) 1 in
        is_small (value old) ≡ false → is_counted more (place old) ≡ true }
    requires some { let more = raised_by (counts_of counts.old) (value new) 1 in
        is_small (value old) ≡ false → number_at more (place old) ≢ 0 }
    ensures listed { IsListed objects.new counts.new }
    ensures rest { SameObjects objects.old objects.new }
    ensures counts { let more = raised_by (counts_of counts.old) (value new) 1 in
        counts_of counts.new ≡ lowered_by more (value old) }
{
    raise(counts, objects, new, 1);
    lower(counts, objects, old);
}
