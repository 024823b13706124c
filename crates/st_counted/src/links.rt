ghost use Rattle.std.specs.Prelude.{◌≡◌, ◌≢◌, ◌<◌, ◌*◌, ℕ, Bool, true, false, is_some, if◌then◌else◌, ◌==◌};
ghost use Rattle.st_model.specs.Values.{value};
ghost use Rattle.st_model.specs.Table.{entry};
ghost use Rattle.st_model.specs.View.{is_live};
ghost use Rattle.st_table.specs.inside.Entries.{place};
ghost use Rattle.st_heap.specs.inside.Links.{next_of, before_of};
ghost use Rattle.st_heap.specs.inside.Tables.{objects_of};
ghost use Rattle.st_counted.specs.inside.Links.{SameObjects, Holds, IsEnd, with_member, without_member};

use st_heap::HeapObjects;
use st_model::Oop;

/// The pointer of a place.
pub fn pointer_of(k: usize) -> Oop
    requires { k < 32768 }
    ensures { result.0 ≡ 2 * k }
{
    Oop((2 * k) as u16)
}

/// Puts an object that is not in the list at its head, and answers the head.
pub fn link(objects: &mut HeapObjects, first: Oop, o: Oop) -> Oop
    requires stored { is_some (entry (objects_of objects.old) (place o)) ≡ true }
    requires head { IsEnd objects.old (place first) }
    ensures head { result ≡ o }
    ensures rest { SameObjects objects.old objects.new }
    ensures holds { (p : ℕ → Bool) → Holds objects.old.store (place first) p → p (place o) ≡ false
        → Holds objects.new.store (place o) (with_member (place o) p) }
{
    objects.set_next(o, first);
    objects.set_before(o, Oop(0));
    precede(objects, first, o);
    o
}

/// Takes an object that is in the list out of it, and answers the head.
#[inline(never)]
pub fn unlink(objects: &mut HeapObjects, first: Oop, o: Oop) -> Oop
    requires live { is_live (objects_of objects.old) (value o) ≡ true }
    requires next { IsEnd objects.old (next_of objects.old.store (place o)) }
    requires before { IsEnd objects.old (before_of objects.old.store (place o)) }
    ensures rest { SameObjects objects.old objects.new }
    ensures holds { (p : ℕ → Bool) → Holds objects.old.store (place first) p → p (place o) ≡ true
        → Holds objects.new.store (place result) (without_member (place o) p) }
{
    let next = objects.next(o);
    let before = objects.before(o);
    precede(objects, next, before);
    follow(objects, first, before, next)
}

/// Has `to` follow an object, or come first where there is none, and answers the head.
fn follow(objects: &mut HeapObjects, first: Oop, from: Oop, to: Oop) -> Oop
    requires { IsEnd objects.old (place from) }
    ensures head { result ≡ (if place from == 0 then to else first) }
    ensures rest { SameObjects objects.old objects.new }
    ensures here { place from ≢ 0 → next_of objects.new.store (place from) ≡ place to }
    ensures others { (k : ℕ) → k ≢ place from → next_of objects.new.store k ≡ next_of objects.old.store k }
    ensures before { (k : ℕ) → before_of objects.new.store k ≡ before_of objects.old.store k }
{
    if from.0 < 2 {
        return to;
    }
    objects.set_next(from, to);
    first
}

/// Has `to` precede an object, if there is one.
fn precede(objects: &mut HeapObjects, at: Oop, to: Oop)
    requires { IsEnd objects.old (place at) }
    ensures rest { SameObjects objects.old objects.new }
    ensures here { place at ≢ 0 → before_of objects.new.store (place at) ≡ place to }
    ensures others { (k : ℕ) → k ≢ place at → before_of objects.new.store k ≡ before_of objects.old.store k }
    ensures next { (k : ℕ) → next_of objects.new.store k ≡ next_of objects.old.store k }
{
    if at.0 >= 2 {
        objects.set_before(at, to);
    }
}
