//! Laws of the definitions.

ghost use Rattle.std.specs.Prelude.{◌≡◌, ℕ, Bool, IsTrue};
ghost use Rattle.st_model.specs.{Machine.Head, Table.Table, Faults.IsWellFormed, View.{View, IsWhole}};
ghost use Rattle.st_image.specs.{inside.Back.CanStart, HeadValues.{head_over, no_values}};
ghost use Rattle.st_clean.specs.{Cleaning.image_only, Filling.only, Reach.{IsReach, IsClosed}};

/// What is reached is closed under referring, and lies in every set that is.
pub fn reach_is_least()
    ensures closed { (t : Table) (h : Head) (set : ℕ → Bool) → IsReach t h set → IsClosed t h set }
    ensures least { (t : Table) (h : Head) (set other : ℕ → Bool) → IsReach t h set → IsClosed t h other
        → (n : ℕ) → IsTrue (set n) → IsTrue (other n) }
{}

/// There is one such set.
pub fn one_reach()
    ensures { (t : Table) (h : Head) (set other : ℕ → Bool) → IsReach t h set → IsReach t h other
        → (n : ℕ) → set n ≡ other n }
{}

/// A clean image can be read: where the registers can be fetched from what a memory contains, they can be from what is reached of it,
/// and the image of that is well-formed.
pub fn clean_image_is_read()
    ensures formed { (v : View) (set : ℕ → Bool) → IsWhole v → CanStart v → IsReach v.objects v.head set →
        IsWellFormed (head_over no_values (image_only v.objects v.head set))
        (image_only v.objects v.head set) }
    ensures starts { (v : View) (set : ℕ → Bool) → IsWhole v → CanStart v → IsReach v.objects v.head set →
        CanStart (only v.objects v.head set) }
{}
