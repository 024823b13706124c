ghost use Rattle.std.specs.Prelude.{◌≡◌, ◌<◌, ◌≤◌, ◌+◌, ◌*◌, ◌≢◌, ℕ, length, None};
ghost use Rattle.st_model.specs.Objects.{words_of};
ghost use Rattle.st_model.specs.Table.{entry, total_used};
ghost use Rattle.st_plain.specs.inside.Lists.{slot, slot_number, entry_fields, entry_units};
ghost use Rattle.st_plain.specs.inside.ListsPlain.{objects_of, extent_of, with_taken, emptied, IsEnough};

use crate::entry::Entry;
use crate::objects::Objects;
use st_model::Demand;

impl Objects {
    /// Takes all objects away.
    fn clear(&mut self)
        ensures empty { (k : ℕ) → entry (objects_of self.new) k ≡ None }
        ensures extent { extent_of self.new ≡ emptied (extent_of self.old) }
    {
        clear_places(self.entries.as_mut_slice(), self.table_end as usize);
        self.table_end = 0;
        self.next_field = 0;
        self.next_unit = 0;
        self.used = Demand {
            entries: 0,
            words: 0,
        };
        self.full_end = 1;
    }

    /// Copies another's object at a place to the same place and the first free fields and units.
    fn copy_from(&mut self, other: &Objects, k: usize)
        requires within { k < 32768 }
        requires free { slot self.old.entries.items k ≡ None }
        requires fields_end { let e = slot other.now.entries.items k in
            self.old.next_field + slot_number entry_fields e ≤ length self.old.pointers.items }
        requires units_end { let e = slot other.now.entries.items k in
            self.old.next_unit + slot_number entry_units e ≤ length self.old.units.items }
        ensures here { entry (objects_of self.new) k ≡ entry (objects_of other.now) k }
        ensures others { (j : ℕ) → j ≢ k
            → entry (objects_of self.new) j ≡ entry (objects_of self.old) j }
        ensures extent { let e = slot other.now.entries.items k in
            extent_of self.new
            ≡ with_taken (extent_of self.old) (slot_number entry_fields e) (slot_number entry_units e) }
    {
        if let Some(e) = other.slot(k) {
            let field = e.fields_at as usize;
            let unit = e.units_at as usize;
            self.copy_free(
                &other.pointers[field..field + e.fields as usize],
                &other.units[unit..unit + e.units as usize],
            );
            self.add(k, e.class, e.kind, e.fields, e.units);
        }
    }

    /// Becomes what another is, with all free fields and units behind those in use.
    pub fn close_up(&mut self, other: &Objects)
        requires long { length self.old.units.items ≡ 2 * length self.old.pointers.items }
        requires fits { total_used words_of (objects_of other.now) ≤ length self.old.pointers.items }
        ensures objects { objects_of self.new ≡ objects_of other.now }
        ensures enough { let words = total_used words_of (objects_of other.now) in
            IsEnough (extent_of self.new) words (length self.old.pointers.items) }
    {
        self.clear();
        for k in 0..other.table_end as usize {
            self.copy_from(other, k);
        }
    }
}

/// Empties the first places.
fn clear_places(entries: &mut [Option<Entry>], end: usize)
    requires { end ≤ length entries.old }
    ensures below { (k : ℕ) → k < end → slot entries.new k ≡ None }
    ensures above { (k : ℕ) → end ≤ k → slot entries.new k ≡ slot entries.old k }
{
    for k in 0..end {
        entries[k] = None;
    }
}
