ghost use Rattle.std.specs.Prelude.{◌≡◌, ◌<◌, ◌≤◌, ◌+◌, None, slice_set};
ghost use Rattle.st_model.specs.Objects.{one};
ghost use Rattle.st_model.specs.Table.{total_used, settled_table};
ghost use Rattle.st_model.specs.Settled.{is_marked};
ghost use Rattle.st_plain.specs.inside.ListsPlain.{objects_of, extent_of};

use crate::marks::Marks;
use crate::objects::Objects;
use st_model::Demand;

impl Objects {
    /// Takes the object at a place away, where there is one.
    fn remove(&mut self, k: usize)
        requires { k < self.old.table_end }
        ensures entries { self.new.entries.items ≡ slice_set self.old.entries.items k None }
        ensures pointers { self.new.pointers ≡ self.old.pointers }
        ensures units { self.new.units ≡ self.old.units }
        ensures extent { extent_of self.new ≡ extent_of self.old }
        ensures end { self.new.table_end ≡ self.old.table_end }
        ensures fewer { self.new.used.entries ≤ self.old.used.entries }
    {
        if let Some(e) = self.slot(k) {
            self.entries[k] = None;
            self.used = Demand {
                entries: self.used.entries - 1,
                words: self.used.words - e.words(),
            };
            self.full_end = self.full_end.min(k as u32);
        }
    }

    /// Takes away each object whose name is not marked, and answers how many there were.
    pub fn keep_marked(&mut self, marks: &Marks) -> u32
        ensures objects { objects_of self.new
            ≡ settled_table (objects_of self.old) (is_marked marks.now.names.items) }
        ensures gone { total_used one (objects_of self.new) + result
            ≡ total_used one (objects_of self.old) }
        ensures extent { extent_of self.new ≡ extent_of self.old }
    {
        let before = self.used.entries;
        for k in 0..self.table_end as usize {
            if !marks.has(k) {
                self.remove(k);
            }
        }
        before - self.used.entries
    }
}
