ghost use Rattle.std.specs.Prelude.{◌≡◌, ◌<◌, ◌≤◌, ℕ, length, map, false, IfOk};
ghost use Rattle.st_model.specs.declared.oop.Oop.{Oop};
ghost use Rattle.st_model.specs.Values.{value};
ghost use Rattle.st_model.specs.Machine.{table_root};
ghost use Rattle.st_model.specs.Settled.{names, any_names, is_marked};
ghost use Rattle.st_model.specs.View.{table_of};
ghost use Rattle.st_plain.specs.inside.Marked.{AddsMarks, is_of_page};

use crate::lists::no_marks;
use st_counted::ROOT_PAGE;
use st_model::Oop;
use std::alloc::{AllocError, Global};

/// A mark for each name, true where something refers to it.
#[derive(Drop)]
pub struct Marks {
    /// The mark of each name, by half its pointer.
    pub names: Vec<bool>,
    pub ghost long: { length names.items ≡ 32768 },
}

impl Marks {
    /// Marks for all names, none of which is marked.
    pub fn new(alloc: Global) -> Result<Marks, AllocError>
        ensures { IfOk result (λ marks. (n : ℕ) → is_marked marks.names.items n ≡ false) }
    {
        Ok(Marks {
            names: no_marks(alloc, 32768)?,
        })
    }

    /// Takes the marks of the names below `end` away.
    pub fn clear(&mut self, end: usize)
        requires { end ≤ 32768 }
        ensures cleared { (n : ℕ) → n < end → is_marked self.new.names.items n ≡ false }
        ensures others { (n : ℕ) → end ≤ n
            → is_marked self.new.names.items n ≡ is_marked self.old.names.items n }
    {
        for k in 0..end {
            self.names[k] = false;
        }
    }

    /// Whether a name is marked.
    pub fn has(&self, name: usize) -> bool
        requires { name < 32768 }
        ensures { result ≡ is_marked self.now.names.items name }
    {
        self.names[name]
    }

    /// Marks what a word names; a SmallInteger names nothing.
    pub fn mark(&mut self, o: Oop)
        ensures { AddsMarks self.old.names.items self.new.names.items (names (value o)) }
    {
        if !o.is_small() {
            self.names[usize::from(o.0 >> 1)] = true;
        }
    }

    /// Marks what the words name.
    pub fn mark_all(&mut self, words: &[Oop])
        ensures { AddsMarks self.old.names.items self.new.names.items (any_names (map value words.now)) }
    {
        for o in words {
            self.mark(*o);
        }
    }

    /// Marks the root page.
    pub fn mark_page(&mut self)
        ensures { AddsMarks self.old.names.items self.new.names.items is_of_page }
    {
        self.mark_all(&ROOT_PAGE);
    }

    /// Marks the table of a pointer of the head; 0 is none.
    pub fn mark_table(&mut self, o: Oop)
        ensures { let named = any_names (table_root (table_of o.0)) in
            AddsMarks self.old.names.items self.new.names.items named }
    {
        if o.0 != 0 {
            self.mark(o);
        }
    }
}
