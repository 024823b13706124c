ghost use Rattle.std.specs.Prelude.{◌≡◌, ◌∷◌, [], ℕ, length, map, IfOk, OnOk, true, false};
ghost use Rattle.st_model.specs.{Values.value, Settled.is_marked, Machine.table_root};
ghost use Rattle.st_model.specs.View.{is_live, object_of, table_of};
ghost use Rattle.st_clean.specs.inside.Found.{Notes, names_in, page_names, first_names};

use crate::marks::no_marks;
use crate::state::Found;
use st_memory::{Memory, count_fields};
use st_model::Oop;
use std::alloc::{AllocError, Global};

/// The pointers of the root page.
const PAGE: [Oop; 20] = [
    Oop(2),
    Oop(4),
    Oop(6),
    Oop(8),
    Oop(12),
    Oop(14),
    Oop(16),
    Oop(22),
    Oop(24),
    Oop(26),
    Oop(28),
    Oop(32),
    Oop(34),
    Oop(40),
    Oop(42),
    Oop(44),
    Oop(48),
    Oop(50),
    Oop(52),
    Oop(56),
];

impl Found {
    /// None were found.
    pub fn new(alloc: Global) -> Result<Found, AllocError>
        ensures marks { IfOk result (λ f. (n : ℕ) → is_marked f.marks.items n ≡ false) }
        ensures list { IfOk result (λ f. f.list.items ≡ []) }
    {
        Ok(Found {
            marks: no_marks(alloc, 32768)?,
            list: Vec::new(alloc),
        })
    }

    /// Finds what a word names, where it wasn't found before. A SmallInteger names nothing.
    pub fn note(&mut self, o: Oop) -> Result<(), AllocError>
        ensures { OnOk result (Notes (value o ∷ []) self.old self.new) }
    {
        if o.is_small() {
            return Ok(());
        }
        let name = usize::from(o.0 >> 1);
        if self.marks[name] {
            return Ok(());
        }
        self.list.push(o)?;
        self.marks[name] = true;
        Ok(())
    }

    /// Finds what the first fields of an object name.
    fn note_fields<M: Memory>(&mut self, m: &M, o: Oop, fields: u32) -> Result<(), AllocError>
        requires live { is_live (M.view m.now).objects (value o) ≡ true }
        requires fields { fields ≡ length (object_of (M.view m.now).objects (value o)).fields }
        ensures { OnOk result (Notes (object_of (M.view m.now).objects (value o)).fields self.old self.new) }
    {
        for i in 0..fields {
            self.note(m.pointer(o, i))?;
        }
        Ok(())
    }

    /// Finds what an object refers to: its class, and what its fields or literals name.
    pub fn note_references<M: Memory>(&mut self, m: &M, o: Oop) -> Result<(), AllocError>
        requires live { is_live (M.view m.now).objects (value o) ≡ true }
        ensures { OnOk result
            (Notes (names_in (object_of (M.view m.now).objects (value o))) self.old self.new) }
    {
        self.note(m.class_of(o))?;
        self.note_fields(m, o, count_fields(m, o))?;
        Ok(())
    }

    /// Finds what words name.
    fn note_all(&mut self, words: &[Oop]) -> Result<(), AllocError>
        ensures { OnOk result (Notes (map value words.now) self.old self.new) }
    {
        for o in words {
            self.note(*o)?;
        }
        Ok(())
    }

    /// Finds the root page.
    #[tactic(auto, unfolding(st_model::specs::Values::value_of))]
    fn note_page(&mut self) -> Result<(), AllocError>
        ensures { OnOk result (Notes page_names self.old self.new) }
    {
        self.note_all(&PAGE)?;
        Ok(())
    }

    /// Finds the root page and the tables of names.
    pub fn note_first<M: Memory>(&mut self, m: &M) -> Result<(), AllocError>
        ensures { OnOk result (Notes (first_names (M.view m.now)) self.old self.new) }
    {
        self.note_page()?;
        self.note_table(m.globals())?;
        self.note_table(m.symbols())?;
        Ok(())
    }

    /// Finds the table of a pointer of the head; 0 is none.
    fn note_table(&mut self, o: Oop) -> Result<(), AllocError>
        ensures { OnOk result (Notes (table_root (table_of o.0)) self.old self.new) }
    {
        if o.0 == 0 {
            return Ok(());
        }
        self.note(o)?;
        Ok(())
    }
}
