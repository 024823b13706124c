ghost use Rattle.std.specs.Prelude.{◌≡◌, ◌<◌, ◌≤◌, ◌+◌, ◌*◌, ℕ, length, take, slice_index_or, slice_set};
ghost use Rattle.st_model.specs.Objects.{words_of};
ghost use Rattle.st_model.specs.Table.{total_used};
ghost use Rattle.st_draft.specs.inside.Drafts.{no_made, made_table, no_change, highest};
ghost use Rattle.st_memory.specs.inside.Making.{IsMade};

use crate::change::Change;
use st_memory::Made;
use st_model::{Kind, Word};

/// The objects that a row makes and its changes, noted and not made. There is room for 70 of them.
#[derive(Drop)]
pub struct Notes {
    /// What the row makes, in its order. The words of these objects follow all object pointers.
    pub made: [Made; 70],
    pub made_count: u32,
    /// The words of the objects made.
    pub words: u32,
    /// What the row stores, in its order.
    pub changes: [Change; 70],
    pub count: u32,
    pub ghost few: { made_count + count ≤ 70 },
    pub ghost sizes: { (length made ≡ 70) × (length changes ≡ 70) },
    pub ghost named: { (k : ℕ) → k < count → highest (slice_index_or changes k no_change) < 65536
        + 2 * made_count },
    pub ghost counted: { words ≡ total_used words_of (made_table (take made_count made)) },
    pub ghost small: { words ≤ 65535 * made_count },
    pub ghost sized: { (k : ℕ) → k < made_count → IsMade (slice_index_or made k no_made) },
}

impl Notes {
    ghost use Rattle.st_model.specs.Table.{Table};
    ghost use Rattle.st_draft.specs.inside.Noted.{noted};

    /// Nothing is noted.
    pub fn new() -> Notes
        ensures none { (t : Table) → noted t result ≡ t }
        ensures empty { result.made_count + result.count ≡ 0 }
    {
        let none = Made {
            class: Word(0),
            kind: Kind::Pointers,
            size: 0,
            literals: 0,
        };
        let still = Change::Field {
            object: Word(0),
            at: 0,
            value: Word(0),
        };
        Notes {
            made: [none; 70],
            made_count: 0,
            words: 0,
            changes: [still; 70],
            count: 0,
        }
    }

    /// Notes an object that is made, and answers its word.
    pub fn add(&mut self, made: Made) -> Word
        requires room { self.old.made_count + self.old.count < 70 }
        requires sized { IsMade made }
        ensures word { result.0 ≡ 65536 + 2 * self.old.made_count }
        ensures made { self.new.made ≡ slice_set self.old.made self.old.made_count made }
        ensures made_count { self.new.made_count ≡ self.old.made_count + 1 }
        ensures changes { self.new.changes ≡ self.old.changes }
        ensures count { self.new.count ≡ self.old.count }
    {
        let o = Word(65536 + 2 * self.made_count);
        let words = made.words();
        self.made[self.made_count as usize] = made;
        self.made_count += 1;
        self.words += words;
        o
    }

    /// Notes a change of fields.
    pub fn note(&mut self, change: Change)
        requires room { self.old.made_count + self.old.count < 70 }
        requires named { highest change < 65536 + 2 * self.old.made_count }
        ensures made { self.new.made ≡ self.old.made }
        ensures made_count { self.new.made_count ≡ self.old.made_count }
        ensures changes { self.new.changes ≡ slice_set self.old.changes self.old.count change }
        ensures count { self.new.count ≡ self.old.count + 1 }
    {
        self.changes[self.count as usize] = change;
        self.count += 1;
    }
}
