ghost use Rattle.std.specs.Prelude.{◌≡◌, ◌≤◌, true, false, Ok, IfOk};
ghost use Rattle.st_model.specs.{Values.{word, is_small}, Machine.ObjectMemory};
ghost use Rattle.st_model.specs.{Table.{Table, IsTabular, bounded_table}, Steps.{fetch_field, count_fields}};
ghost use Rattle.st_model.specs.{Methods.method_header, Lookup.half_word, inside.Calls.{Reads, itself}};
ghost use Rattle.st_lookup.specs.inside.Remembered.{watched, IsSeen, IsOff};

use crate::watch::Watch;
use st_memory::{Memory, Objects};
use st_model::{Dead, Oop, Word};

/// What a search reads: any `Objects`, or the watched objects of a memory alone.
pub trait Reading {
    /// How objects are named.
    ghost names: { ObjectMemory Table };

    /// The objects by their names.
    ghost table: { Self → Table };

    /// What stands in field i of an object.
    fn field(&self, o: Word, i: u32) -> Result<Word, Dead>
        ensures { Reads (fetch_field names (word o) i) word (table self.now) result };

    /// How many fields an object has.
    fn count(&self, o: Word) -> Result<u32, Dead>
        ensures counts { Reads (count_fields names (word o)) itself (table self.now) result }
        ensures small { IfOk result (λ n. n ≤ 65533) };

    /// Half of a word: the bits of a SmallInteger, or half of the pointer that an object bears; 0 where there is no object.
    fn half(&self, o: Word) -> u32
        ensures { Reads (half_word names (word o)) itself (table self.now) (Ok result) };

    /// The header of a Method.
    fn header(&self, method: Word) -> Result<Word, Dead>
        ensures { Reads (method_header names (word method)) word (table self.now) result };

    /// It reads objects as a table does.
    ghost tabular: { IsTabular names };
}

impl<O: Objects> Reading for O {
    ghost names = { O.names };

    ghost table = { λ o. O.table o };

    fn field(&self, o: Word, i: u32) -> Result<Word, Dead> {
        self.fetch_field(o, i)
    }

    fn count(&self, o: Word) -> Result<u32, Dead> {
        self.count_fields(o)
    }

    fn half(&self, o: Word) -> u32 {
        self.half_word(o)
    }

    fn header(&self, method: Word) -> Result<Word, Dead> {
        self.method_header(method)
    }

    ghost tabular = { O.tabular };
}

/// The watched objects of a memory alone.
#[derive(Drop)]
pub struct Watched<'a, M: Memory> {
    pub memory: &'a M,
    pub watch: &'a Watch,
}

impl<'a, M: Memory> Watched<'a, M> {
    /// Whether a word is no pointer that isn't watched.
    #[tactic(auto, using(crate::proofs::Seeing::sights))]
    fn sees(&self, o: Word) -> bool
        ensures seen { result ≡ true
            → IsSeen self.now.watch.now.words.items (M.view self.now.memory.now).objects (word o) }
        ensures small { result ≡ false → is_small (word o) ≡ false }
        ensures off { result ≡ false → IsOff self.now.watch.now.words.items (word o) }
    {
        o.is_small() || o.0 > 65535 || self.watch.has(Oop(o.0 as u16))
    }
}

impl<'a, M: Memory> Reading for Watched<'a, M> {
    ghost use Rattle.st_memory.specs.inside.Tabular.{bounded_tabular};

    ghost names = { bounded_table };

    ghost table = { λ w. watched w.watch.now.words.items (M.view w.memory.now).objects };

    #[tactic(auto, using(crate::proofs::Seeing::seen, crate::proofs::Seeing::not_seen))]
    fn field(&self, o: Word, i: u32) -> Result<Word, Dead> {
        if self.sees(o) {
            self.memory.fetch_field(o, i)
        } else {
            Err(Dead::Kind)
        }
    }

    #[tactic(auto, using(crate::proofs::Seeing::seen, crate::proofs::Seeing::not_seen))]
    fn count(&self, o: Word) -> Result<u32, Dead> {
        if self.sees(o) {
            self.memory.count_fields(o)
        } else {
            Err(Dead::Kind)
        }
    }

    #[tactic(auto, using(crate::proofs::Seeing::seen, crate::proofs::Seeing::not_seen))]
    fn half(&self, o: Word) -> u32 {
        if self.sees(o) {
            self.memory.half_word(o)
        } else {
            0
        }
    }

    #[tactic(auto, using(crate::proofs::Seeing::seen, crate::proofs::Seeing::not_seen))]
    fn header(&self, method: Word) -> Result<Word, Dead> {
        if self.sees(method) {
            self.memory.method_header(method)
        } else {
            Err(Dead::Kind)
        }
    }

    ghost tabular = { bounded_tabular };
}
