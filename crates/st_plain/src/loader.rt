ghost use Rattle.std.specs.Prelude.{◌≡◌};
ghost use Rattle.st_model.specs.inside.Loading.{IsLoading};
ghost use Rattle.st_model.specs.inside.Props.{IsLoading-prop};
ghost use Rattle.st_plain.specs.inside.ListsPlain.{extent_of, IsLong};
ghost use Rattle.st_plain.specs.inside.Plain.{plain_view, HasRoom};

use crate::contents::Contents;
use crate::memory::PlainMemory;
use st_counted::Head;
use st_memory::Loader;
use st_model::{Demand, Kind, Oop};
use std::alloc::{AllocError, Global};

/// Makes a `PlainMemory`. Only `begin` takes memory.
#[derive(Drop)]
pub struct PlainLoader {
    contents: Contents,
    ghost loading: { IsLoading (plain_view contents) } by { IsLoading-prop (plain_view contents) },
    ghost room: { HasRoom contents },
    ghost spare: { IsLong (extent_of contents.spare) contents.head.capacity.words },
}

impl Loader for PlainLoader {
    type Done = PlainMemory;

    ghost loaded = { λ l. plain_view l.contents };

    fn begin(
        alloc: Global,
        capacity: Demand,
        globals: Oop,
        symbols: Oop,
    ) -> Result<Self, AllocError> {
        let head = Head {
            capacity,
            globals,
            symbols,
        };
        let contents = Contents::new(alloc, head)?;
        Ok(PlainLoader { contents })
    }

    fn place(&mut self, at: Oop, class: Oop, kind: Kind, size: u32, literals: u32) {
        self.contents.objects.place(at, class, kind, size, literals);
    }

    fn set_pointer(&mut self, o: Oop, at: u32, v: Oop) {
        self.contents.objects.set_field(o, at, v);
    }

    fn set_word(&mut self, o: Oop, at: u32, v: u16) {
        self.contents.objects.set_unit(o, at, v);
    }

    fn set_byte(&mut self, o: Oop, at: u32, v: u8) {
        let first = 2 * self.contents.objects.live_entry(o).fields;
        self.contents.objects.set_unit(o, at - first, u16::from(v));
    }

    fn finish(self) -> PlainMemory {
        PlainMemory::new(self.contents)
    }
}
