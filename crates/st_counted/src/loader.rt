ghost use Rattle.std.specs.Prelude.{◌≡◌, ℕ, None};
ghost use Rattle.st_model.specs.inside.Loading.{IsLoading};
ghost use Rattle.st_model.specs.inside.Props.{IsLoading-prop};
ghost use Rattle.st_counted.specs.inside.Counted.{counted_view, numbers_of, HasRoom};
ghost use Rattle.st_counted.specs.inside.Counts.{count_at};

use crate::contents::{Contents, Head};
use crate::memory::CountedMemory;
use st_memory::Loader;
use st_model::{Demand, Kind, Oop};
use std::alloc::{AllocError, Global};

/// Makes a `CountedMemory`. Only `begin` takes memory. References are counted at the end.
#[derive(Drop)]
pub struct CountedLoader {
    contents: Contents,
    pub ghost loading: { IsLoading (counted_view contents) } by { IsLoading-prop (counted_view contents) },
    pub ghost room: { HasRoom contents },
    ghost uncounted: { (k : ℕ) → count_at (numbers_of contents) k ≡ None },
}

impl Loader for CountedLoader {
    type Done = CountedMemory;

    ghost loaded = { λ l. counted_view l.contents };

    fn begin(
        alloc: Global,
        capacity: Demand,
        globals: Oop,
        symbols: Oop,
    ) -> Result<Self, AllocError> {
        let head = Head {
            capacity,
            globals,
            symbols,
        };
        let contents = Contents::new(alloc, head)?;
        Ok(CountedLoader { contents })
    }

    fn place(&mut self, at: Oop, class: Oop, kind: Kind, size: u32, literals: u32) {
        self.contents.objects.place(at, class, kind, size, literals);
    }

    fn set_pointer(&mut self, o: Oop, at: u32, v: Oop) {
        self.contents.objects.set_field(o, at, v);
    }

    fn set_word(&mut self, o: Oop, at: u32, v: u16) {
        self.contents.objects.set_word(o, at, v);
    }

    fn set_byte(&mut self, o: Oop, at: u32, v: u8) {
        self.contents.objects.set_byte(o, at, v);
    }

    fn finish(self) -> CountedMemory {
        let mut contents = self.contents;
        contents.count_all();
        CountedMemory::new(contents)
    }
}
