ghost use Rattle.std.specs.Prelude.{IfOk};
ghost use Rattle.st_lookup.specs.inside.Remembered.{HasNone};

use crate::cached::Cached;
use crate::entry::CachedLookup;
use crate::watch::Watch;
use st_memory::Loader;
use st_model::{Demand, Kind, Oop};
use std::alloc::{AllocError, Global};

/// Makes a `Cached` that remembers nothing. Only `begin` takes memory.
#[derive(Drop)]
pub struct CachedLoader<L: Loader> {
    loader: L,
    watch: Watch,
    entries: Vec<CachedLookup>,
    ghost none: { HasNone entries.items },
}

/// As many entries as there are slots, of nothing.
fn nothing(alloc: Global) -> Result<Vec<CachedLookup>, AllocError>
    ensures { IfOk result (λ es. HasNone es.items) }
{
    vec![in alloc; CachedLookup::NONE; 512]
}

impl<L: Loader> Loader for CachedLoader<L> {
    type Done = Cached<L::Done>;

    ghost loaded = { λ c. L.loaded c.loader };

    fn begin(
        alloc: Global,
        capacity: Demand,
        globals: Oop,
        symbols: Oop,
    ) -> Result<Self, AllocError> {
        let loader = L::begin(alloc, capacity, globals, symbols)?;
        let watch = Watch::new(alloc)?;
        let entries = nothing(alloc)?;
        Ok(CachedLoader {
            loader,
            watch,
            entries,
        })
    }

    fn place(&mut self, at: Oop, class: Oop, kind: Kind, size: u32, literals: u32) {
        self.loader.place(at, class, kind, size, literals);
    }

    fn set_pointer(&mut self, o: Oop, at: u32, v: Oop) {
        self.loader.set_pointer(o, at, v);
    }

    fn set_word(&mut self, o: Oop, at: u32, v: u16) {
        self.loader.set_word(o, at, v);
    }

    fn set_byte(&mut self, o: Oop, at: u32, v: u8) {
        self.loader.set_byte(o, at, v);
    }

    fn finish(self) -> Cached<L::Done> {
        Cached::new(self.loader.finish(), self.watch, self.entries)
    }
}
