ghost use Rattle.std.specs.Prelude.{◌≡◌};
ghost use Rattle.st_model.specs.View.{IsWhole};
ghost use Rattle.st_plain.specs.inside.Plain.{plain_view, AreLong};
ghost use Rattle.st_model.specs.inside.Props.{IsWhole-prop};

use crate::contents::Contents;
use st_memory::Memory;
use st_model::{Demand, Kind, Oop, RootPlace};

/// A memory that keeps its objects in plain lists. `settle` looks at all of them.
#[derive(Drop)]
pub struct PlainMemory {
    contents: Contents,
    ghost whole: { IsWhole (plain_view contents) } by { IsWhole-prop (plain_view contents) },
    ghost long: { AreLong contents },
}

impl PlainMemory {
    /// A memory of these parts.
    pub(crate) fn new(contents: Contents) -> PlainMemory
        requires whole { IsWhole (plain_view contents) }
        requires long { AreLong contents }
        ensures { result.contents ≡ contents }
    {
        PlainMemory { contents }
    }
}

impl Memory for PlainMemory {
    ghost view = { λ m. plain_view m.contents };

    fn live(&self, o: Oop) -> bool {
        self.contents.objects.live(o)
    }

    fn class_of(&self, o: Oop) -> Oop {
        self.contents.objects.live_entry(o).class
    }

    fn kind(&self, o: Oop) -> Kind {
        self.contents.objects.live_entry(o).kind
    }

    fn size(&self, o: Oop) -> u32 {
        let entry = self.contents.objects.live_entry(o);
        if entry.kind.is_pointers() {
            entry.fields
        } else {
            2 * entry.fields + entry.units
        }
    }

    fn pointer(&self, o: Oop, at: u32) -> Oop {
        self.contents.objects.field(o, at)
    }

    fn word(&self, o: Oop, at: u32) -> u16 {
        self.contents.objects.unit(o, at)
    }

    fn byte(&self, o: Oop, at: u32) -> u8 {
        let first = 2 * self.contents.objects.live_entry(o).fields;
        self.contents.objects.unit(o, at - first) as u8
    }

    fn set_pointer(&mut self, o: Oop, at: u32, v: Oop) {
        self.contents.objects.set_field(o, at, v);
    }

    fn set_word(&mut self, o: Oop, at: u32, v: u16) {
        self.contents.objects.set_unit(o, at, v);
    }

    fn set_byte(&mut self, o: Oop, at: u32, v: u8) {
        let first = 2 * self.contents.objects.live_entry(o).fields;
        self.contents.objects.set_unit(o, at - first, u16::from(v));
    }

    fn room(&self, d: Demand) -> bool {
        self.contents.room(d)
    }

    fn make(&mut self, class: Oop, kind: Kind, size: u32, literals: u32) -> Oop {
        self.contents.make(class, kind, size, literals)
    }

    fn swap(&mut self, a: Oop, b: Oop) {
        self.contents.objects.exchange(a, b);
    }

    fn held(&self, place: RootPlace) -> Oop {
        self.contents.roots.held(place)
    }

    fn hold(&mut self, place: RootPlace, o: Oop) {
        self.contents.roots.hold(place, o);
    }

    fn settle(&mut self) {
        loop {
            if self.contents.drop_unneeded() == 0 {
                return;
            }
        }
    }

    fn used(&self) -> Demand {
        self.contents.objects.used()
    }

    fn capacity(&self) -> Demand {
        self.contents.head.capacity
    }

    fn next_of(&self, class: Oop, after: u32) -> Option<Oop> {
        let mut after = after;
        while let Some(o) = self.next_live(after) {
            if self.class_of(o) == class {
                return Some(o);
            }
            after = u32::from(o.0);
        }
        None
    }

    fn next_live(&self, after: u32) -> Option<Oop> {
        self.contents.objects.next_live(after)
    }

    fn globals(&self) -> Oop {
        self.contents.head.globals
    }

    fn symbols(&self) -> Oop {
        self.contents.head.symbols
    }

    ghost whole = { λ m. m.whole };
}
