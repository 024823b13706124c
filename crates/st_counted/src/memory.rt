ghost use Rattle.std.specs.Prelude.{◌≡◌};
ghost use Rattle.st_model.specs.View.{IsWhole, SettlesTo};
ghost use Rattle.st_model.specs.inside.Props.{IsWhole-prop};
ghost use Rattle.st_memory.specs.inside.Places.{KeepsPlacesIn};
ghost use Rattle.st_heap.specs.inside.Places.{Stands};
ghost use Rattle.st_counted.specs.inside.Counted.{counted_view, HasRoom, AllCounted};
ghost use Rattle.st_counted.specs.inside.Links.{IsListed};

use crate::contents::Contents;
use st_memory::Memory;
use st_model::{Demand, Kind, Oop, RootPlace};

/// A memory that keeps its objects as words of a heap, and counts the references to each.
#[derive(Drop)]
pub struct CountedMemory {
    contents: Contents,
    pub ghost whole: { IsWhole (counted_view contents) } by { IsWhole-prop (counted_view contents) },
    pub ghost room: { HasRoom contents },
    pub ghost counted: { AllCounted contents },
    pub ghost listed: { IsListed contents.objects contents.counts },
}

impl CountedMemory {
    /// A memory of these parts.
    pub(crate) fn new(contents: Contents) -> CountedMemory
        requires whole { IsWhole (counted_view contents) }
        requires room { HasRoom contents }
        requires counted { AllCounted contents }
        requires listed { IsListed contents.objects contents.counts }
        ensures { result.contents ≡ contents }
    {
        CountedMemory { contents }
    }

    /// Takes away one object after the other to which nothing refers.
    #[inline(never)]
    fn drop_unused(&mut self)
        ensures settles { SettlesTo (counted_view self.old.contents) (counted_view self.new.contents) }
        ensures places { KeepsPlacesIn (counted_view self.new.contents).objects
            (Stands self.old.contents.objects) (Stands self.new.contents.objects) }
    {
        while let Some(k) = self.contents.first_unused() {
            self.contents.drop_object(k);
        }
    }
}

impl Memory for CountedMemory {
    ghost view = { λ m. counted_view m.contents };

    ghost stands = { λ m. Stands m.contents.objects };

    fn live(&self, o: Oop) -> bool {
        self.contents.objects.live(o)
    }

    fn class_of(&self, o: Oop) -> Oop {
        self.contents.objects.class_of(o)
    }

    fn kind(&self, o: Oop) -> Kind {
        self.contents.objects.kind(o)
    }

    fn size(&self, o: Oop) -> u32 {
        self.contents.objects.size(o)
    }

    fn pointer(&self, o: Oop, at: u32) -> Oop {
        self.contents.objects.field(o, at)
    }

    fn word(&self, o: Oop, at: u32) -> u16 {
        self.contents.objects.word(o, at)
    }

    fn byte(&self, o: Oop, at: u32) -> u8 {
        self.contents.objects.byte(o, at) as u8
    }

    fn set_pointer(&mut self, o: Oop, at: u32, v: Oop) {
        self.contents.set_pointer(o, at, v);
    }

    fn set_word(&mut self, o: Oop, at: u32, v: u16) {
        self.contents.objects.set_word(o, at, v);
    }

    fn set_byte(&mut self, o: Oop, at: u32, v: u8) {
        self.contents.objects.set_byte(o, at, v);
    }

    fn read_words(&self, o: Oop, at: u32, into: &mut [u16]) {
        self.contents.objects.read_words(o, at, into);
    }

    fn read_bytes(&self, o: Oop, at: u32, into: &mut [u8]) {
        self.contents.objects.read_bytes(o, at, into);
    }

    fn write_words(&mut self, o: Oop, at: u32, words: &[u16]) {
        self.contents.objects.write_words(o, at, words);
    }

    fn write_bytes(&mut self, o: Oop, at: u32, bytes: &[u8]) {
        self.contents.objects.write_bytes(o, at, bytes);
    }

    fn room(&self, d: Demand) -> bool {
        self.contents.room(d)
    }

    fn make(&mut self, class: Oop, kind: Kind, size: u32, literals: u32) -> Oop {
        self.contents.make(class, kind, size, literals)
    }

    fn swap(&mut self, a: Oop, b: Oop) {
        self.contents.objects.exchange(a, b);
    }

    fn held(&self, place: RootPlace) -> Oop {
        self.contents.roots.held(place)
    }

    #[inline(always)]
    fn hold(&mut self, place: RootPlace, o: Oop) {
        self.contents.hold(place, o);
    }

    #[inline(always)]
    fn settle(&mut self) {
        match self.contents.first_unused() {
            Some(_) => self.drop_unused(),
            None => {}
        }
    }

    fn used(&self) -> Demand {
        self.contents.objects.used()
    }

    fn capacity(&self) -> Demand {
        self.contents.head.capacity
    }

    fn next_of(&self, class: Oop, after: u32) -> Option<Oop> {
        let mut after = after;
        while let Some(o) = self.next_live(after) {
            if self.class_of(o) == class {
                return Some(o);
            }
            after = u32::from(o.0);
        }
        None
    }

    fn next_live(&self, after: u32) -> Option<Oop> {
        self.contents.objects.next_live(after)
    }

    fn globals(&self) -> Oop {
        self.contents.head.globals
    }

    fn symbols(&self) -> Oop {
        self.contents.head.symbols
    }

    fn place(&self, o: Oop) -> Option<u32> {
        Some(self.contents.objects.place_of(o))
    }

    #[inline(always)]
    fn placed_pointer(&self, o: Oop, place: u32, at: u32) -> Oop {
        self.contents.objects.placed_field(o, place, at)
    }

    #[inline(always)]
    fn placed_byte(&self, o: Oop, place: u32, at: u32) -> u8 {
        self.contents.objects.placed_byte(o, place, at) as u8
    }

    #[inline(always)]
    fn set_placed_pointer(&mut self, o: Oop, place: u32, at: u32, v: Oop) {
        self.contents.set_placed_pointer(o, place, at, v);
    }

    ghost whole = { λ m. m.whole };
}
