//! Sends over a memory that remembers what searches found: what they searched isn't searched again.

ghost use Rattle.std.specs.Prelude.{◌≡◌, IfOk, None};
ghost use Rattle.st_frames.specs.inside.Shown.{IsReady};

use crate::calls::remembered;
use crate::image::{Image, Parts, plan_of, ready};
use st_frames::Loaded;
use st_lookup::find;
use st_machine::{Machine, RunEnd};
use st_memory::{Loader, Memory};
use st_model::{Demand, Kind, Oop, RootPlace};
use std::alloc::{AllocGlobal, Global};
use std::cell::Cell;
use std::process::Abort;
use std::test::Fail;

/// A memory that counts the calls of `pointer`, and hands each call on.
#[derive(Drop)]
struct Counting<M: Memory> {
    memory: M,
    pointers: Cell<u32>,
}

impl<M: Memory> Memory for Counting<M> {
    ghost view = { λ c. M.view c.memory };

    ghost stands = { λ c. M.stands c.memory };

    fn live(&self, o: Oop) -> bool {
        self.memory.live(o)
    }

    fn class_of(&self, o: Oop) -> Oop {
        self.memory.class_of(o)
    }

    fn kind(&self, o: Oop) -> Kind {
        self.memory.kind(o)
    }

    fn size(&self, o: Oop) -> u32 {
        self.memory.size(o)
    }

    fn pointer(&self, o: Oop, at: u32) -> Oop {
        self.pointers.set(self.pointers.get().wrapping_add(1));
        self.memory.pointer(o, at)
    }

    fn word(&self, o: Oop, at: u32) -> u16 {
        self.memory.word(o, at)
    }

    fn byte(&self, o: Oop, at: u32) -> u8 {
        self.memory.byte(o, at)
    }

    fn set_pointer(&mut self, o: Oop, at: u32, v: Oop) {
        self.memory.set_pointer(o, at, v);
    }

    fn set_word(&mut self, o: Oop, at: u32, v: u16) {
        self.memory.set_word(o, at, v);
    }

    fn set_byte(&mut self, o: Oop, at: u32, v: u8) {
        self.memory.set_byte(o, at, v);
    }

    fn room(&self, d: Demand) -> bool {
        self.memory.room(d)
    }

    fn make(&mut self, class: Oop, kind: Kind, size: u32, literals: u32) -> Oop {
        self.memory.make(class, kind, size, literals)
    }

    fn swap(&mut self, a: Oop, b: Oop) {
        self.memory.swap(a, b);
    }

    fn held(&self, place: RootPlace) -> Oop {
        self.memory.held(place)
    }

    fn hold(&mut self, place: RootPlace, o: Oop) {
        self.memory.hold(place, o);
    }

    fn settle(&mut self) {
        self.memory.settle();
    }

    fn used(&self) -> Demand {
        self.memory.used()
    }

    fn capacity(&self) -> Demand {
        self.memory.capacity()
    }

    fn next_of(&self, class: Oop, after: u32) -> Option<Oop> {
        self.memory.next_of(class, after)
    }

    fn next_live(&self, after: u32) -> Option<Oop> {
        self.memory.next_live(after)
    }

    fn globals(&self) -> Oop {
        self.memory.globals()
    }

    fn symbols(&self) -> Oop {
        self.memory.symbols()
    }

    fn remembered(&self, class: Oop, selector: Oop) -> Option<Oop> {
        self.memory.remembered(class, selector)
    }

    fn remember(&mut self, class: Oop, selector: Oop, method: Oop) {
        self.memory.remember(class, selector, method);
    }

    fn place(&self, o: Oop) -> Option<u32> {
        self.memory.place(o)
    }

    ghost whole = { λ c. M.whole c.memory };
}

/// A machine over a memory that counts, around one that a loader makes.
fn machine_of<L: Loader>(
    alloc: Global,
    words: Parts<'_>,
) -> Result<Machine<Counting<L::Done>>, Fail>
    ensures { IfOk result (λ m. m.death ≡ None
        → IsReady (L.Done.view m.memory.memory) m.frame m.world) }
{
    let (length, parts, _) = plan_of(Image::C);
    let (loaded, world) = ready::<L>(alloc, (length, parts, words))?;
    let memory = Counting {
        memory: loaded.memory,
        pointers: Cell::new(0),
    };
    let counting = Loaded {
        memory,
        frame: loaded.frame,
    };
    Ok(Machine::boot(counting, world))
}

/// How many calls of `pointer` there were.
fn pointers<M: Memory>(machine: &Machine<Counting<M>>) -> u32 {
    machine.memory().pointers.get()
}

/// Words in place of some of image C's objects, and the selector for which class 12's method 72 is found in the third cycle.
const SENT: &[(Parts<'static>, u16)] = &[
    // The method is 32 118 176: the addition of 16383 and 1 fails, and is sent, which is foreseen.
    (&[], 66),
    // With the literal 66 it is 118 118 224: 1 is sent 66 with the argument 1, at once.
    (&[(336, &[66, 30326, 57344])], 66),
    // The dictionary has 42, doesNotUnderstand:, in place of 66.
    (&[(346, &[42])], 42),
];

/// Whether after three cycles of an image class 12's method 72 is remembered for the selector, and found without a look at any
/// field.
fn is_remembered<L: Loader>(alloc: Global, words: Parts<'_>, selector: Oop) -> Result<bool, Fail> {
    let method = Oop(72);
    let mut machine = machine_of::<L>(alloc, words)?;
    let is_remembered = machine.run(3) == RunEnd::Ran
        && remembered(machine.memory(), Oop(12), selector) == Some(method);
    let before = pointers(&machine);
    let found = find(machine.memory(), Oop(12), selector);
    Ok(is_remembered && found == Ok(Some(method)) && pointers(&machine) == before)
}

pub fn check_sent<L: Loader>(rt: &(impl Abort + AllocGlobal)) -> Result<(), Fail> {
    for (words, selector) in SENT {
        let is_remembered = is_remembered::<L>(rt.alloc(), words, Oop(*selector))?;
        assert!(rt; is_remembered);
    }
    Ok(())
}
