ghost use Rattle.std.specs.Prelude.{◌≡◌, ◌<◌, length, true, IfSome};
ghost use Rattle.st_model.specs.{Values.{Value, value}, Table.Table, Formed.IsHeader};
ghost use Rattle.st_model.specs.View.{IsKnown, is_live, object_of, with_stored};
ghost use Rattle.st_memory.specs.{inside.Places.KeepsPlaces, inside.Searched.Finds};
ghost use Rattle.st_lookup.specs.inside.Remembered.{watched, IsOff, Grows, HasNone, AllRemembered, StaysIfOff};

use crate::class::look_up;
use crate::entry::CachedLookup;
use crate::places::search_dictionary;
use crate::reading::Watched;
use crate::watch::Watch;
use st_memory::{Memory, Objects};
use st_model::{Dead, Demand, Kind, Oop, PageObject, RootPlace, Word};

/// A memory that remembers what searches found, the last one for each of 512 slots. It watches the objects that these searches
/// met, with their classes and selectors: where one of them is stored into or exchanged, or a new object bears the pointer of
/// one, it forgets all.
#[derive(Drop)]
pub struct Cached<M: Memory> {
    pub(crate) memory: M,
    pub(crate) watch: Watch,
    pub(crate) entries: Vec<CachedLookup>,
    ghost size: { length entries.items ≡ 512 },
    ghost remembered: { AllRemembered watch.words.items (M.view memory).objects entries.items },
}

/// Where the search for a selector in a class is remembered.
fn slot(class: Oop, selector: Oop) -> usize
    ensures { result < 512 }
{
    usize::from(((class.0 >> 1) ^ (selector.0 >> 1)) & 511)
}

impl<M: Memory> Cached<M> {
    /// A memory of which nothing is remembered.
    pub(crate) fn new(memory: M, watch: Watch, entries: Vec<CachedLookup>) -> Cached<M>
        requires { HasNone entries.items }
        ensures { result.memory ≡ memory }
    {
        Cached {
            memory,
            watch,
            entries,
        }
    }

    /// Forgets all, and stores v in field `at` of an object whose body stands at a place. It stands apart: a store into an object
    /// that isn't watched then makes no call here, and keeps nothing over one.
    #[inline(never)]
    fn set_watched_pointer(&mut self, o: Oop, place: u32, at: u32, v: Oop)
        requires live { is_live (M.view self.old.memory).objects (value o) ≡ true }
        requires place { M.stands self.old.memory (value o) place }
        requires range { at < length (object_of (M.view self.old.memory).objects (value o)).fields }
        requires known { IsKnown (M.view self.old.memory).objects (value v) }
        requires header { IsHeader (object_of (M.view self.old.memory).objects (value o)) at (value v) }
        ensures objects { (M.view self.new.memory).objects
            ≡ with_stored (M.view self.old.memory).objects (value o) at (value v) }
        ensures held { (M.view self.new.memory).held ≡ (M.view self.old.memory).held }
        ensures head { (M.view self.new.memory).head ≡ (M.view self.old.memory).head }
        ensures places { KeepsPlaces (M.stands self.old.memory) (M.stands self.new.memory) }
        ensures off { (w : Value) → IsOff self.new.watch.words.items w }
    {
        forget(&mut self.watch, &mut self.entries);
        self.memory.set_placed_pointer(o, place, at, v);
    }
}

/// Watches the pointer of a word, where it is one.
fn add_word(watch: &mut Watch, o: Word)
    ensures { Grows watch.old.words.items watch.new.words.items }
{
    if o.0 <= 65535 {
        watch.add(Oop(o.0 as u16));
    }
}

/// Watches a class and its dictionary, and the Array of methods and the method where it has one for the selector. Answers
/// whether it has.
fn mark_class<M: Memory>(
    m: &M,
    watch: &mut Watch,
    class: Word,
    selector: Word,
) -> Result<bool, Dead>
    ensures { Grows watch.old.words.items watch.new.words.items }
{
    add_word(watch, class);
    let dictionary = m.fetch_field(class, 1)?;
    add_word(watch, dictionary);
    let fields = m.count_fields(dictionary)?;
    if fields <= 2 {
        return Ok(false);
    }
    match search_dictionary(m, dictionary, selector, fields - 2)? {
        Some(method) => {
            add_word(watch, method);
            add_word(watch, m.fetch_field(dictionary, 1)?);
            Ok(true)
        }
        None => Ok(false),
    }
}

/// Watches what the search for a selector meets, from a class on. It promises nothing: `is_seen` says whether that was all.
fn mark<M: Memory>(m: &M, watch: &mut Watch, class: Word, selector: Word)
    ensures { Grows watch.old.words.items watch.new.words.items }
{
    let mut class = class;
    for _ in 0..32767 {
        if class.same(PageObject::NilObject.word()) {
            return;
        }
        match mark_class(m, watch, class, selector) {
            Ok(false) => {}
            _ => return,
        }
        match m.fetch_field(class, 0) {
            Ok(above) => class = above,
            Err(_) => return,
        }
    }
}

/// Whether a search that meets watched objects alone finds the method.
fn is_seen<M: Memory>(m: &M, watch: &Watch, class: Oop, selector: Oop, method: Oop) -> bool
    ensures { result ≡ true → Finds (watched watch.now.words.items (M.view m.now).objects)
        (value class) (value selector) (value method) }
{
    let seen = Watched { memory: m, watch };
    match look_up(&seen, Word::from(class), Word::from(selector)) {
        Ok(Some(found)) => found.same(Word::from(method)),
        _ => false,
    }
}

/// Forgets all.
#[inline(never)]
fn forget(watch: &mut Watch, entries: &mut Vec<CachedLookup>)
    ensures size { length entries.new.items ≡ length entries.old.items }
    ensures off { (v : Value) → IsOff watch.new.words.items v }
    ensures none { (t : Table) → AllRemembered watch.new.words.items t entries.new.items }
{
    entries.fill(CachedLookup::NONE);
    watch.clear();
}

/// Forgets all where the pointer is watched, whose object was changed or is about to be. Where it isn't, that is a test of one
/// bit; a store asks before it stores, so that nothing has to be kept over it.
#[inline(always)]
fn forget_if(watch: &mut Watch, entries: &mut Vec<CachedLookup>, o: Oop)
    ensures size { length entries.new.items ≡ length entries.old.items }
    ensures off { IsOff watch.new.words.items (value o) }
    ensures fewer { (v : Value) → IsOff watch.old.words.items v → IsOff watch.new.words.items v }
    ensures kept { (t u : Table) → StaysIfOff watch.old.words.items (value o) t u
        → AllRemembered watch.old.words.items t entries.old.items
        → AllRemembered watch.new.words.items u entries.new.items }
{
    if watch.has(o) {
        forget(watch, entries);
    }
}

impl<M: Memory> Memory for Cached<M> {
    ghost view = { λ c. M.view c.memory };

    ghost stands = { λ c. M.stands c.memory };

    fn live(&self, o: Oop) -> bool {
        self.memory.live(o)
    }

    fn class_of(&self, o: Oop) -> Oop {
        self.memory.class_of(o)
    }

    fn kind(&self, o: Oop) -> Kind {
        self.memory.kind(o)
    }

    fn size(&self, o: Oop) -> u32 {
        self.memory.size(o)
    }

    fn pointer(&self, o: Oop, at: u32) -> Oop {
        self.memory.pointer(o, at)
    }

    fn word(&self, o: Oop, at: u32) -> u16 {
        self.memory.word(o, at)
    }

    fn byte(&self, o: Oop, at: u32) -> u8 {
        self.memory.byte(o, at)
    }

    fn set_pointer(&mut self, o: Oop, at: u32, v: Oop) {
        forget_if(&mut self.watch, &mut self.entries, o);
        self.memory.set_pointer(o, at, v);
    }

    fn set_word(&mut self, o: Oop, at: u32, v: u16) {
        forget_if(&mut self.watch, &mut self.entries, o);
        self.memory.set_word(o, at, v);
    }

    fn set_byte(&mut self, o: Oop, at: u32, v: u8) {
        forget_if(&mut self.watch, &mut self.entries, o);
        self.memory.set_byte(o, at, v);
    }

    fn read_words(&self, o: Oop, at: u32, into: &mut [u16]) {
        self.memory.read_words(o, at, into);
    }

    fn read_bytes(&self, o: Oop, at: u32, into: &mut [u8]) {
        self.memory.read_bytes(o, at, into);
    }

    fn write_words(&mut self, o: Oop, at: u32, words: &[u16]) {
        forget_if(&mut self.watch, &mut self.entries, o);
        self.memory.write_words(o, at, words);
    }

    fn write_bytes(&mut self, o: Oop, at: u32, bytes: &[u8]) {
        forget_if(&mut self.watch, &mut self.entries, o);
        self.memory.write_bytes(o, at, bytes);
    }

    fn room(&self, d: Demand) -> bool {
        self.memory.room(d)
    }

    fn make(&mut self, class: Oop, kind: Kind, size: u32, literals: u32) -> Oop {
        let made = self.memory.make(class, kind, size, literals);
        forget_if(&mut self.watch, &mut self.entries, made);
        made
    }

    fn swap(&mut self, a: Oop, b: Oop) {
        forget_if(&mut self.watch, &mut self.entries, a);
        forget_if(&mut self.watch, &mut self.entries, b);
        self.memory.swap(a, b);
    }

    fn held(&self, place: RootPlace) -> Oop {
        self.memory.held(place)
    }

    #[inline(always)]
    fn hold(&mut self, place: RootPlace, o: Oop) {
        self.memory.hold(place, o);
    }

    #[inline(always)]
    fn settle(&mut self) {
        self.memory.settle();
    }

    fn used(&self) -> Demand {
        self.memory.used()
    }

    fn capacity(&self) -> Demand {
        self.memory.capacity()
    }

    fn next_of(&self, class: Oop, after: u32) -> Option<Oop> {
        self.memory.next_of(class, after)
    }

    fn next_live(&self, after: u32) -> Option<Oop> {
        self.memory.next_live(after)
    }

    fn globals(&self) -> Oop {
        self.memory.globals()
    }

    fn symbols(&self) -> Oop {
        self.memory.symbols()
    }

    fn remembered(&self, class: Oop, selector: Oop) -> Option<Oop> {
        let entry = self.entries[slot(class, selector)];
        if entry.class == class && entry.selector == selector {
            Some(entry.method)
        } else {
            None
        }
    }

    fn remember(&mut self, class: Oop, selector: Oop, method: Oop) {
        self.watch.add(class);
        self.watch.add(selector);
        mark(
            &self.memory,
            &mut self.watch,
            Word::from(class),
            Word::from(selector),
        );
        if is_seen(&self.memory, &self.watch, class, selector, method) {
            self.entries[slot(class, selector)] = CachedLookup {
                class,
                selector,
                method,
            };
        }
    }

    fn place(&self, o: Oop) -> Option<u32> {
        self.memory.place(o)
    }

    #[inline(always)]
    fn placed_pointer(&self, o: Oop, place: u32, at: u32) -> Oop {
        self.memory.placed_pointer(o, place, at)
    }

    #[inline(always)]
    fn placed_byte(&self, o: Oop, place: u32, at: u32) -> u8 {
        self.memory.placed_byte(o, place, at)
    }

    #[inline(always)]
    fn set_placed_pointer(&mut self, o: Oop, place: u32, at: u32, v: Oop) {
        if self.watch.has(o) {
            self.set_watched_pointer(o, place, at, v);
        } else {
            self.memory.set_placed_pointer(o, place, at, v);
        }
    }

    ghost whole = { λ c. M.whole c.memory };
}
