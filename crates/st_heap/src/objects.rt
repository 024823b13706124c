ghost use Rattle.std.specs.Prelude.{◌≡◌, ◌≢◌, ◌<◌, ◌≤◌, ◌+◌, ◌-◌, ◌/◌, ◌%◌, ℕ, length, take, drop, true, false, Some, None, is_some, IfSome, IfNone, IfOk, slice_get, slice_set};
ghost use Rattle.st_model.specs.declared.oop.Oop.{Oop as Pointer};
ghost use Rattle.st_model.specs.Values.{value, Ref, is_small};
ghost use Rattle.st_model.specs.Objects.{first_unit, is_words, one, size_of, with_units, words_of};
ghost use Rattle.st_model.specs.Table.{entry, changed, total_used, first_free, placed};
ghost use Rattle.st_model.specs.Formed.{IsHeader, IsMakeable, fresh};
ghost use Rattle.st_model.specs.View.{is_live, object_of, with_exchanged, with_stored, with_unit, with_object};
ghost use Rattle.st_table.specs.inside.Entries.{place};
ghost use Rattle.st_heap.specs.inside.Stored.{stored, HasStored};
ghost use Rattle.st_heap.specs.inside.Stores.{stored_of};
ghost use Rattle.st_cells.specs.inside.Words.{byte_of, with_run};
ghost use Rattle.st_heap.specs.inside.Forms.{AllSound, field_count};

use crate::adding::ObjectLayout;
use crate::store::BlockStore;
use st_model::{Demand, Kind, Oop, literals};
use std::alloc::{AllocError, Global};

/// Objects in a heap. Place k of the table is that of pointer 2k.
#[derive(Drop)]
pub struct HeapObjects {
    store: BlockStore,
    pub ghost sound: { AllSound (stored_of store) },
}

impl HeapObjects {
    ghost use Rattle.st_heap.specs.inside.Tables.{objects_of, room_of};
    ghost use Rattle.st_heap.specs.inside.Places.{SamePlaces, SameOtherPlaces, Stands};
    ghost use Rattle.st_heap.specs.inside.Links.{next_of, before_of, SameLinks, SameOtherLinks, WithNext, WithBefore};

    /// No objects, and room for so many words.
    pub fn new(alloc: Global, words: u32) -> Result<HeapObjects, AllocError>
        ensures places { IfOk result (λ o. length (objects_of o) ≡ 32768) }
        ensures empty { IfOk result (λ o. (k : ℕ) → entry (objects_of o) k ≡ None) }
        ensures room { IfOk result (λ o. room_of o ≡ words) }
    {
        let store = BlockStore::new(alloc, words)?;
        Ok(HeapObjects { store })
    }

    /// Whether the word is the pointer of an object.
    pub fn live(&self, o: Oop) -> bool
        ensures { result ≡ is_live (objects_of self.now) (value o) }
    {
        self.store.has(o)
    }

    /// The class of an object.
    pub fn class_of(&self, o: Oop) -> Oop
        requires { is_live (objects_of self.now) (value o) ≡ true }
        ensures { value result ≡ Ref (object_of (objects_of self.now) (value o)).class }
    {
        Oop(self.store.word(o, 1))
    }

    /// What the body of an object consists of.
    pub fn kind(&self, o: Oop) -> Kind
        requires { is_live (objects_of self.now) (value o) ≡ true }
        ensures { result ≡ (object_of (objects_of self.now) (value o)).kind }
    {
        self.store.kind(o)
    }

    /// How many fields are stored.
    fn stored_fields(&self, o: Oop) -> u32
        requires { HasStored (stored_of self.now.store) o }
        ensures { result ≡ field_count (stored (stored_of self.now.store) (place o)) }
    {
        match self.store.kind(o) {
            Kind::Pointers => u32::from(self.store.word(o, 0)) - 2,
            Kind::Words | Kind::Bytes => 0,
            Kind::Method => literals(Oop(self.store.word(o, 2))) + 1,
        }
    }

    /// How many fields an object has; of a Method header and literals.
    pub fn count_fields(&self, o: Oop) -> u32
        requires { is_live (objects_of self.now) (value o) ≡ true }
        ensures { result ≡ length (object_of (objects_of self.now) (value o)).fields }
    {
        self.stored_fields(o)
    }

    /// How many fields, words or bytes an object has; a Method's header and literals count as bytes.
    pub fn size(&self, o: Oop) -> u32
        requires { is_live (objects_of self.now) (value o) ≡ true }
        ensures { result ≡ size_of (object_of (objects_of self.now) (value o)) }
    {
        let words = u32::from(self.store.word(o, 0)) - 2;
        match self.store.kind(o) {
            Kind::Pointers | Kind::Words => words,
            Kind::Bytes | Kind::Method => {
                if self.store.odd(o) {
                    2 * words - 1
                } else {
                    2 * words
                }
            }
        }
    }

    /// Field `at` of an object.
    pub fn field(&self, o: Oop, at: u32) -> Oop
        requires live { is_live (objects_of self.now) (value o) ≡ true }
        requires range { at < length (object_of (objects_of self.now) (value o)).fields }
        ensures { slice_get (object_of (objects_of self.now) (value o)).fields at ≡ Some (value result) }
    {
        Oop(self.store.word(o, 2 + at))
    }

    /// The place at which an object's block stands.
    pub fn place_of(&self, o: Oop) -> u32
        requires { is_live (objects_of self.now) (value o) ≡ true }
        ensures { Stands self.now (value o) result }
    {
        self.store.place_of(o)
    }

    /// Field `at` of an object whose block stands at a place.
    pub fn placed_field(&self, o: Oop, stand: u32, at: u32) -> Oop
        requires live { is_live (objects_of self.now) (value o) ≡ true }
        requires place { Stands self.now (value o) stand }
        requires range { at < length (object_of (objects_of self.now) (value o)).fields }
        ensures { slice_get (object_of (objects_of self.now) (value o)).fields at ≡ Some (value result) }
    {
        Oop(self.store.placed_word(o, stand, 2 + at))
    }

    /// Byte `at` of an object of kind Bytes or Method whose block stands at a place; of a Method, whose header and literals count,
    /// from the first bytecode on.
    pub fn placed_byte(&self, o: Oop, stand: u32, at: u32) -> u16
        requires live { is_live (objects_of self.now) (value o) ≡ true }
        requires place { Stands self.now (value o) stand }
        requires kind { is_words (object_of (objects_of self.now) (value o)).kind ≡ false }
        requires above { first_unit (object_of (objects_of self.now) (value o)) ≤ at }
        requires range { let object = object_of (objects_of self.now) (value o) in
            at < first_unit object + length object.units }
        ensures { let object = object_of (objects_of self.now) (value o) in
            slice_get object.units (at - first_unit object) ≡ Some result }
    {
        let word = self.store.placed_word(o, stand, 2 + at / 2);
        if at % 2 == 0 { word / 256 } else { word % 256 }
    }

    /// Stores v in field `at` of an object whose block stands at a place; in a Method's header only what counts the same literals.
    pub fn set_placed_field(&mut self, o: Oop, stand: u32, at: u32, v: Oop)
        requires live { is_live (objects_of self.old) (value o) ≡ true }
        requires place { Stands self.old (value o) stand }
        requires range { at < length (object_of (objects_of self.old) (value o)).fields }
        requires header { IsHeader (object_of (objects_of self.old) (value o)) at (value v) }
        ensures objects { objects_of self.new ≡ with_stored (objects_of self.old) (value o) at (value v) }
        ensures room { room_of self.new ≡ room_of self.old }
        ensures links { SameLinks self.old.store self.new.store }
        ensures places { SamePlaces self.old.store self.new.store }
    {
        self.store.set_placed_word(o, stand, 2 + at, v.0);
    }

    /// Word `at` of an object of kind Words.
    pub fn word(&self, o: Oop, at: u32) -> u16
        requires live { is_live (objects_of self.now) (value o) ≡ true }
        requires kind { is_words (object_of (objects_of self.now) (value o)).kind ≡ true }
        requires range { at < size_of (object_of (objects_of self.now) (value o)) }
        ensures { slice_get (object_of (objects_of self.now) (value o)).units at ≡ Some result }
    {
        self.store.word(o, 2 + at)
    }

    /// Byte `at` of an object of kind Bytes or Method; of a Method, whose header and literals count, from the first bytecode on.
    pub fn byte(&self, o: Oop, at: u32) -> u16
        requires live { is_live (objects_of self.now) (value o) ≡ true }
        requires kind { is_words (object_of (objects_of self.now) (value o)).kind ≡ false }
        requires above { first_unit (object_of (objects_of self.now) (value o)) ≤ at }
        requires range { let object = object_of (objects_of self.now) (value o) in
            at < first_unit object + length object.units }
        ensures { let object = object_of (objects_of self.now) (value o) in
            slice_get object.units (at - first_unit object) ≡ Some result }
    {
        let word = self.store.word(o, 2 + at / 2);
        if at % 2 == 0 { word / 256 } else { word % 256 }
    }

    /// Stores v in field `at`; in a Method's header only what counts the same literals.
    pub fn set_field(&mut self, o: Oop, at: u32, v: Oop)
        requires live { is_live (objects_of self.old) (value o) ≡ true }
        requires range { at < length (object_of (objects_of self.old) (value o)).fields }
        requires header { IsHeader (object_of (objects_of self.old) (value o)) at (value v) }
        ensures objects { objects_of self.new ≡ with_stored (objects_of self.old) (value o) at (value v) }
        ensures room { room_of self.new ≡ room_of self.old }
        ensures links { SameLinks self.old.store self.new.store }
        ensures places { SamePlaces self.old.store self.new.store }
    {
        self.store.set_word(o, 2 + at, v.0);
    }

    /// Stores v in word `at` of an object of kind Words.
    pub fn set_word(&mut self, o: Oop, at: u32, v: u16)
        requires live { is_live (objects_of self.old) (value o) ≡ true }
        requires kind { is_words (object_of (objects_of self.old) (value o)).kind ≡ true }
        requires range { at < size_of (object_of (objects_of self.old) (value o)) }
        ensures objects { objects_of self.new ≡ with_unit (objects_of self.old) (value o) at v }
        ensures room { room_of self.new ≡ room_of self.old }
        ensures links { SameLinks self.old.store self.new.store }
    {
        self.store.set_word(o, 2 + at, v);
    }

    /// Stores v in byte `at` of an object of kind Bytes or Method; of a Method, whose header and literals count, from the first
    /// bytecode on.
    pub fn set_byte(&mut self, o: Oop, at: u32, v: u8)
        requires live { is_live (objects_of self.old) (value o) ≡ true }
        requires kind { is_words (object_of (objects_of self.old) (value o)).kind ≡ false }
        requires above { first_unit (object_of (objects_of self.old) (value o)) ≤ at }
        requires range { let object = object_of (objects_of self.old) (value o) in
            at < first_unit object + length object.units }
        ensures objects { let first = first_unit (object_of (objects_of self.old) (value o)) in
            objects_of self.new ≡ with_unit (objects_of self.old) (value o) (at - first) v }
        ensures room { room_of self.new ≡ room_of self.old }
        ensures links { SameLinks self.old.store self.new.store }
    {
        let half = 2 + at / 2;
        let word = with_byte(self.store.word(o, half), at, u16::from(v));
        self.store.set_word(o, half, word);
    }

    /// Reads the words of an object of kind Words from `at` on, as many as there is room for.
    pub fn read_words(&self, o: Oop, at: u32, into: &mut [u16])
        requires live { is_live (objects_of self.now) (value o) ≡ true }
        requires kind { is_words (object_of (objects_of self.now) (value o)).kind ≡ true }
        requires range { at + length into.old ≤ size_of (object_of (objects_of self.now) (value o)) }
        ensures { let object = object_of (objects_of self.now) (value o) in
            into.new ≡ take (length into.old) (drop at object.units) }
    {
        self.store.read(o, 2 + at, into);
    }

    /// Stores words in those of an object of kind Words from `at` on.
    pub fn write_words(&mut self, o: Oop, at: u32, words: &[u16])
        requires live { is_live (objects_of self.old) (value o) ≡ true }
        requires kind { is_words (object_of (objects_of self.old) (value o)).kind ≡ true }
        requires range { at + length words.now ≤ size_of (object_of (objects_of self.old) (value o)) }
        ensures objects { let object = object_of (objects_of self.old) (value o) in
            let units = with_run object.units at words.now in
            objects_of self.new ≡ changed (objects_of self.old) (place o) (with_units object units) }
        ensures room { room_of self.new ≡ room_of self.old }
        ensures links { SameLinks self.old.store self.new.store }
    {
        self.store.write(o, 2 + at, words);
    }

    /// Reads the bytes of an object of kind Bytes or Method from `at` on, as many as there is room for; of a Method, whose
    /// header and literals count, from the first bytecode on.
    pub fn read_bytes(&self, o: Oop, at: u32, into: &mut [u8])
        requires live { is_live (objects_of self.now) (value o) ≡ true }
        requires kind { is_words (object_of (objects_of self.now) (value o)).kind ≡ false }
        requires above { first_unit (object_of (objects_of self.now) (value o)) ≤ at }
        requires range { let object = object_of (objects_of self.now) (value o) in
            at + length into.old ≤ first_unit object + length object.units }
        ensures { let object = object_of (objects_of self.now) (value o) in
            into.new ≡ take (length into.old) (drop (at - first_unit object) object.units) }
    {
        self.store.read_bytes(o, at, into);
    }

    /// Stores bytes in those of an object of kind Bytes or Method from `at` on; of a Method, whose header and literals count,
    /// from the first bytecode on.
    pub fn write_bytes(&mut self, o: Oop, at: u32, bytes: &[u8])
        requires live { is_live (objects_of self.old) (value o) ≡ true }
        requires kind { is_words (object_of (objects_of self.old) (value o)).kind ≡ false }
        requires above { first_unit (object_of (objects_of self.old) (value o)) ≤ at }
        requires range { let object = object_of (objects_of self.old) (value o) in
            at + length bytes.now ≤ first_unit object + length object.units }
        ensures objects { let object = object_of (objects_of self.old) (value o) in
            let units = with_run object.units (at - first_unit object) bytes.now in
            objects_of self.new ≡ changed (objects_of self.old) (place o) (with_units object units) }
        ensures room { room_of self.new ≡ room_of self.old }
        ensures links { SameLinks self.old.store self.new.store }
    {
        self.store.write_bytes(o, at, bytes);
    }

    /// Exchanges the objects of two pointers.
    pub fn exchange(&mut self, a: Oop, b: Oop)
        requires first { is_live (objects_of self.old) (value a) ≡ true }
        requires second { is_live (objects_of self.old) (value b) ≡ true }
        ensures objects { objects_of self.new ≡ with_exchanged (objects_of self.old) (value a) (value b) }
        ensures room { room_of self.new ≡ room_of self.old }
        ensures links { SameLinks self.old.store self.new.store }
    {
        self.store.exchange(a, b);
    }

    /// Takes an object away.
    pub fn remove(&mut self, o: Oop)
        requires { is_live (objects_of self.old) (value o) ≡ true }
        ensures objects { objects_of self.new ≡ slice_set (objects_of self.old) (place o) None }
        ensures room { room_of self.new ≡ room_of self.old }
        ensures places { SameOtherPlaces self.old.store self.new.store (place o) }
        ensures links { SameOtherLinks self.old.store self.new.store (place o) }
    {
        let words = u32::from(self.store.word(o, 0));
        self.store.free(o, words);
    }

    /// The pointer of what follows an object in the list that it is in, or 0.
    pub fn next(&self, o: Oop) -> Oop
        requires { is_live (objects_of self.now) (value o) ≡ true }
        ensures { place result ≡ next_of self.now.store (place o) }
    {
        self.store.next(o)
    }

    /// The pointer of what stands before it there, or 0.
    pub fn before(&self, o: Oop) -> Oop
        requires { is_live (objects_of self.now) (value o) ≡ true }
        ensures { place result ≡ before_of self.now.store (place o) }
    {
        self.store.before(o)
    }

    /// Has another follow the object at the place of a pointer.
    pub fn set_next(&mut self, o: Oop, next: Oop)
        requires { is_some (entry (objects_of self.old) (place o)) ≡ true }
        ensures objects { objects_of self.new ≡ objects_of self.old }
        ensures room { room_of self.new ≡ room_of self.old }
        ensures links { WithNext self.old.store self.new.store (place o) (place next) }
        ensures places { SamePlaces self.old.store self.new.store }
    {
        self.store.set_next(o, next);
    }

    /// Has another stand before it.
    pub fn set_before(&mut self, o: Oop, before: Oop)
        requires { is_some (entry (objects_of self.old) (place o)) ≡ true }
        ensures objects { objects_of self.new ≡ objects_of self.old }
        ensures room { room_of self.new ≡ room_of self.old }
        ensures links { WithBefore self.old.store self.new.store (place o) (place before) }
        ensures places { SamePlaces self.old.store self.new.store }
    {
        self.store.set_before(o, before);
    }

    /// A new object at a free pointer, with fields of nil, units of 0 and, in a Method, its literal count.
    #[inline(always)]
    pub fn place(&mut self, at: Oop, class: Oop, kind: Kind, size: u32, literals: u32)
        requires even { is_small (value at) ≡ false }
        requires borne { at.0 ≢ 0 }
        requires free { is_live (objects_of self.old) (value at) ≡ false }
        requires class { is_small (value class) ≡ false }
        requires makeable { IsMakeable (class.0 / 2) kind size literals }
        requires words { let new = fresh (class.0 / 2) kind size literals in
            total_used words_of (objects_of self.old) + words_of new ≤ room_of self.old }
        ensures objects { let new = fresh (class.0 / 2) kind size literals in
            objects_of self.new ≡ with_object (objects_of self.old) (value at) new }
        ensures room { room_of self.new ≡ room_of self.old }
        ensures links { SameOtherLinks self.old.store self.new.store (place at) }
    {
        let form = ObjectLayout::new(class, kind, size, literals);
        form.store(&mut self.store, at);
    }

    /// The least free pointer.
    fn least_free(&self) -> Oop
        requires { first_free (objects_of self.now) < 32768 }
        ensures least { value result ≡ Ref (first_free (objects_of self.now)) }
        ensures borne { result.0 ≢ 0 }
    {
        self.store.least_free().unwrap()
    }

    /// A new object at the least free pointer.
    pub fn make(&mut self, class: Oop, kind: Kind, size: u32, literals: u32) -> Oop
        requires left { first_free (objects_of self.old) < 32768 }
        requires class { is_small (value class) ≡ false }
        requires makeable { IsMakeable (class.0 / 2) kind size literals }
        requires words { let new = fresh (class.0 / 2) kind size literals in
            total_used words_of (objects_of self.old) + words_of new ≤ room_of self.old }
        ensures pointer { value result ≡ Ref (first_free (objects_of self.old)) }
        ensures objects { let new = fresh (class.0 / 2) kind size literals in
            objects_of self.new ≡ placed (objects_of self.old) new }
        ensures room { room_of self.new ≡ room_of self.old }
        ensures links { SameOtherLinks self.old.store self.new.store (place result) }
    {
        let at = self.least_free();
        self.place(at, class, kind, size, literals);
        at
    }

    /// How many objects there are, and how many words they have.
    pub fn used(&self) -> Demand
        ensures { let t = objects_of self.now in
            result ≡ record { entries = total_used one t; words = total_used words_of t } }
    {
        self.store.used
    }

    /// The least pointer of an object above `after`.
    pub fn next_live(&self, after: u32) -> Option<Oop>
        ensures found { IfSome result (λ o. (is_live (objects_of self.now) (value o) ≡ true)
            × (after < o.0)) }
        ensures least { IfSome result (λ o. (p : Pointer) → after < p.0 → p.0 < o.0
            → is_live (objects_of self.now) (value p) ≡ false) }
        ensures none { IfNone result ((p : Pointer) → after < p.0
            → is_live (objects_of self.now) (value p) ≡ false) }
    {
        for k in after / 2 + 1..32768 {
            let o = Oop((2 * k) as u16);
            if self.live(o) {
                return Some(o);
            }
        }
        None
    }
}

/// A word with another byte in one half: the upper one for an even place.
fn with_byte(word: u16, at: u32, byte: u16) -> u16
    requires { byte < 256 }
    ensures here { byte_of result at ≡ byte }
    ensures other { (j : ℕ) → j % 2 ≢ at % 2 → byte_of result j ≡ byte_of word j }
{
    if at % 2 == 0 {
        byte * 256 + word % 256
    } else {
        word / 256 * 256 + byte
    }
}
