ghost use Rattle.std.specs.Prelude.{◌≡◌, ◌+◌, ◌≤◌, ◌/◌, ◌%◌, true, false, Some, slice_set};
ghost use Rattle.st_model.specs.Objects.{words_of, is_method};
ghost use Rattle.st_model.specs.Formed.{IsMakeable, fresh};
ghost use Rattle.st_table.specs.inside.Entries.{place};
ghost use Rattle.st_heap.specs.inside.Stored.{IsUnused, used_of};
ghost use Rattle.st_heap.specs.inside.Stores.{stored_of, capacity_of};
ghost use Rattle.st_heap.specs.inside.Forms.{object_from, IsSound};
ghost use Rattle.st_heap.specs.inside.Links.{SameOtherLinks};

use crate::store::BlockStore;
use st_model::{Kind, Oop};

/// How many words an object has at most whose words are written at once.
const MOST: usize = 40;

/// What a new object consists of.
#[derive(Clone, Copy)]
pub struct ObjectLayout {
    /// Its class.
    pub class: Oop,
    /// What its body consists of.
    pub kind: Kind,
    /// Whether the last byte of its last word is no part of it.
    pub odd: bool,
    /// How many fields it has; of a Method its header and literals.
    pub fields: u32,
    /// How many literals a Method has.
    pub literals: u32,
    /// How many words it has in all.
    pub words: u32,
}

impl ObjectLayout {
    ghost use Rattle.st_heap.specs.inside.Fresh.{new_stored, new_cell, IsForm};

    /// The layout of a new object of a class, with so many fields, words or bytes and literals.
    pub fn new(class: Oop, kind: Kind, size: u32, literals: u32) -> ObjectLayout
        requires even { class.0 % 2 ≡ 0 }
        requires makeable { IsMakeable (class.0 / 2) kind size literals }
        ensures fresh { object_from (new_stored result) ≡ fresh (class.0 / 2) kind size literals }
        ensures sound { IsSound (new_stored result) }
        ensures form { IsForm result }
        ensures words { result.words ≡ words_of (fresh (class.0 / 2) kind size literals) }
    {
        match kind {
            Kind::Pointers => ObjectLayout {
                class,
                kind,
                odd: false,
                fields: size,
                literals,
                words: 2 + size,
            },
            Kind::Words => ObjectLayout {
                class,
                kind,
                odd: false,
                fields: 0,
                literals,
                words: 2 + size,
            },
            Kind::Bytes => ObjectLayout {
                class,
                kind,
                odd: size % 2 == 1,
                fields: 0,
                literals,
                words: 2 + (size + 1) / 2,
            },
            Kind::Method => ObjectLayout {
                class,
                kind,
                odd: size % 2 == 1,
                fields: literals + 1,
                literals,
                words: 2 + (size + 1) / 2,
            },
        }
    }

    /// Word i of the new object.
    fn word(&self, i: u32) -> u16
        requires { IsForm self.now }
        ensures { result ≡ new_cell self.now i }
    {
        if i == 0 {
            self.words as u16
        } else if i == 1 {
            self.class.0
        } else if i >= 2 + self.fields {
            0
        } else if self.kind.is_method() && i == 2 {
            2 * self.literals as u16 + 1
        } else {
            Oop::NIL.0
        }
    }

    /// Whether it has nothing but fields, and no more words than are written at once.
    fn is_short(&self) -> bool
        requires { IsForm self.now }
        ensures plain { result ≡ true → is_method self.now.kind ≡ false }
        ensures fields { result ≡ true → self.now.words ≡ 2 + self.now.fields }
        ensures few { result ≡ true → self.now.words ≤ 40 }
    {
        !self.kind.is_method() && self.words == 2 + self.fields && self.words as usize <= MOST
    }

    /// Stores a new object that has nothing but fields, and few, under an unused pointer: its words are written at once.
    #[inline(always)]
    fn store_fields(&self, store: &mut BlockStore, at: Oop)
        requires unused { IsUnused (stored_of store.old) at }
        requires form { IsForm self.now }
        requires room { (used_of (stored_of store.old)).words + self.now.words ≤ capacity_of store.old }
        requires plain { is_method self.now.kind ≡ false }
        requires fields { self.now.words ≡ 2 + self.now.fields }
        requires few { self.now.words ≤ 40 }
        ensures stored { stored_of store.new
            ≡ slice_set (stored_of store.old) (place at) (Some (new_stored self.now)) }
        ensures capacity { capacity_of store.new ≡ capacity_of store.old }
        ensures links { SameOtherLinks store.old store.new (place at) }
    {
        let mut words = [Oop::NIL.0; MOST];
        words[0] = self.words as u16;
        words[1] = self.class.0;
        store.take(at, self.kind, self.odd, self.words);
        store.write(at, 0, &words[..self.words as usize]);
    }

    /// Stores a new object under an unused pointer.
    #[inline(always)]
    pub fn store(&self, store: &mut BlockStore, at: Oop)
        requires unused { IsUnused (stored_of store.old) at }
        requires form { IsForm self.now }
        requires room { (used_of (stored_of store.old)).words + self.now.words ≤ capacity_of store.old }
        ensures stored { stored_of store.new
            ≡ slice_set (stored_of store.old) (place at) (Some (new_stored self.now)) }
        ensures capacity { capacity_of store.new ≡ capacity_of store.old }
        ensures links { SameOtherLinks store.old store.new (place at) }
    {
        if self.is_short() {
            self.store_fields(store, at);
            return;
        }
        store.take(at, self.kind, self.odd, self.words);
        for i in 0..self.words {
            store.set_word(at, i, self.word(i));
        }
    }
}
