ghost use Rattle.std.specs.Prelude.{ℕ, ◌≡◌, ◌<◌, ◌≤◌, ◌+◌, ◌-◌, ◌/◌, length, slice_get, Some, true, false, IfSome, IfNone, ⊤};
ghost use Rattle.st_model.specs.{declared.oop.Oop.Oop, Values.{Value, value, Ref}};
ghost use Rattle.st_model.specs.Objects.{is_method, is_words, size_of, words_of, first_unit, one};
ghost use Rattle.st_model.specs.Table.{total_used, first_free, placed};
ghost use Rattle.st_model.specs.Formed.{IsHeader, IsMakeable, fresh};
ghost use Rattle.st_model.specs.View.{View, IsKnown, is_live, object_of, IsWhole, IsPlace, held_at, with_held, with_stored, with_unit, with_exchanged, is_instance, table_of, SettlesTo, demand_of, fits};
ghost use Rattle.st_memory.specs.{inside.Copied.{units_from, with_run}, inside.Places.{KeepsPlaces, KeepsPlacesIn}};
ghost use Rattle.st_memory.specs.inside.Searched.{Finds};

use st_model::{Demand, Kind, Oop, RootPlace};

/// A memory of objects under pointers. Pointers are even and from 2 to 65534; each call on an object asks that it is live.
pub trait Memory: Drop {
    /// What it contains: the objects by halved pointers, what is held, and the head.
    ghost view: { Self → View };

    /// At which place the body of an object stands, if it has one. Calls that have a clause `places` leave it there.
    ghost stands: { Self → Value → ℕ → Type 0 } = { λ m v place. ⊤ };

    /// Whether o is the pointer of a kept object.
    fn live(&self, o: Oop) -> bool
        ensures { result ≡ is_live (view self.now).objects (value o) };

    /// The class of an object.
    fn class_of(&self, o: Oop) -> Oop
        requires { is_live (view self.now).objects (value o) ≡ true }
        ensures class { value result ≡ Ref (object_of (view self.now).objects (value o)).class }
        ensures known { IsKnown (view self.now).objects (value result) };

    /// What the body of an object consists of.
    fn kind(&self, o: Oop) -> Kind
        requires { is_live (view self.now).objects (value o) ≡ true }
        ensures kind { result ≡ (object_of (view self.now).objects (value o)).kind }
        ensures method { is_method result ≡ true
            → 0 < length (object_of (view self.now).objects (value o)).fields };

    /// How many fields, words or bytes it has; a Method's header and literals count as bytes.
    fn size(&self, o: Oop) -> u32
        requires { is_live (view self.now).objects (value o) ≡ true }
        ensures size { result ≡ size_of (object_of (view self.now).objects (value o)) }
        ensures small { result ≤ 131066 };

    /// Field `at` of an object; of a Method 0 is the header, and the literals follow.
    fn pointer(&self, o: Oop, at: u32) -> Oop
        requires live { is_live (view self.now).objects (value o) ≡ true }
        requires range { at < length (object_of (view self.now).objects (value o)).fields }
        ensures field { slice_get (object_of (view self.now).objects (value o)).fields at
            ≡ Some (value result) }
        ensures header { IsHeader (object_of (view self.now).objects (value o)) at (value result) }
        ensures known { IsKnown (view self.now).objects (value result) };

    /// Word `at` of an object of kind Words.
    fn word(&self, o: Oop, at: u32) -> u16
        requires live { is_live (view self.now).objects (value o) ≡ true }
        requires kind { is_words (object_of (view self.now).objects (value o)).kind ≡ true }
        requires range { at < size_of (object_of (view self.now).objects (value o)) }
        ensures { slice_get (object_of (view self.now).objects (value o)).units at ≡ Some result };

    /// Byte `at` of an object of kind Bytes or Method; of a Method from the first bytecode on.
    fn byte(&self, o: Oop, at: u32) -> u8
        requires live { is_live (view self.now).objects (value o) ≡ true }
        requires kind { is_words (object_of (view self.now).objects (value o)).kind ≡ false }
        requires above { first_unit (object_of (view self.now).objects (value o)) ≤ at }
        requires range { at < size_of (object_of (view self.now).objects (value o)) }
        ensures { let object = object_of (view self.now).objects (value o) in
            slice_get object.units (at - first_unit object) ≡ Some result };

    /// Stores v in field `at`; in a Method's header only what counts the same literals.
    fn set_pointer(&mut self, o: Oop, at: u32, v: Oop)
        requires live { is_live (view self.old).objects (value o) ≡ true }
        requires range { at < length (object_of (view self.old).objects (value o)).fields }
        requires known { IsKnown (view self.old).objects (value v) }
        requires header { IsHeader (object_of (view self.old).objects (value o)) at (value v) }
        ensures objects { (view self.new).objects
            ≡ with_stored (view self.old).objects (value o) at (value v) }
        ensures held { (view self.new).held ≡ (view self.old).held }
        ensures head { (view self.new).head ≡ (view self.old).head }
        ensures places { KeepsPlaces (stands self.old) (stands self.new) };

    /// Stores v in word `at` of an object of kind Words.
    fn set_word(&mut self, o: Oop, at: u32, v: u16)
        requires live { is_live (view self.old).objects (value o) ≡ true }
        requires kind { is_words (object_of (view self.old).objects (value o)).kind ≡ true }
        requires range { at < size_of (object_of (view self.old).objects (value o)) }
        ensures objects { (view self.new).objects ≡ with_unit (view self.old).objects (value o) at v }
        ensures held { (view self.new).held ≡ (view self.old).held }
        ensures head { (view self.new).head ≡ (view self.old).head };

    /// Stores v in byte `at` of an object of kind Bytes or Method; of a Method from the first bytecode on.
    fn set_byte(&mut self, o: Oop, at: u32, v: u8)
        requires live { is_live (view self.old).objects (value o) ≡ true }
        requires kind { is_words (object_of (view self.old).objects (value o)).kind ≡ false }
        requires above { first_unit (object_of (view self.old).objects (value o)) ≤ at }
        requires range { at < size_of (object_of (view self.old).objects (value o)) }
        ensures objects { let first = first_unit (object_of (view self.old).objects (value o)) in
            (view self.new).objects ≡ with_unit (view self.old).objects (value o) (at - first) v }
        ensures held { (view self.new).held ≡ (view self.old).held }
        ensures head { (view self.new).head ≡ (view self.old).head };

    /// Reads the words of an object of kind Words from `at` on, as many as there is room for.
    fn read_words(&self, o: Oop, at: u32, into: &mut [u16])
        requires live { is_live (view self.now).objects (value o) ≡ true }
        requires kind { is_words (object_of (view self.now).objects (value o)).kind ≡ true }
        requires range { at + length into.old ≤ size_of (object_of (view self.now).objects (value o)) }
        ensures { into.new ≡ units_from (view self.now).objects (value o) at (length into.old) }
    {
        for i in 0..into.len() as u32 {
            into[i as usize] = self.word(o, at + i);
        }
    }

    /// Reads the bytes of an object of kind Bytes or Method from `at` on, as many as there is room for; of a Method from the
    /// first bytecode on.
    fn read_bytes(&self, o: Oop, at: u32, into: &mut [u8])
        requires live { is_live (view self.now).objects (value o) ≡ true }
        requires kind { is_words (object_of (view self.now).objects (value o)).kind ≡ false }
        requires above { first_unit (object_of (view self.now).objects (value o)) ≤ at }
        requires range { at + length into.old ≤ size_of (object_of (view self.now).objects (value o)) }
        ensures { let first = first_unit (object_of (view self.now).objects (value o)) in
            into.new ≡ units_from (view self.now).objects (value o) (at - first) (length into.old) }
    {
        for i in 0..into.len() as u32 {
            into[i as usize] = self.byte(o, at + i);
        }
    }

    /// Stores words in those of an object of kind Words from `at` on.
    fn write_words(&mut self, o: Oop, at: u32, words: &[u16])
        requires live { is_live (view self.old).objects (value o) ≡ true }
        requires kind { is_words (object_of (view self.old).objects (value o)).kind ≡ true }
        requires range { at + length words.now ≤ size_of (object_of (view self.old).objects (value o)) }
        ensures objects { (view self.new).objects ≡ with_run (view self.old).objects (value o) at words.now }
        ensures held { (view self.new).held ≡ (view self.old).held }
        ensures head { (view self.new).head ≡ (view self.old).head }
    {
        for i in 0..words.len() as u32 {
            self.set_word(o, at + i, words[i as usize]);
        }
    }

    /// Stores bytes in those of an object of kind Bytes or Method from `at` on; of a Method from the first bytecode on.
    fn write_bytes(&mut self, o: Oop, at: u32, bytes: &[u8])
        requires live { is_live (view self.old).objects (value o) ≡ true }
        requires kind { is_words (object_of (view self.old).objects (value o)).kind ≡ false }
        requires above { first_unit (object_of (view self.old).objects (value o)) ≤ at }
        requires range { at + length bytes.now ≤ size_of (object_of (view self.old).objects (value o)) }
        ensures objects { let first = first_unit (object_of (view self.old).objects (value o)) in
            (view self.new).objects ≡ with_run (view self.old).objects (value o) (at - first) bytes.now }
        ensures held { (view self.new).held ≡ (view self.old).held }
        ensures head { (view self.new).head ≡ (view self.old).head }
    {
        for i in 0..bytes.len() as u32 {
            self.set_byte(o, at + i, bytes[i as usize]);
        }
    }

    /// Whether d fits within the capacities beside the objects that are kept, wherever free words lie.
    fn room(&self, d: Demand) -> bool
        ensures { result ≡ fits (view self.now) d };

    /// A new object at the least free pointer, with fields of nil, words and bytes of 0, and a method's literal count.
    fn make(&mut self, class: Oop, kind: Kind, size: u32, literals: u32) -> Oop
        requires class { is_live (view self.old).objects (value class) ≡ true }
        requires makeable { IsMakeable (class.0 / 2) kind size literals }
        requires room { fits (view self.old) (demand_of (fresh (class.0 / 2) kind size literals)) ≡ true }
        ensures pointer { value result ≡ Ref (first_free (view self.old).objects) }
        ensures objects { (view self.new).objects
            ≡ placed (view self.old).objects (fresh (class.0 / 2) kind size literals) }
        ensures held { (view self.new).held ≡ (view self.old).held }
        ensures head { (view self.new).head ≡ (view self.old).head };

    /// Exchanges what two pointers name: class, kind and body of each are then those of the other. What referred to
    /// one object refers to the other.
    fn swap(&mut self, a: Oop, b: Oop)
        requires first { is_live (view self.old).objects (value a) ≡ true }
        requires second { is_live (view self.old).objects (value b) ≡ true }
        ensures objects { (view self.new).objects
            ≡ with_exchanged (view self.old).objects (value a) (value b) }
        ensures held { (view self.new).held ≡ (view self.old).held }
        ensures head { (view self.new).head ≡ (view self.old).head };

    /// What is held at a place; nil where nothing is.
    fn held(&self, place: RootPlace) -> Oop
        requires { IsPlace place }
        ensures held { value result ≡ held_at (view self.now).held place }
        ensures known { IsKnown (view self.now).objects (value result) };

    /// Holds o at a place; nil clears it.
    fn hold(&mut self, place: RootPlace, o: Oop)
        requires place { IsPlace place }
        requires known { IsKnown (view self.old).objects (value o) }
        ensures held { (view self.new).held ≡ with_held (view self.old).held place (value o) }
        ensures objects { (view self.new).objects ≡ (view self.old).objects }
        ensures head { (view self.new).head ≡ (view self.old).head }
        ensures places { KeepsPlaces (stands self.old) (stands self.new) };

    /// Drops all objects but the largest set of which each is a root or is referred to by a member.
    fn settle(&mut self)
        ensures settles { SettlesTo (view self.old) (view self.new) }
        ensures places { KeepsPlacesIn (view self.new).objects (stands self.old) (stands self.new) };

    /// How many objects are kept, and how many words they have.
    fn used(&self) -> Demand
        ensures { let objects = (view self.now).objects in
            result ≡ record { entries = total_used one objects; words = total_used words_of objects } };

    /// How many objects there can be, and how many words they can have.
    fn capacity(&self) -> Demand
        ensures { let head = (view self.now).head in
            result ≡ record { entries = head.entries; words = head.words } };

    /// The least kept pointer above `after` of an object of this class.
    fn next_of(&self, class: Oop, after: u32) -> Option<Oop>
        ensures found { IfSome result (λ o. is_instance (view self.now).objects (value class) (value o)
            ≡ true) }
        ensures above { IfSome result (λ o. after < o.0) }
        ensures least { IfSome result (λ o. (p : Oop) → after < p.0 → p.0 < o.0
            → is_instance (view self.now).objects (value class) (value p) ≡ false) }
        ensures none { IfNone result ((p : Oop) → after < p.0
            → is_instance (view self.now).objects (value class) (value p) ≡ false) };

    /// The least kept pointer above `after`.
    fn next_live(&self, after: u32) -> Option<Oop>
        ensures found { IfSome result (λ o. (is_live (view self.now).objects (value o) ≡ true)
            × (after < o.0)) }
        ensures least { IfSome result (λ o. (p : Oop) → after < p.0 → p.0 < o.0
            → is_live (view self.now).objects (value p) ≡ false) }
        ensures none { IfNone result ((p : Oop) → after < p.0 → is_live (view self.now).objects (value p)
            ≡ false) };

    /// The pointer of the global name table, or 0.
    fn globals(&self) -> Oop
        ensures { table_of result.0 ≡ (view self.now).head.globals };

    /// The pointer of the symbol table, or 0.
    fn symbols(&self) -> Oop
        ensures { table_of result.0 ≡ (view self.now).head.symbols };

    /// The method that is remembered for a selector in a class, if one is: it is the one that the search finds.
    fn remembered(&self, _class: Oop, _selector: Oop) -> Option<Oop>
        requires { is_live (view self.now).objects (value _class) ≡ true }
        ensures { IfSome result (λ method.
            Finds (view self.now).objects (value _class) (value _selector) (value method)) }
    {
        None
    }

    /// Remembers the method that the search finds for a selector in a class, or doesn't.
    fn remember(&mut self, _class: Oop, _selector: Oop, _method: Oop)
        requires { Finds (view self.old).objects (value _class) (value _selector) (value _method) }
        ensures view { view self.new ≡ view self.old }
        ensures places { KeepsPlaces (stands self.old) (stands self.new) }
    {}

    /// The place at which the body of an object stands; None in a memory that reads and stores by pointers alone.
    fn place(&self, _o: Oop) -> Option<u32>
        requires { is_live (view self.now).objects (value _o) ≡ true }
        ensures { IfSome result (stands self.now (value _o)) }
    {
        None
    }

    /// Field `at` of an object whose body stands at a place; of a Method 0 is the header, and the literals follow.
    fn placed_pointer(&self, o: Oop, _place: u32, at: u32) -> Oop
        requires live { is_live (view self.now).objects (value o) ≡ true }
        requires place { stands self.now (value o) _place }
        requires range { at < length (object_of (view self.now).objects (value o)).fields }
        ensures field { slice_get (object_of (view self.now).objects (value o)).fields at
            ≡ Some (value result) }
        ensures header { IsHeader (object_of (view self.now).objects (value o)) at (value result) }
        ensures known { IsKnown (view self.now).objects (value result) }
    {
        self.pointer(o, at)
    }

    /// Byte `at` of an object of kind Bytes or Method whose body stands at a place; of a Method from the first bytecode on.
    fn placed_byte(&self, o: Oop, _place: u32, at: u32) -> u8
        requires live { is_live (view self.now).objects (value o) ≡ true }
        requires place { stands self.now (value o) _place }
        requires kind { is_words (object_of (view self.now).objects (value o)).kind ≡ false }
        requires above { first_unit (object_of (view self.now).objects (value o)) ≤ at }
        requires range { at < size_of (object_of (view self.now).objects (value o)) }
        ensures { let object = object_of (view self.now).objects (value o) in
            slice_get object.units (at - first_unit object) ≡ Some result }
    {
        self.byte(o, at)
    }

    /// Stores v in field `at` of an object whose body stands at a place; in a Method's header only what counts the same literals.
    fn set_placed_pointer(&mut self, o: Oop, _place: u32, at: u32, v: Oop)
        requires live { is_live (view self.old).objects (value o) ≡ true }
        requires place { stands self.old (value o) _place }
        requires range { at < length (object_of (view self.old).objects (value o)).fields }
        requires known { IsKnown (view self.old).objects (value v) }
        requires header { IsHeader (object_of (view self.old).objects (value o)) at (value v) }
        ensures objects { (view self.new).objects
            ≡ with_stored (view self.old).objects (value o) at (value v) }
        ensures held { (view self.new).held ≡ (view self.old).held }
        ensures head { (view self.new).head ≡ (view self.old).head }
        ensures places { KeepsPlaces (stands self.old) (stands self.new) }
    {
        self.set_pointer(o, at, v);
    }

    /// What stands in an object or is held is a SmallInteger or live, each object is what its kind says, and all is
    /// within the capacities.
    ghost whole: { (m : Self) → IsWhole (view m) };
}
