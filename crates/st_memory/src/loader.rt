ghost use Rattle.std.specs.Prelude.{◌≡◌, ◌≢◌, ◌<◌, ◌≤◌, ◌+◌, ◌-◌, ◌/◌, length, true, false, IfOk, slice_get, None};
ghost use Rattle.st_model.specs.{Limits.most_words, Values.{value, is_small}};
ghost use Rattle.st_model.specs.{Objects.{is_words, words_of, first_unit, one}, Table.{total_used, entry}};
ghost use Rattle.st_model.specs.Formed.{IsHeader, IsMakeable, fresh};
ghost use Rattle.st_model.specs.View.{View, IsComplete, is_live, object_of, with_object, with_stored, with_unit, empty_view, head_of};

use crate::memory::Memory;
use st_model::{Demand, Kind, Oop};
use std::alloc::{AllocError, Global};

/// Makes a memory of objects that are placed one after another.
pub trait Loader: Sized + Drop {
    /// The memory that it makes.
    type Done: Memory;

    /// What was placed so far. Only at the end what the objects refer to must be there.
    ghost loaded: { Self → View };

    /// No objects, under these capacities and tables of names.
    fn begin(
        alloc: Global,
        capacity: Demand,
        globals: Oop,
        symbols: Oop,
    ) -> Result<Self, AllocError>
        requires entries { capacity.entries ≤ 32767 }
        requires words { capacity.words ≤ most_words }
        ensures { IfOk result (λ l. loaded l ≡ empty_view (head_of capacity globals symbols)) };

    /// A new object at a free pointer, with fields of nil, words and bytes of 0, and a method's literal count.
    fn place(&mut self, at: Oop, class: Oop, kind: Kind, size: u32, literals: u32)
        requires even { is_small (value at) ≡ false }
        requires borne { at.0 ≢ 0 }
        requires free { is_live (loaded self.old).objects (value at) ≡ false }
        requires class { is_small (value class) ≡ false }
        requires makeable { IsMakeable (class.0 / 2) kind size literals }
        requires entries { total_used one (loaded self.old).objects + 1 ≤ (loaded self.old).head.entries }
        requires words { total_used words_of (loaded self.old).objects
            + words_of (fresh (class.0 / 2) kind size literals) ≤ (loaded self.old).head.words }
        ensures objects { (loaded self.new).objects
            ≡ with_object (loaded self.old).objects (value at) (fresh (class.0 / 2) kind size literals) }
        ensures held { (loaded self.new).held ≡ (loaded self.old).held }
        ensures head { (loaded self.new).head ≡ (loaded self.old).head };

    /// Stores v in field `at`; in a Method's header only what counts the same literals.
    fn set_pointer(&mut self, o: Oop, at: u32, v: Oop)
        requires live { is_live (loaded self.old).objects (value o) ≡ true }
        requires range { at < length (object_of (loaded self.old).objects (value o)).fields }
        requires header { IsHeader (object_of (loaded self.old).objects (value o)) at (value v) }
        ensures objects { (loaded self.new).objects
            ≡ with_stored (loaded self.old).objects (value o) at (value v) }
        ensures held { (loaded self.new).held ≡ (loaded self.old).held }
        ensures head { (loaded self.new).head ≡ (loaded self.old).head };

    /// Stores v in word `at` of an object of kind Words.
    fn set_word(&mut self, o: Oop, at: u32, v: u16)
        requires live { is_live (loaded self.old).objects (value o) ≡ true }
        requires kind { is_words (object_of (loaded self.old).objects (value o)).kind ≡ true }
        requires range { at < length (object_of (loaded self.old).objects (value o)).units }
        ensures objects { (loaded self.new).objects ≡ with_unit (loaded self.old).objects (value o) at v }
        ensures held { (loaded self.new).held ≡ (loaded self.old).held }
        ensures head { (loaded self.new).head ≡ (loaded self.old).head };

    /// Stores v in byte `at` of an object of kind Bytes or Method; of a Method from the first bytecode on.
    fn set_byte(&mut self, o: Oop, at: u32, v: u8)
        requires live { is_live (loaded self.old).objects (value o) ≡ true }
        requires kind { is_words (object_of (loaded self.old).objects (value o)).kind ≡ false }
        requires above { first_unit (object_of (loaded self.old).objects (value o)) ≤ at }
        requires range { at < first_unit (object_of (loaded self.old).objects (value o))
            + length (object_of (loaded self.old).objects (value o)).units }
        ensures objects { let first = first_unit (object_of (loaded self.old).objects (value o)) in
            (loaded self.new).objects ≡ with_unit (loaded self.old).objects (value o) (at - first) v }
        ensures held { (loaded self.new).held ≡ (loaded self.old).held }
        ensures head { (loaded self.new).head ≡ (loaded self.old).head };

    /// The memory of just the placed objects, all kept, with nil held at every place. They refer to nothing but each other,
    /// and the root page and the tables of names are among them.
    fn finish(self) -> Self::Done
        requires { IsComplete (loaded self) }
        ensures { Self.Done.view result ≡ loaded self };
}
