ghost use Rattle.std.specs.Prelude.{◌≡◌, ◌<◌, ◌≤◌, ◌/◌, nat_le, true, IfSome};
ghost use Rattle.st_model.specs.{Values.{Ref, value, word}, Formed.{IsMakeable, fresh}};
ghost use Rattle.st_model.specs.{View.{Has, SettlesTo, demand_of, fits, is_live}, Machine.used};
ghost use Rattle.st_model.specs.Table.{table, first_free, placed};
ghost use Rattle.st_model.specs.{Steps.store_field, inside.Calls.{Changes, itself}};
ghost use Rattle.st_frames.specs.inside.Shown.{IsFrame};
ghost use Rattle.st_at_once.specs.inside.{Room.room_of, Known.{IsNear, ArePlaced, IsCodeAt, HasLiteral, HasNumber}};

use crate::known::{Body, Code, NearPlaces};
use crate::looking::{look, look_after_make};
use st_frames::Frame;
use st_memory::{Memory, live_value, store_live_field};
use st_model::{Dead, Demand, Kind, Oop, Word};

/// The objects of a memory, with what is known of the active context, its home and its method, which it holds. As long as they
/// are held, a field or a byte of them is read and stored at its place, without a look at the object; and a field of the last
/// object that was made is stored at its place until the memory settles. Where an object was made or what a search found was
/// remembered, places are asked for anew.
#[derive(Drop)]
pub struct Near<'a, M: Memory> {
    /// The memory behind.
    pub memory: &'a mut M,
    pub(crate) known: NearPlaces,
    ghost near: { IsNear (M.view memory.now) known },
    ghost places: { ∥ ArePlaced (M.stands memory.now) known ∥₁ },
}

impl<'a, M: Memory> Near<'a, M> {
    /// The objects of a memory that holds a frame's registers, with what is known of its contexts and its method.
    pub fn new(memory: &'a mut M, f: &Frame) -> Near<'a, M>
        requires { IsFrame (M.view memory.old) f.now }
        ensures memory { result.memory.now ≡ memory.old }
        ensures same_memory { result.memory.ghost_name ≡ memory.entry.ghost_name }
    {
        let known = look(memory, f, Code::NONE);
        Near { memory, known }
    }

    /// Whether there is room for so many changes, 1 to 71: an entry for each, and 2,050 words.
    #[inline(always)]
    pub fn has_room(&self, changes: u32) -> bool
        requires some { 1 ≤ changes }
        requires few { changes ≤ 71 }
        ensures { result ≡ nat_le changes (room_of (M.view self.now.memory.now)) }
    {
        self.memory.room(Demand {
            entries: changes,
            words: 2050 * changes,
        })
    }

    /// Drops all objects but the largest set of which each is a root or is referred to by a member.
    pub fn settle(&mut self)
        ensures settles { SettlesTo (M.view self.old.memory.now) (M.view self.new.memory.now) }
        ensures room { room_of (M.view self.old.memory.now) ≤ room_of (M.view self.new.memory.now) }
        ensures same_memory { self.new.memory.ghost_name ≡ self.old.memory.ghost_name }
    {
        self.known.made.number = 0;
        self.memory.settle();
    }

    /// What is known stands at the places that are known.
    #[inline(always)]
    fn stand(&self)
        ensures { ArePlaced (M.stands self.now.memory.now) self.now.known }
    {}

    /// The active or home context, where this is its word and it has field i.
    #[inline(always)]
    pub(crate) fn find_context(&self, o: Word, i: u32) -> Option<Body>
        ensures same { IfSome result (λ b. value b.object ≡ word o) }
        ensures has { IfSome result (λ b. Has (M.view self.now.memory.now).objects (value b.object) i 1) }
        ensures place { IfSome result (λ b. M.stands self.now.memory.now (value b.object) b.place) }
    {
        self.stand();
        if o.0 == self.known.active.object.0 && i < self.known.active.number {
            return Some(Body {
                object: Oop(o.0 as u16),
                place: self.known.active.place,
            });
        }
        if o.0 == self.known.home.object.0 && i < self.known.home.number {
            return Some(Body {
                object: Oop(o.0 as u16),
                place: self.known.home.place,
            });
        }
        None
    }

    /// The object that was made last, where this is its word and it has field i.
    #[inline(always)]
    fn find_made(&self, o: Word, i: u32) -> Option<Body>
        ensures same { IfSome result (λ b. value b.object ≡ word o) }
        ensures has { IfSome result (λ b. Has (M.view self.now.memory.now).objects (value b.object) i 1) }
        ensures place { IfSome result (λ b. M.stands self.now.memory.now (value b.object) b.place) }
    {
        self.stand();
        if o.0 == self.known.made.object.0 && i < self.known.made.number {
            Some(Body {
                object: Oop(o.0 as u16),
                place: self.known.made.place,
            })
        } else {
            None
        }
    }

    /// The active or home context, or the object that was made last, where this is its word and it has field i.
    #[inline(always)]
    pub(crate) fn find_place(&self, o: Word, i: u32) -> Option<Body>
        ensures same { IfSome result (λ b. value b.object ≡ word o) }
        ensures has { IfSome result (λ b. Has (M.view self.now.memory.now).objects (value b.object) i 1) }
        ensures place { IfSome result (λ b. M.stands self.now.memory.now (value b.object) b.place) }
    {
        match self.find_context(o, i) {
            Some(context) => Some(context),
            None => self.find_made(o, i),
        }
    }

    /// How many fields the active or home context has, where this is its word.
    #[inline(always)]
    pub(crate) fn find_number(&self, o: Word) -> Option<u32>
        ensures number { IfSome result (λ n. HasNumber (M.view self.now.memory.now).objects (word o) n) }
        ensures small { IfSome result (λ n. n ≤ 65533) }
    {
        if o.0 == self.known.active.object.0 && 0 < self.known.active.number {
            return Some(self.known.active.number);
        }
        if o.0 == self.known.home.object.0 && 0 < self.known.home.number {
            return Some(self.known.home.number);
        }
        None
    }

    /// The method, where this is its word and it has a bytecode of this number.
    #[inline(always)]
    pub(crate) fn find_code(&self, method: Word, ip: i32) -> Option<Body>
        ensures same { IfSome result (λ b. value b.object ≡ word method) }
        ensures code { IfSome result (λ b.
            IsCodeAt (M.view self.now.memory.now).objects (value b.object) ip) }
        ensures place { IfSome result (λ b. M.stands self.now.memory.now (value b.object) b.place) }
    {
        self.stand();
        if method.0 == self.known.code.method.0
            && self.known.code.first <= ip
            && ip < self.known.code.end
        {
            Some(Body {
                object: Oop(method.0 as u16),
                place: self.known.code.place,
            })
        } else {
            None
        }
    }

    /// The method, where this is its word and it has literal i.
    #[inline(always)]
    pub(crate) fn find_literals(&self, method: Word, i: u32) -> Option<Body>
        ensures same { IfSome result (λ b. value b.object ≡ word method) }
        ensures small { IfSome result (λ b. i < 64) }
        ensures literal { IfSome result (λ b.
            HasLiteral (M.view self.now.memory.now).objects (value b.object) i) }
        ensures place { IfSome result (λ b. M.stands self.now.memory.now (value b.object) b.place) }
    {
        self.stand();
        if method.0 == self.known.code.method.0 && i < self.known.code.literals {
            Some(Body {
                object: Oop(method.0 as u16),
                place: self.known.code.place,
            })
        } else {
            None
        }
    }

    /// Stores x in field i of an object that is near at hand.
    #[inline(always)]
    #[tactic(auto, using(st_model::proofs::Runs::runs), unfolding(st_model::specs::Steps::store_field))]
    pub(crate) fn store_near(&mut self, object: Body, i: u32, x: Word) -> Result<(), Dead>
        requires has { Has (M.view self.old.memory.now).objects (value object.object) i 1 }
        requires place { M.stands self.old.memory.now (value object.object) object.place }
        ensures stores { Changes (store_field table (value object.object) i (word x)) itself
            (M.view self.old.memory.now).objects (M.view self.old.memory.now).head
            result (M.view self.new.memory.now).objects }
        ensures used { used table (M.view self.new.memory.now).objects
            ≡ used table (M.view self.old.memory.now).objects }
        ensures held { (M.view self.new.memory.now).held ≡ (M.view self.old.memory.now).held }
        ensures head { (M.view self.new.memory.now).head ≡ (M.view self.old.memory.now).head }
        ensures same_memory { self.new.memory.ghost_name ≡ self.old.memory.ghost_name }
    {
        match live_value(self.memory, x) {
            Some(value) => {
                self.memory
                    .set_placed_pointer(object.object, object.place, i, value);
                Ok(())
            }
            None => Err(Dead::Kind),
        }
    }

    /// Stores x in field i of an object that isn't near at hand.
    #[inline(never)]
    #[tactic(auto, using(st_memory::proofs::Wide::bounded))]
    pub(crate) fn store_elsewhere(&mut self, o: Word, i: u32, x: Word) -> Result<(), Dead>
        ensures stores { Changes (store_field table (word o) i (word x)) itself
            (M.view self.old.memory.now).objects (M.view self.old.memory.now).head
            result (M.view self.new.memory.now).objects }
        ensures used { used table (M.view self.new.memory.now).objects
            ≡ used table (M.view self.old.memory.now).objects }
        ensures held { (M.view self.new.memory.now).held ≡ (M.view self.old.memory.now).held }
        ensures head { (M.view self.new.memory.now).head ≡ (M.view self.old.memory.now).head }
        ensures same_memory { self.new.memory.ghost_name ≡ self.old.memory.ghost_name }
    {
        store_live_field(self.memory, o, i, x)
    }

    /// Stores x in field i of an object of kind Pointers. As much is used as before, also if that dies.
    #[inline(always)]
    pub fn store(&mut self, o: Word, i: u32, x: Word) -> Result<(), Dead>
        ensures stores { Changes (store_field table (word o) i (word x)) itself
            (M.view self.old.memory.now).objects (M.view self.old.memory.now).head
            result (M.view self.new.memory.now).objects }
        ensures used { used table (M.view self.new.memory.now).objects
            ≡ used table (M.view self.old.memory.now).objects }
        ensures held { (M.view self.new.memory.now).held ≡ (M.view self.old.memory.now).held }
        ensures head { (M.view self.new.memory.now).head ≡ (M.view self.old.memory.now).head }
        ensures same_memory { self.new.memory.ghost_name ≡ self.old.memory.ghost_name }
    {
        match self.find_place(o, i) {
            Some(object) => self.store_near(object, i, x),
            None => self.store_elsewhere(o, i, x),
        }
    }

    /// A new object as the memory makes it, which has room for it.
    pub(crate) fn make_object(&mut self, class: Oop, kind: Kind, size: u32, literals: u32) -> Oop
        requires class { is_live (M.view self.old.memory.now).objects (value class) ≡ true }
        requires makeable { IsMakeable (class.0 / 2) kind size literals }
        requires room { fits (M.view self.old.memory.now) (demand_of (fresh (class.0 / 2) kind size literals))
            ≡ true }
        ensures pointer { value result ≡ Ref (first_free (M.view self.old.memory.now).objects) }
        ensures objects { (M.view self.new.memory.now).objects
            ≡ placed (M.view self.old.memory.now).objects (fresh (class.0 / 2) kind size literals) }
        ensures held { (M.view self.new.memory.now).held ≡ (M.view self.old.memory.now).held }
        ensures head { (M.view self.new.memory.now).head ≡ (M.view self.old.memory.now).head }
        ensures same_memory { self.new.memory.ghost_name ≡ self.old.memory.ghost_name }
    {
        let made = Memory::make(self.memory, class, kind, size, literals);
        self.known = look_after_make(self.memory, self.known, Word::from(made));
        made
    }
}
