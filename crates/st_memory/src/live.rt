ghost use Rattle.std.specs.Prelude.{◌≡◌, ◌+◌, ◌≤◌, ℕ, [], true, false, IfOk, IfErr, IfSome, IfNone};
ghost use Rattle.st_model.specs.{Values.{value, word}, Objects.has_bytes, Table.{table, bounded_table}};
ghost use Rattle.st_model.specs.{Machine.is_there, Steps.object, inside.Calls.{Reads, Changes, itself}};
ghost use Rattle.st_model.specs.View.{IsKnown, Has, Lacks, is_live, object_of};

use crate::body::{count_fields, first_unit};
use crate::context_fields::ContextFields;
use crate::made::Made;
use crate::memory::Memory;
use crate::objects::Objects;
use crate::stores::{store_live_field, transfer_live_fields};
use st_model::{Dead, Demand, Kind, Oop, Word, literals};

/// Whether an object of this kind has bytes.
fn has_bytes(kind: Kind) -> bool
    ensures { result ≡ has_bytes kind }
{
    match kind {
        Kind::Pointers | Kind::Words => false,
        Kind::Bytes | Kind::Method => true,
    }
}

/// The object that a word names.
#[tactic(auto, using(st_model::proofs::Runs::runs, crate::proofs::Wide::far, crate::proofs::Wide::lacks, crate::proofs::Wide::small_not_live))]
pub(crate) fn live_object<M: Memory>(m: &M, o: Word) -> Result<Oop, Dead>
    ensures object { let t = (M.view m.now).objects in
        Reads (object table (word o)) (λ (x : Oop). object_of t (value x)) t result }
    ensures same { IfOk result (λ x. value x ≡ word o) }
    ensures live { IfOk result (λ x. is_live (M.view m.now).objects (value x) ≡ true) }
    ensures gone { IfErr result (λ e. is_live (M.view m.now).objects (word o) ≡ false) }
    ensures lacks { IfErr result (λ e. (from n : ℕ) → Lacks (M.view m.now).objects (word o) from n e) }
{
    if o.is_small() {
        return Err(Dead::Small);
    }
    if o.0 > 65535 {
        return Err(Dead::Kind);
    }
    let object = Oop(o.0 as u16);
    if m.live(object) {
        Ok(object)
    } else {
        Err(Dead::Kind)
    }
}

/// The object of kind Pointers that a word names, where it has so many fields from one on.
#[tactic(auto, using(crate::proofs::Wide::lacks))]
pub(crate) fn live_fields<M: Memory>(m: &M, o: Word, n: u32, from: u32) -> Result<Oop, Dead>
    ensures same { IfOk result (λ x. value x ≡ word o) }
    ensures has { IfOk result (λ x. Has (M.view m.now).objects (value x) from n) }
    ensures small { IfOk result (λ x. from + n ≤ 131066) }
    ensures lacks { IfErr result (Lacks (M.view m.now).objects (word o) from n) }
{
    let object = live_object(m, o)?;
    if !m.kind(object).is_pointers() {
        return Err(Dead::Kind);
    }
    let size = m.size(object);
    if size < from {
        return Err(Dead::Field);
    }
    if size - from < n {
        Err(Dead::Field)
    } else {
        Ok(object)
    }
}

/// The SmallInteger of 15 bits or the object that is there under a word.
#[inline(always)]
#[tactic(auto, using(crate::proofs::Wide::there))]
pub fn live_value<M: Memory>(m: &M, x: Word) -> Option<Oop>
    ensures there { IfSome result (λ o. is_there table (M.view m.now).objects (word x) ≡ true) }
    ensures same { IfSome result (λ o. value o ≡ word x) }
    ensures known { IfSome result (λ o. IsKnown (M.view m.now).objects (value o)) }
    ensures gone { IfNone result (is_there table (M.view m.now).objects (word x) ≡ false) }
{
    if x.0 > 65535 {
        return None;
    }
    let value = Oop(x.0 as u16);
    if value.is_small() {
        return Some(value);
    }
    if m.live(value) { Some(value) } else { None }
}

impl<M: Memory> Objects for M {
    ghost use Rattle.st_memory.specs.inside.Tabular.{bounded_tabular};

    ghost names = { bounded_table };

    ghost table = { λ m. (M.view m).objects };

    ghost head = { λ m. (M.view m).head };

    ghost fixed = { λ m. record { objects = []; held = (M.view m).held; head = (M.view m).head } };

    ghost room = { λ m. 70 };

    fn is_there(&self, v: Word) -> bool {
        live_value(self, v).is_some()
    }

    #[tactic(auto, using(st_model::proofs::Runs::runs, crate::proofs::Wide::bounded), unfolding(st_model::specs::Steps::fetch_field))]
    fn fetch_field(&self, o: Word, i: u32) -> Result<Word, Dead> {
        let object = live_object(self, o)?;
        if !self.kind(object).is_pointers() {
            return Err(Dead::Kind);
        }
        if i < self.size(object) {
            Ok(Word::from(self.pointer(object, i)))
        } else {
            Err(Dead::Field)
        }
    }

    #[tactic(auto, using(st_model::proofs::Runs::runs, crate::proofs::Wide::bounded), unfolding(st_model::specs::Steps::count_fields))]
    fn count_fields(&self, o: Word) -> Result<u32, Dead> {
        let object = live_object(self, o)?;
        if self.kind(object).is_pointers() {
            Ok(self.size(object))
        } else {
            Err(Dead::Kind)
        }
    }

    #[inline(always)]
    #[tactic(auto, using(st_model::proofs::Runs::runs, crate::proofs::Wide::bounded), unfolding(st_model::specs::Steps::fetch_field, st_model::specs::Steps::count_fields))]
    fn context_fields(&self, context: Word) -> Option<ContextFields> {
        let object = match live_object(self, context) {
            Ok(object) => object,
            Err(_) => return None,
        };
        if !self.kind(object).is_pointers() {
            return None;
        }
        let count = self.size(object);
        if count < 6 {
            return None;
        }
        let place = self.place(object)?;
        Some(ContextFields {
            instruction_pointer: Word::from(self.placed_pointer(object, place, 1)),
            stack_pointer: Word::from(self.placed_pointer(object, place, 2)),
            method: Word::from(self.placed_pointer(object, place, 3)),
            receiver: Word::from(self.placed_pointer(object, place, 5)),
            count,
        })
    }

    #[tactic(auto, using(st_model::proofs::Runs::runs, crate::proofs::Wide::bounded, crate::proofs::Wide::classes))]
    fn fetch_class(&self, o: Word) -> Result<Word, Dead> {
        if o.is_small() {
            return Ok(Word::SMALL_INTEGER);
        }
        let object = live_object(self, o)?;
        Ok(Word::from(Memory::class_of(self, object)))
    }

    #[tactic(auto, using(st_model::proofs::Runs::runs, crate::proofs::Sizes::kinds), unfolding(st_model::specs::Steps::fetch_kind))]
    fn fetch_kind(&self, o: Word) -> Result<Kind, Dead> {
        let object = live_object(self, o)?;
        Ok(self.kind(object))
    }

    #[tactic(auto, using(st_model::proofs::Runs::runs, crate::proofs::Sizes::kinds), unfolding(st_model::specs::Steps::fetch_size))]
    fn fetch_size(&self, o: Word) -> Result<u32, Dead> {
        let object = live_object(self, o)?;
        Ok(self.size(object))
    }

    #[tactic(auto, using(crate::proofs::Wide::halves, crate::proofs::Wide::far))]
    fn half_word(&self, o: Word) -> u32 {
        if o.is_small() {
            return o.0 / 2;
        }
        match live_object(self, o) {
            Ok(_) => o.0 / 2,
            Err(_) => 0,
        }
    }

    #[tactic(auto, using(st_model::proofs::Runs::runs, crate::proofs::Wide::bounded), unfolding(st_model::specs::Methods::method_header))]
    fn method_header(&self, method: Word) -> Result<Word, Dead> {
        let object = live_object(self, method)?;
        if !self.kind(object).is_method() {
            return Err(Dead::Kind);
        }
        Ok(Word::from(self.pointer(object, 0)))
    }

    #[tactic(auto, using(st_model::proofs::Runs::runs, crate::proofs::Wide::bounded), unfolding(st_model::specs::Steps::literal))]
    fn literal(&self, method: Word, i: u32) -> Result<Word, Dead> {
        let object = live_object(self, method)?;
        if !self.kind(object).is_method() {
            return Err(Dead::Kind);
        }
        if i < literals(self.pointer(object, 0)) {
            Ok(Word::from(self.pointer(object, i + 1)))
        } else {
            Err(Dead::Field)
        }
    }

    #[tactic(auto, using(st_model::proofs::Runs::runs, crate::proofs::Wide::bounded), unfolding(st_model::specs::Methods::literal_from_last))]
    fn literal_from_last(&self, method: Word, k: u32) -> Result<Word, Dead> {
        let object = live_object(self, method)?;
        if !self.kind(object).is_method() {
            return Err(Dead::Kind);
        }
        let count = literals(self.pointer(object, 0));
        if k < count {
            Ok(Word::from(self.pointer(object, count - k)))
        } else {
            Err(Dead::Field)
        }
    }

    #[tactic(auto, using(st_model::proofs::Runs::runs, crate::proofs::Wide::bounded), unfolding(st_model::specs::Steps::fetch_method_field))]
    fn fetch_method_field(&self, method: Word, i: u32) -> Result<Word, Dead> {
        let object = live_object(self, method)?;
        if !self.kind(object).is_method() {
            return Err(Dead::Kind);
        }
        if i < count_fields(self, object) {
            Ok(Word::from(self.pointer(object, i)))
        } else {
            Err(Dead::Field)
        }
    }

    #[tactic(auto, using(st_model::proofs::Runs::runs, crate::proofs::Wide::bounded), unfolding(st_model::specs::Steps::byte_at))]
    fn byte_at(&self, method: Word, ip: i32) -> Result<u8, Dead> {
        let object = live_object(self, method)?;
        if !self.kind(object).is_method() {
            return Err(Dead::Kind);
        }
        if ip < 0 {
            return Err(Dead::Ip);
        }
        let place = ip as u32;
        if place < 2 * literals(self.pointer(object, 0)) + 2 {
            return Err(Dead::Ip);
        }
        if place > 16381 {
            return Err(Dead::Ip);
        }
        if place < self.size(object) {
            Ok(self.byte(object, place))
        } else {
            Err(Dead::Ip)
        }
    }

    #[tactic(auto, using(st_model::proofs::Runs::runs, crate::proofs::Wide::bounded), unfolding(st_model::specs::Steps::fetch_word))]
    fn fetch_word(&self, o: Word, i: u32) -> Result<u16, Dead> {
        let object = live_object(self, o)?;
        if !self.kind(object).is_words() {
            return Err(Dead::Kind);
        }
        if i < self.size(object) {
            Ok(self.word(object, i))
        } else {
            Err(Dead::Field)
        }
    }

    #[tactic(auto, using(st_model::proofs::Runs::runs, st_model::proofs::Runs::tests, crate::proofs::Wide::bounded), unfolding(st_model::specs::Steps::fetch_byte))]
    fn fetch_byte(&self, o: Word, i: u32) -> Result<u8, Dead> {
        let object = live_object(self, o)?;
        if !has_bytes(self.kind(object)) {
            return Err(Dead::Kind);
        }
        if i < first_unit(self, object) {
            return Err(Dead::Field);
        }
        if i < self.size(object) {
            Ok(self.byte(object, i))
        } else {
            Err(Dead::Field)
        }
    }

    #[tactic(auto, using(crate::proofs::Bearing::bearers))]
    fn object_at(&self, half: u32) -> Option<Word> {
        if half > 32767 {
            return None;
        }
        if self.live(Oop((2 * half) as u16)) {
            Some(Word(2 * half))
        } else {
            None
        }
    }

    fn next_instance(&self, class: Word, after: u32) -> Option<Word> {
        if after > 32767 {
            return None;
        }
        let class = match live_object(self, class) {
            Ok(class) => class,
            Err(_) => return None,
        };
        match self.next_of(class, 2 * after) {
            Some(o) => Some(Word::from(o)),
            None => None,
        }
    }

    fn free(&self) -> Demand {
        let used = self.used();
        let capacity = self.capacity();
        Demand {
            entries: capacity.entries.saturating_sub(used.entries),
            words: capacity.words.saturating_sub(used.words),
        }
    }

    fn store_field(&mut self, o: Word, i: u32, x: Word) -> Result<(), Dead> {
        store_live_field(self, o, i, x)
    }

    fn transfer(
        &mut self,
        n: u32,
        source: Word,
        from: u32,
        target: Word,
        to: u32,
    ) -> Result<(), Dead> {
        transfer_live_fields(self, n, source, from, target, to)
    }

    fn exchange(&mut self, a: Word, b: Word) -> Result<(), Dead> {
        if a.is_small() {
            return Err(Dead::Small);
        }
        if b.is_small() {
            return Err(Dead::Small);
        }
        let first = live_object(self, a)?;
        let second = live_object(self, b)?;
        self.swap(first, second);
        Ok(())
    }

    fn make(&mut self, class: Word, kind: Kind, size: u32, literals: u32) -> Result<Word, Dead> {
        let object = live_object(self, class)?;
        let made = Made {
            class,
            kind,
            size,
            literals,
        };
        let needed = Demand {
            entries: 1,
            words: made.words(),
        };
        if Memory::room(self, needed) {
            Ok(Word::from(Memory::make(self, object, kind, size, literals)))
        } else {
            Ok(Word::NIL)
        }
    }

    #[tactic(auto, unfolding(st_model::specs::Steps::new_object))]
    fn new_object(&mut self, class: Word, n: u32) -> Result<Word, Dead> {
        Objects::make(self, class, Kind::Pointers, n, 0)
    }

    #[tactic(auto, using(crate::proofs::Unbounded::bounded))]
    fn remembered(&self, class: Word, selector: Word) -> Option<Word> {
        let class = match live_object(self, class) {
            Ok(class) => class,
            Err(_) => return None,
        };
        if selector.0 > 65535 {
            return None;
        }
        match Memory::remembered(self, class, Oop(selector.0 as u16)) {
            Some(method) => Some(Word::from(method)),
            None => None,
        }
    }

    #[tactic(auto, using(crate::proofs::Unbounded::bounded))]
    fn remember(&mut self, class: Word, selector: Word, method: Word) {
        let class = match live_value(self, class) {
            Some(class) => class,
            None => return,
        };
        let selector = match live_value(self, selector) {
            Some(selector) => selector,
            None => return,
        };
        if let Some(method) = live_value(self, method) {
            Memory::remember(self, class, selector, method);
        }
    }

    ghost tabular = { bounded_tabular };
}
