ghost use Rattle.st_model.specs.Table.{table};

use crate::known::NearPlaces;
use crate::looking::look_at_places;
use crate::near::Near;
use st_memory::{ContextFields, Memory, Objects, live_value};
use st_model::{Dead, Demand, Kind, Word};

impl<'a, M: Memory> Objects for Near<'a, M> {
    ghost use Rattle.st_control.specs.inside.Borrowed.{fixed_of, table_tabular};
    ghost use Rattle.st_at_once.specs.inside.Room.{room_of};

    ghost names = { table };

    ghost table = { λ n. (M.view n.memory.now).objects };

    ghost head = { λ n. (M.view n.memory.now).head };

    ghost fixed = { λ n. fixed_of (M.view n.memory.now) n.memory.ghost_name };

    ghost room = { λ n. room_of (M.view n.memory.now) };

    fn is_there(&self, v: Word) -> bool {
        live_value(self.memory, v).is_some()
    }

    #[inline(always)]
    #[tactic(auto, using(st_model::proofs::Runs::runs, st_memory::proofs::Wide::bounded), unfolding(st_model::specs::Steps::fetch_field))]
    fn fetch_field(&self, o: Word, i: u32) -> Result<Word, Dead> {
        match self.find_context(o, i) {
            Some(context) => Ok(Word::from(
                self.memory.placed_pointer(context.object, context.place, i),
            )),
            None => self.memory.fetch_field(o, i),
        }
    }

    #[inline(always)]
    #[tactic(auto, using(st_model::proofs::Runs::runs, st_memory::proofs::Wide::bounded), unfolding(st_model::specs::Steps::count_fields))]
    fn count_fields(&self, o: Word) -> Result<u32, Dead> {
        match self.find_number(o) {
            Some(number) => Ok(number),
            None => self.memory.count_fields(o),
        }
    }

    #[inline(always)]
    fn context_fields(&self, context: Word) -> Option<ContextFields> {
        self.memory.context_fields(context)
    }

    #[tactic(auto, using(st_memory::proofs::Wide::bounded))]
    fn fetch_class(&self, o: Word) -> Result<Word, Dead> {
        self.memory.fetch_class(o)
    }

    #[tactic(auto, using(st_memory::proofs::Sizes::kinds))]
    fn fetch_kind(&self, o: Word) -> Result<Kind, Dead> {
        self.memory.fetch_kind(o)
    }

    #[tactic(auto, using(st_memory::proofs::Sizes::kinds))]
    fn fetch_size(&self, o: Word) -> Result<u32, Dead> {
        self.memory.fetch_size(o)
    }

    fn half_word(&self, o: Word) -> u32 {
        self.memory.half_word(o)
    }

    #[tactic(auto, using(st_memory::proofs::Wide::bounded))]
    fn method_header(&self, method: Word) -> Result<Word, Dead> {
        self.memory.method_header(method)
    }

    #[inline(always)]
    #[tactic(auto, using(st_model::proofs::Runs::runs, st_memory::proofs::Wide::bounded), unfolding(st_model::specs::Steps::literal))]
    fn literal(&self, method: Word, i: u32) -> Result<Word, Dead> {
        match self.find_literals(method, i) {
            Some(method) => Ok(Word::from(
                self.memory
                    .placed_pointer(method.object, method.place, i + 1),
            )),
            None => self.memory.literal(method, i),
        }
    }

    #[tactic(auto, using(st_memory::proofs::Wide::bounded))]
    fn literal_from_last(&self, method: Word, k: u32) -> Result<Word, Dead> {
        self.memory.literal_from_last(method, k)
    }

    #[tactic(auto, using(st_memory::proofs::Wide::bounded))]
    fn fetch_method_field(&self, method: Word, i: u32) -> Result<Word, Dead> {
        self.memory.fetch_method_field(method, i)
    }

    #[inline(always)]
    #[tactic(auto, using(st_memory::proofs::Wide::bounded))]
    fn byte_at(&self, method: Word, ip: i32) -> Result<u8, Dead> {
        match self.find_code(method, ip) {
            Some(method) => {
                Ok(
                    self.memory
                        .placed_byte(method.object, method.place, ip as u32),
                )
            }
            None => self.memory.byte_at(method, ip),
        }
    }

    #[tactic(auto, using(st_memory::proofs::Wide::bounded))]
    fn fetch_word(&self, o: Word, i: u32) -> Result<u16, Dead> {
        self.memory.fetch_word(o, i)
    }

    #[tactic(auto, using(st_memory::proofs::Wide::bounded))]
    fn fetch_byte(&self, o: Word, i: u32) -> Result<u8, Dead> {
        self.memory.fetch_byte(o, i)
    }

    fn object_at(&self, half: u32) -> Option<Word> {
        self.memory.object_at(half)
    }

    fn next_instance(&self, class: Word, after: u32) -> Option<Word> {
        self.memory.next_instance(class, after)
    }

    #[tactic(auto, using(crate::proofs::Rooms::reads))]
    fn free(&self) -> Demand {
        self.memory.free()
    }

    #[inline(always)]
    fn store_field(&mut self, o: Word, i: u32, x: Word) -> Result<(), Dead> {
        self.store(o, i, x)
    }

    fn transfer(
        &mut self,
        n: u32,
        source: Word,
        from: u32,
        target: Word,
        to: u32,
    ) -> Result<(), Dead> {
        self.transfer_fields(n, source, from, target, to)
    }

    #[tactic(auto, using(crate::proofs::Keeping::near_nothing, crate::proofs::Placed::placed_nothing, crate::proofs::Rooms::reads))]
    fn exchange(&mut self, a: Word, b: Word) -> Result<(), Dead> {
        self.known = NearPlaces::NONE;
        self.memory.exchange(a, b)
    }

    fn make(&mut self, class: Word, kind: Kind, size: u32, literals: u32) -> Result<Word, Dead> {
        if class.is_small() {
            return Err(Dead::Small);
        }
        match live_value(self.memory, class) {
            Some(object) => Ok(Word::from(self.make_object(object, kind, size, literals))),
            None => Err(Dead::Kind),
        }
    }

    #[tactic(auto, unfolding(st_model::specs::Steps::new_object))]
    fn new_object(&mut self, class: Word, n: u32) -> Result<Word, Dead> {
        Objects::make(self, class, Kind::Pointers, n, 0)
    }

    fn remembered(&self, class: Word, selector: Word) -> Option<Word> {
        Objects::remembered(self.memory, class, selector)
    }

    fn remember(&mut self, class: Word, selector: Word, method: Word) {
        Objects::remember(self.memory, class, selector, method);
        self.known = look_at_places(self.memory, self.known);
    }

    ghost tabular = { table_tabular };
}
