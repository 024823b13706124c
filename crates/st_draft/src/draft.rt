ghost use Rattle.std.specs.Option.{option_map};
ghost use Rattle.std.specs.Prelude.{is_some, ◌≡◌, ◌<◌, ◌≤◌, ◌+◌, ◌-◌, ◌*◌, Some, IfSome, IfNone, IfOk, IfErr};
ghost use Rattle.st_model.specs.{Values.{word, Ref}, Objects.{one, words_of}};
ghost use Rattle.st_model.specs.Table.{apart, entry, total_used, free_place, without_first, borne_apart};
ghost use Rattle.st_model.specs.{Machine.used, Steps.{count_fields, named_or_not}, inside.Calls.{Reads, itself}};
ghost use Rattle.st_model.specs.View.{Has, Lacks};
ghost use Rattle.st_draft.specs.inside.Bearing.{IsNumberOf, instance_at};
ghost use Rattle.st_draft.specs.inside.Drafts.{AllThere, field_value, after_change, replayed, highest, HasField, named_object, IsOrigin, AreOf};
ghost use Rattle.st_draft.specs.inside.Noted.{with_noted, noted, drafted, count_of};
ghost use Rattle.st_memory.specs.inside.Making.{IsMade, made_object};

use crate::change::{Change, Exchange, Origin};
use crate::exchanges::Exchanges;
use crate::notes::Notes;
use st_memory::{Made, Memory, Objects};
use st_model::{Dead, Demand, Kind, Oop, Word};

/// A memory as it would be after a row, whose changes are noted and not made. It takes 70 changes, new objects and exchanges
/// together. Exchanges stand behind all other changes: what changes an object that was exchanged is noted of the word
/// that had it before.
#[derive(Drop)]
pub struct Draft<'a, M: Memory> {
    base: &'a M,
    notes: Notes,
    exchanges: Exchanges,
    ghost few: { count_of notes exchanges ≤ 70 },
    ghost closed: { AllThere (noted (M.view base.now).objects notes) },
    ghost there: { AreOf (noted (M.view base.now).objects notes) exchanges.pairs exchanges.count },
}

impl<'a, M: Memory> Draft<'a, M> {
    /// A memory without changes.
    pub fn new(base: &'a M) -> Draft<'a, M>
        ensures table { drafted (M.view result.base.now).objects result.notes result.exchanges
            ≡ (M.view base.now).objects }
        ensures head { (M.view result.base.now).head ≡ (M.view base.now).head }
        ensures fixed { M.view result.base.now ≡ M.view base.now }
        ensures room { 70 - count_of result.notes result.exchanges ≡ 70 }
    {
        let notes = Notes::new();
        let exchanges = Exchanges::new();
        Draft {
            base,
            notes,
            exchanges,
        }
    }

    /// How many objects, changes and exchanges are noted.
    fn count(&self) -> u32
        ensures { result ≡ count_of self.now.notes self.now.exchanges }
    {
        self.notes.made_count + self.notes.count + self.exchanges.count
    }

    /// What the objects made take of the capacities.
    pub fn demand(&self) -> Demand
        ensures entries { let base = (M.view self.now.base.now).objects in
            let now = drafted base self.now.notes self.now.exchanges in
            (used apart now).entries ≡ total_used one (M.view self.now.base.now).objects + result.entries }
        ensures words { let base = (M.view self.now.base.now).objects in
            let now = drafted base self.now.notes self.now.exchanges in
            (used apart now).words ≡ total_used words_of (M.view self.now.base.now).objects + result.words }
    {
        Demand {
            entries: self.notes.made_count,
            words: self.notes.words,
        }
    }

    /// The number, counted from 0, of the object made whose word this is.
    fn find_number(&self, o: Word) -> Option<u32>
        ensures named { IfSome result (λ n. word o ≡ Ref (32768 + n)) }
        ensures below { IfSome result (λ n. n < self.now.notes.made_count) }
        ensures none { let base = (M.view self.now.base.now).objects in
            let start = with_noted base self.now.notes in
            IfNone result (named_object start (word o) ≡ named_object base (word o)) }
    {
        if o.is_small() {
            return None;
        }
        if o.0 < 65536 {
            return None;
        }
        let number = (o.0 - 65536) / 2;
        if number < self.notes.made_count {
            Some(number)
        } else {
            None
        }
    }

    /// The object made whose word this is.
    fn find_made(&self, o: Word) -> Option<Made>
        ensures found { let base = (M.view self.now.base.now).objects in
            let start = with_noted base self.now.notes in
            IfSome result (λ m. named_object start (word o) ≡ Some (made_object m)) }
        ensures sized { IfSome result (λ m. IsMade m) }
        ensures none { let base = (M.view self.now.base.now).objects in
            let start = with_noted base self.now.notes in
            IfNone result (named_object start (word o) ≡ named_object base (word o)) }
    {
        let number = self.find_number(o)?;
        Some(self.notes.made[number as usize])
    }

    /// How many fields an object of kind Pointers has, before all exchanges.
    fn count_noted(&self, o: Word) -> Result<u32, Dead>
        ensures counts { let before = noted (M.view self.now.base.now).objects self.now.notes in
            Reads (count_fields apart (word o)) itself before result }
        ensures small { IfOk result (λ n. n ≤ 65533) }
    {
        match self.find_made(o) {
            Some(made) => made.count_fields(),
            None => self.base.count_fields(o),
        }
    }

    /// The number of the field so many places behind one, where an object of kind Pointers has that field.
    fn field_behind(&self, o: Word, from: u32, places: u32) -> Option<u32>
        ensures found { let start = with_noted (M.view self.now.base.now).objects self.now.notes in
            IfSome result (λ j. (j ≡ from + places) × HasField start (word o) j) }
        ensures none { let start = with_noted (M.view self.now.base.now).objects self.now.notes in
            IfNone result (HasField start (word o) (from + places) → ⊥) }
    {
        let fields = match self.count_noted(o) {
            Ok(fields) => fields,
            Err(_) => return None,
        };
        if fields <= places {
            return None;
        }
        if fields - places <= from {
            return None;
        }
        Some(from + places)
    }

    /// Where the value comes from that stands in a field after change k.
    fn origin(&self, k: u32, o: Word, at: u32) -> Origin
        requires below { k < self.now.notes.count }
        requires has { HasField (with_noted (M.view self.now.base.now).objects self.now.notes) (word o) at }
        ensures { let start = with_noted (M.view self.now.base.now).objects self.now.notes in
            let changes = self.now.notes.changes in
            IsOrigin start (replayed start changes k) (replayed start changes (k + 1)) (word o) at result }
    {
        match self.notes.changes[k as usize] {
            Change::Field {
                object,
                at: place,
                value,
            } => {
                if object.0 == o.0 && place == at {
                    return Origin::FromValue(value);
                }
                Origin::FromPlace(o, at)
            }
            Change::Fields {
                n,
                source,
                from,
                target,
                to,
            } => {
                if target.0 == o.0 && to <= at && at - to < n {
                    if let Some(place) = self.field_behind(source, from, at - to) {
                        return Origin::FromPlace(source, place);
                    }
                }
                Origin::FromPlace(o, at)
            }
        }
    }

    /// A field before all changes.
    fn first_value(&self, o: Word, at: u32) -> Word
        requires { HasField (with_noted (M.view self.now.base.now).objects self.now.notes) (word o) at }
        ensures { let start = with_noted (M.view self.now.base.now).objects self.now.notes in
            field_value start (word o) at ≡ Some (word result) }
    {
        if self.find_made(o).is_some() {
            return Word::NIL;
        }
        self.base.fetch_field(o, at).unwrap()
    }

    /// A field after all changes and before all exchanges, sought from the last change back.
    fn value(&self, o: Word, at: u32) -> Word
        requires { HasField (with_noted (M.view self.now.base.now).objects self.now.notes) (word o) at }
        ensures { let before = noted (M.view self.now.base.now).objects self.now.notes in
            field_value before (word o) at ≡ Some (word result) }
    {
        let mut o = o;
        let mut at = at;
        let mut k = self.notes.count;
        while k > 0 {
            k -= 1;
            match self.origin(k, o, at) {
                Origin::FromValue(x) => return x,
                Origin::FromPlace(source, place) => {
                    o = source;
                    at = place;
                }
            }
        }
        self.first_value(o, at)
    }

    /// Notes a change of fields of objects that are there, by the words that had them before all exchanges.
    fn note(&mut self, change: Change)
        requires room { count_of self.old.notes self.old.exchanges < 70 }
        requires named { highest change < 65536 + 2 * self.old.notes.made_count }
        requires closed { let before = noted (M.view self.old.base.now).objects self.old.notes in
            AllThere (after_change before change) }
        ensures table { noted (M.view self.new.base.now).objects self.new.notes
            ≡ after_change (noted (M.view self.old.base.now).objects self.old.notes) change }
        ensures exchanges { self.new.exchanges ≡ self.old.exchanges }
        ensures head { (M.view self.new.base.now).head ≡ (M.view self.old.base.now).head }
        ensures fixed { M.view self.new.base.now ≡ M.view self.old.base.now }
        ensures room { count_of self.new.notes self.new.exchanges
            ≡ count_of self.old.notes self.old.exchanges + 1 }
    {
        self.notes.note(change);
    }

    /// Half of the free pointer that has a number, counted from 0; all from 65536 on are free.
    fn free_place(&self, number: u32) -> u32
        requires { number < 70 }
        ensures place { result ≡ free_place (without_first (M.view self.now.base.now).objects) 1 number }
        ensures small { result ≤ 32837 }
    {
        let mut left = number;
        for k in 1..32768u32 {
            if !self.base.live(Oop((2 * k) as u16)) {
                if left == 0 {
                    return k;
                }
                left -= 1;
            }
        }
        32768 + left
    }

    /// Whether an object of the memory bears the pointer of which this is half.
    fn is_taken(&self, place: u32) -> bool
        ensures { result ≡ is_some (entry (M.view self.now.base.now).objects place) }
    {
        if place > 32767 {
            return false;
        }
        self.base.live(Oop((2 * place) as u16))
    }

    /// The number of the place behind one whose number is given.
    fn next_number(&self, place: u32, number: u32) -> u32
        requires place { 0 < place }
        requires number { let base = (M.view self.now.base.now).objects in
            IsNumberOf base self.now.notes.made_count place number }
        ensures { let base = (M.view self.now.base.now).objects in
            IsNumberOf base self.now.notes.made_count (place + 1) result }
    {
        if number == self.notes.made_count {
            return number;
        }
        if self.is_taken(place) {
            number
        } else {
            number + 1
        }
    }

    /// The number of a place.
    fn number_of(&self, place: u32) -> u32
        requires { 0 < place }
        ensures { let base = (M.view self.now.base.now).objects in
            IsNumberOf base self.now.notes.made_count place result }
    {
        let mut number = 0;
        for before in 1..place {
            if number == self.notes.made_count {
                return number;
            }
            number = self.next_number(before, number);
        }
        number
    }

    /// The object that bears or will bear the pointer of which this is half.
    fn bearer(&self, place: u32, number: u32) -> Option<Word>
        requires place { 0 < place }
        requires number { let base = (M.view self.now.base.now).objects in
            IsNumberOf base self.now.notes.made_count place number }
        ensures { let now = drafted (M.view self.now.base.now).objects self.now.notes self.now.exchanges in
            option_map word result ≡ named_or_not (borne_apart now place) }
    {
        if self.is_taken(place) {
            return Some(Word(2 * place));
        }
        if number < self.notes.made_count {
            Some(Word(65536 + 2 * number))
        } else {
            None
        }
    }

    /// That object, where it is an instance of a class.
    fn instance_at(&self, class: Word, place: u32, number: u32) -> Option<Word>
        requires place { 0 < place }
        requires number { let base = (M.view self.now.base.now).objects in
            IsNumberOf base self.now.notes.made_count place number }
        ensures { let now = drafted (M.view self.now.base.now).objects self.now.notes self.now.exchanges in
            option_map word result ≡ named_or_not (instance_at now (word class) place) }
    {
        let o = match self.bearer(place, number) {
            Some(o) => o,
            None => return None,
        };
        let own = match self.fetch_class(o) {
            Ok(own) => own,
            Err(_) => return None,
        };
        if own.same(class) { Some(o) } else { None }
    }

    /// Whether an object of kind Pointers has n fields, from one on; else the cause of which a step dies.
    fn check_fields(&self, o: Word, from: u32, n: u32) -> Result<(), Dead>
        ensures has { let base = (M.view self.now.base.now).objects in
            let now = drafted base self.now.notes self.now.exchanges in
            IfOk result (λ u. Has now (word o) from n) }
        ensures lacks { let base = (M.view self.now.base.now).objects in
            let now = drafted base self.now.notes self.now.exchanges in
            IfErr result (Lacks now (word o) from n) }
    {
        let fields = self.count_fields(o)?;
        if fields < from {
            return Err(Dead::Field);
        }
        if fields - from < n {
            return Err(Dead::Field);
        }
        Ok(())
    }
}

impl<'a, M: Memory> Objects for Draft<'a, M> {
    ghost use Rattle.st_memory.specs.inside.Tabular.{apart_tabular};

    ghost names = { apart };

    ghost table = { λ d. drafted (M.view d.base.now).objects d.notes d.exchanges };

    ghost head = { λ d. (M.view d.base.now).head };

    ghost fixed = { λ d. M.view d.base.now };

    ghost room = { λ d. 70 - count_of d.notes d.exchanges };

    fn is_there(&self, v: Word) -> bool {
        self.find_made(v).is_some() || self.base.is_there(v)
    }

    fn fetch_field(&self, o: Word, i: u32) -> Result<Word, Dead> {
        let before = self.exchanges.word_before(o);
        if i < self.count_noted(before)? {
            Ok(self.value(before, i))
        } else {
            Err(Dead::Field)
        }
    }

    fn count_fields(&self, o: Word) -> Result<u32, Dead> {
        let before = self.exchanges.word_before(o);
        self.count_noted(before)
    }

    fn fetch_class(&self, o: Word) -> Result<Word, Dead> {
        let before = self.exchanges.word_before(o);
        match self.find_made(before) {
            Some(made) => Ok(Word(made.class.0 / 2 * 2)),
            None => self.base.fetch_class(before),
        }
    }

    fn fetch_kind(&self, o: Word) -> Result<Kind, Dead> {
        let before = self.exchanges.word_before(o);
        match self.find_made(before) {
            Some(made) => Ok(made.kind),
            None => self.base.fetch_kind(before),
        }
    }

    fn fetch_size(&self, o: Word) -> Result<u32, Dead> {
        let before = self.exchanges.word_before(o);
        match self.find_made(before) {
            Some(made) => Ok(made.size),
            None => self.base.fetch_size(before),
        }
    }

    fn half_word(&self, o: Word) -> u32 {
        match self.find_number(o) {
            Some(number) => self.free_place(number),
            None => self.base.half_word(o),
        }
    }

    fn method_header(&self, method: Word) -> Result<Word, Dead> {
        let before = self.exchanges.word_before(method);
        match self.find_made(before) {
            Some(made) => made.method_header(),
            None => self.base.method_header(before),
        }
    }

    fn literal(&self, method: Word, i: u32) -> Result<Word, Dead> {
        let before = self.exchanges.word_before(method);
        match self.find_made(before) {
            Some(made) => made.literal(i),
            None => self.base.literal(before, i),
        }
    }

    fn literal_from_last(&self, method: Word, k: u32) -> Result<Word, Dead> {
        let before = self.exchanges.word_before(method);
        match self.find_made(before) {
            Some(made) => made.literal(k),
            None => self.base.literal_from_last(before, k),
        }
    }

    fn fetch_method_field(&self, method: Word, i: u32) -> Result<Word, Dead> {
        let before = self.exchanges.word_before(method);
        match self.find_made(before) {
            Some(made) => made.fetch_method_field(i),
            None => self.base.fetch_method_field(before, i),
        }
    }

    fn byte_at(&self, method: Word, ip: i32) -> Result<u8, Dead> {
        let before = self.exchanges.word_before(method);
        match self.find_made(before) {
            Some(made) => made.byte_at(ip),
            None => self.base.byte_at(before, ip),
        }
    }

    fn fetch_word(&self, o: Word, i: u32) -> Result<u16, Dead> {
        let before = self.exchanges.word_before(o);
        match self.find_made(before) {
            Some(made) => made.fetch_word(i),
            None => self.base.fetch_word(before, i),
        }
    }

    fn fetch_byte(&self, o: Word, i: u32) -> Result<u8, Dead> {
        let before = self.exchanges.word_before(o);
        match self.find_made(before) {
            Some(made) => made.fetch_byte(i),
            None => self.base.fetch_byte(before, i),
        }
    }

    fn object_at(&self, half: u32) -> Option<Word> {
        if half == 0 {
            return None;
        }
        self.bearer(half, self.number_of(half))
    }

    fn next_instance(&self, class: Word, after: u32) -> Option<Word> {
        if after > 32766 {
            return None;
        }
        let mut number = self.number_of(after + 1);
        for place in after + 1..32768 {
            let instance = self.instance_at(class, place, number);
            if instance.is_some() {
                return instance;
            }
            number = self.next_number(place, number);
        }
        None
    }

    fn free(&self) -> Demand {
        let made = self.demand();
        let free = self.base.free();
        Demand {
            entries: free.entries.saturating_sub(made.entries),
            words: free.words.saturating_sub(made.words),
        }
    }

    fn store_field(&mut self, o: Word, i: u32, x: Word) -> Result<(), Dead> {
        self.check_fields(o, i, 1)?;
        if !self.is_there(x) {
            return Err(Dead::Kind);
        }
        let before = self.exchanges.word_before(o);
        self.note(Change::Field {
            object: before,
            at: i,
            value: x,
        });
        Ok(())
    }

    fn transfer(
        &mut self,
        n: u32,
        source: Word,
        from: u32,
        target: Word,
        to: u32,
    ) -> Result<(), Dead> {
        if n == 0 {
            return Ok(());
        }
        self.check_fields(source, from, n)?;
        self.check_fields(target, to, n)?;
        let first = self.exchanges.word_before(source);
        let second = self.exchanges.word_before(target);
        self.note(Change::Fields {
            n,
            source: first,
            from,
            target: second,
            to,
        });
        Ok(())
    }

    fn exchange(&mut self, a: Word, b: Word) -> Result<(), Dead> {
        if a.is_small() {
            return Err(Dead::Small);
        }
        if b.is_small() {
            return Err(Dead::Small);
        }
        if !self.is_there(a) {
            return Err(Dead::Kind);
        }
        if !self.is_there(b) {
            return Err(Dead::Kind);
        }
        self.exchanges.add(Exchange {
            first: a,
            second: b,
        });
        Ok(())
    }

    fn make(&mut self, class: Word, kind: Kind, size: u32, literals: u32) -> Result<Word, Dead> {
        if class.is_small() {
            return Err(Dead::Small);
        }
        if !self.is_there(class) {
            return Err(Dead::Kind);
        }
        let o = self.notes.add(Made {
            class,
            kind,
            size,
            literals,
        });
        Ok(o)
    }

    #[tactic(auto, unfolding(st_model::specs::Steps::new_object))]
    fn new_object(&mut self, class: Word, n: u32) -> Result<Word, Dead> {
        self.make(class, Kind::Pointers, n, 0)
    }

    fn remembered(&self, class: Word, selector: Word) -> Option<Word> {
        if self.count() > 0 {
            return None;
        }
        if selector.0 >= 65536 {
            return None;
        }
        Objects::remembered(self.base, class, selector)
    }

    ghost tabular = { apart_tabular };
}
