ghost use Rattle.std.specs.Prelude.{◌≡◌, ◌≤◌, IfOk};
ghost use Rattle.st_model.specs.{Values.{Ref, word}, Objects.words_of, Table.table};
ghost use Rattle.st_model.specs.Steps.{count_fields, literal, fetch_method_field, byte_at, fetch_word, fetch_byte};
ghost use Rattle.st_model.specs.{Methods.{method_header, literal_from_last}, inside.Calls.{Reads, itself}};
ghost use Rattle.st_memory.specs.inside.Making.{IsMade, made_object, alone};

use st_model::{Dead, Kind, Word};

/// An object that a row makes: with nil in its fields and literals, and words and bytes of 0. What is read of it is what
/// is read of that object.
#[derive(Clone, Copy)]
pub struct Made {
    /// The object's class.
    pub class: Word,
    pub kind: Kind,
    /// How many fields, words or bytes it has; a Method's header and literals count as bytes.
    pub size: u32,
    /// How many literals a Method has.
    pub literals: u32,
}

impl Made {
    /// The words that it takes.
    #[tactic(auto, using(crate::proofs::Fresh::sizes))]
    pub fn words(self) -> u32
        requires { IsMade self }
        ensures words { result ≡ words_of (made_object self) }
        ensures small { result ≤ 65535 }
    {
        match self.kind {
            Kind::Pointers | Kind::Words => self.size + 2,
            Kind::Bytes | Kind::Method => (self.size + 1) / 2 + 2,
        }
    }

    /// How many fields it has, where it is of kind Pointers.
    #[tactic(auto, using(crate::proofs::Fresh::counts))]
    pub fn count_fields(self) -> Result<u32, Dead>
        requires { IsMade self }
        ensures counts { Reads (count_fields table (Ref 0)) itself (alone (made_object self)) result }
        ensures small { IfOk result (λ n. n ≤ 65533) }
    {
        if self.kind.is_pointers() {
            Ok(self.size)
        } else {
            Err(Dead::Kind)
        }
    }

    /// The header of a method.
    #[tactic(auto, using(crate::proofs::Fresh::headers))]
    pub fn method_header(self) -> Result<Word, Dead>
        requires { IsMade self }
        ensures { Reads (method_header table (Ref 0)) word (alone (made_object self)) result }
    {
        if self.kind.is_method() {
            Ok(Word(2 * self.literals + 1))
        } else {
            Err(Dead::Kind)
        }
    }

    /// Literal i of a method, or the one with i literals behind it: all of them are nil.
    #[tactic(auto, using(crate::proofs::Fresh::literals, crate::proofs::Fresh::lasts))]
    pub fn literal(self, i: u32) -> Result<Word, Dead>
        ensures from_first { Reads (literal table (Ref 0) i) word (alone (made_object self)) result }
        ensures from_last { Reads (literal_from_last table (Ref 0) i) word (alone (made_object self)) result }
    {
        if !self.kind.is_method() {
            return Err(Dead::Kind);
        }
        if i < self.literals {
            Ok(Word::NIL)
        } else {
            Err(Dead::Field)
        }
    }

    /// Field i of a method.
    #[tactic(auto, using(crate::proofs::Fresh::method_fields))]
    pub fn fetch_method_field(self, i: u32) -> Result<Word, Dead>
        requires { IsMade self }
        ensures { Reads (fetch_method_field table (Ref 0) i) word (alone (made_object self)) result }
    {
        if !self.kind.is_method() {
            return Err(Dead::Kind);
        }
        if i == 0 {
            return Ok(Word(2 * self.literals + 1));
        }
        if i <= self.literals {
            Ok(Word::NIL)
        } else {
            Err(Dead::Field)
        }
    }

    /// Byte `ip` of a method, where that is one of its bytecodes and at most 16381.
    #[tactic(auto, using(crate::proofs::Fresh::codes))]
    pub fn byte_at(self, ip: i32) -> Result<u8, Dead>
        requires { IsMade self }
        ensures { Reads (byte_at table (Ref 0) ip) itself (alone (made_object self)) result }
    {
        if !self.kind.is_method() {
            return Err(Dead::Kind);
        }
        if ip < 0 {
            return Err(Dead::Ip);
        }
        let place = ip as u32;
        if place < 2 * self.literals + 2 {
            return Err(Dead::Ip);
        }
        if place > 16381 {
            return Err(Dead::Ip);
        }
        if place < self.size {
            Ok(0)
        } else {
            Err(Dead::Ip)
        }
    }

    /// Word i of an object of kind Words.
    #[tactic(auto, using(crate::proofs::Fresh::words))]
    pub fn fetch_word(self, i: u32) -> Result<u16, Dead>
        ensures { Reads (fetch_word table (Ref 0) i) itself (alone (made_object self)) result }
    {
        if !self.kind.is_words() {
            return Err(Dead::Kind);
        }
        if i < self.size {
            Ok(0)
        } else {
            Err(Dead::Field)
        }
    }

    /// Byte i of an object of kind Bytes or Method.
    #[tactic(auto, using(crate::proofs::Fresh::bytes))]
    pub fn fetch_byte(self, i: u32) -> Result<u8, Dead>
        requires { IsMade self }
        ensures { Reads (fetch_byte table (Ref 0) i) itself (alone (made_object self)) result }
    {
        let first = match self.kind {
            Kind::Pointers | Kind::Words => return Err(Dead::Kind),
            Kind::Bytes => 0,
            Kind::Method => 2 * self.literals + 2,
        };
        if i < first {
            return Err(Dead::Field);
        }
        if i < self.size {
            Ok(0)
        } else {
            Err(Dead::Field)
        }
    }
}
