ghost use Rattle.std.specs.{Option.option_map, Prelude.{◌≡◌, ◌≢◌, ℕ, ◌+◌, ◌/◌, ◌≤◌, true, Ok, Some, IfOk, IfErr, IfSome}};
ghost use Rattle.st_model.specs.{Values.{Ref, word}, Objects.place_of};
ghost use Rattle.st_model.specs.declared.page.PageObject.TheVariants.{MethodClass};
ghost use Rattle.st_model.specs.{Machine.{ObjectMemory, Head, is_there}, Table.{Table, IsTabular}};
ghost use Rattle.st_model.specs.Steps.{fetch_field, count_fields, class_of, literal, fetch_method_field, byte_at, fetch_word, fetch_byte, store_field, transfer, exchange, make, new_object, object_at, next_instance, fetch_kind, fetch_size, get_free};
ghost use Rattle.st_model.specs.{Methods.{method_header, literal_from_last}, Lookup.half_word};
ghost use Rattle.st_model.specs.{inside.Calls.{Reads, Changes, itself}, View.View};
ghost use Rattle.st_memory.specs.{inside.Making.{CanMake, making_changes}, inside.Searched.FindsBy};

use crate::context_fields::ContextFields;
use st_model::{Dead, Demand, Kind, Word};

/// The objects that the row of a bytecode reads and changes: those of a memory, or those of a draft over one, which
/// tells what a row would do. Each call but `is_there` is a step of the definitions, which its contract names: it answers
/// and changes what that does, and its error is the cause of which that dies.
pub trait Objects {
    /// How new objects are named.
    ghost names: { ObjectMemory Table };

    /// The objects by their names.
    ghost table: { Self → Table };

    /// The capacities, and the tables of names.
    ghost head: { Self → Head };

    /// What stays as it is: what a memory has besides its objects, or the whole memory that a draft stands over.
    ghost fixed: { Self → View };

    /// How many more changes it can take.
    ghost room: { Self → ℕ };

    /// Whether a word is a SmallInteger of 15 bits, or names an object that is there.
    fn is_there(&self, v: Word) -> bool
        ensures { result ≡ is_there names (table self.now) (word v) };

    /// Field i of an object of kind Pointers.
    fn fetch_field(&self, o: Word, i: u32) -> Result<Word, Dead>
        ensures { Reads (fetch_field names (word o) i) word (table self.now) result };

    /// How many fields an object of kind Pointers has.
    fn count_fields(&self, o: Word) -> Result<u32, Dead>
        ensures counts { Reads (count_fields names (word o)) itself (table self.now) result }
        ensures small { IfOk result (λ n. n ≤ 65533) };

    /// The fields of a context that keep its registers, read at one look; or None, and each is to be read by itself. A context
    /// is of kind Pointers and has six fields at least; all that stands in these is there.
    fn context_fields(&self, _context: Word) -> Option<ContextFields>
        ensures instruction_pointer { IfSome result (λ f. Reads (fetch_field names (word _context) 1) word
            (table self.now) (Ok f.instruction_pointer)) }
        ensures stack_pointer { IfSome result (λ f. Reads (fetch_field names (word _context) 2) word
            (table self.now) (Ok f.stack_pointer)) }
        ensures method { IfSome result (λ f. Reads (fetch_field names (word _context) 3) word
            (table self.now) (Ok f.method)) }
        ensures receiver { IfSome result (λ f. Reads (fetch_field names (word _context) 5) word
            (table self.now) (Ok f.receiver)) }
        ensures count { IfSome result (λ f. Reads (count_fields names (word _context)) itself
            (table self.now) (Ok f.count)) }
        ensures context_there { IfSome result (λ f. is_there names (table self.now) (word _context) ≡ true) }
        ensures method_there { IfSome result (λ f. is_there names (table self.now) (word f.method) ≡ true) }
        ensures receiver_there { IfSome result (λ f. is_there names (table self.now) (word f.receiver)
            ≡ true) }
    {
        None
    }

    /// The class of an object.
    fn fetch_class(&self, o: Word) -> Result<Word, Dead>
        ensures { Reads (class_of names (word o)) word (table self.now) result };

    /// Of what kind an object is.
    fn fetch_kind(&self, o: Word) -> Result<Kind, Dead>
        ensures { Reads (fetch_kind names (word o)) itself (table self.now) result };

    /// How many fields, words or bytes an object has; a method's header and literals count as bytes.
    fn fetch_size(&self, o: Word) -> Result<u32, Dead>
        ensures size { Reads (fetch_size names (word o)) itself (table self.now) result }
        ensures small { IfOk result (λ n. n ≤ 131066) };

    /// Half of a word: the bits of a SmallInteger, or half of the pointer that an object bears or will bear; 0 where there
    /// is no object.
    fn half_word(&self, o: Word) -> u32
        ensures half { Reads (half_word names (word o)) itself (table self.now) (Ok result) }
        ensures small { result ≤ 2147483647 };

    /// The header of a method.
    fn method_header(&self, method: Word) -> Result<Word, Dead>
        ensures { Reads (method_header names (word method)) word (table self.now) result };

    /// Literal i of a method, counted from 0.
    fn literal(&self, method: Word, i: u32) -> Result<Word, Dead>
        ensures { Reads (literal names (word method) i) word (table self.now) result };

    /// The literal of a method with k literals behind it.
    fn literal_from_last(&self, method: Word, k: u32) -> Result<Word, Dead>
        ensures { Reads (literal_from_last names (word method) k) word (table self.now) result };

    /// Field i of a method: its header, or literal i - 1.
    fn fetch_method_field(&self, method: Word, i: u32) -> Result<Word, Dead>
        ensures { Reads (fetch_method_field names (word method) i) word (table self.now) result };

    /// Byte `ip` of a method, counted from 0, where that is one of its bytecodes and at most 16381.
    fn byte_at(&self, method: Word, ip: i32) -> Result<u8, Dead>
        ensures { Reads (byte_at names (word method) ip) itself (table self.now) result };

    /// Word i of an object of kind Words.
    fn fetch_word(&self, o: Word, i: u32) -> Result<u16, Dead>
        ensures { Reads (fetch_word names (word o) i) itself (table self.now) result };

    /// Byte i of an object of kind Bytes or Method. A method's header and literals count, but aren't read so.
    fn fetch_byte(&self, o: Word, i: u32) -> Result<u8, Dead>
        ensures { Reads (fetch_byte names (word o) i) itself (table self.now) result };

    /// The object that bears the pointer of which this is half, or will bear it once it is made.
    fn object_at(&self, half: u32) -> Option<Word>
        ensures { Reads (object_at names half) (option_map word) (table self.now) (Ok result) };

    /// Of the instances of a class that bear pointers above the one of which `after` is half, the one with the least.
    fn next_instance(&self, class: Word, after: u32) -> Option<Word>
        ensures { Reads (next_instance names (word class) after) (option_map word)
            (table self.now) (Ok result) };

    /// How many entries and words of the capacities the objects leave.
    fn free(&self) -> Demand
        ensures { Changes (get_free names) itself
            (table self.now) (head self.now) (Ok result) (table self.now) };

    /// Stores x in field i of an object of kind Pointers.
    fn store_field(&mut self, o: Word, i: u32, x: Word) -> Result<(), Dead>
        requires { 1 ≤ room self.old }
        ensures stores { Changes (store_field names (word o) i (word x)) itself
            (table self.old) (head self.old) result (table self.new) }
        ensures head { head self.new ≡ head self.old }
        ensures room { room self.old ≤ room self.new + 1 }
        ensures fixed { fixed self.new ≡ fixed self.old };

    /// Stores n fields of one object in fields of another, once all of them are fetched.
    fn transfer(
        &mut self,
        n: u32,
        source: Word,
        from: u32,
        target: Word,
        to: u32,
    ) -> Result<(), Dead>
        requires { 1 ≤ room self.old }
        ensures transfers { Changes (transfer names n (word source) from (word target) to) itself
            (table self.old) (head self.old) result (table self.new) }
        ensures head { head self.new ≡ head self.old }
        ensures room { room self.old ≤ room self.new + 1 }
        ensures fixed { fixed self.new ≡ fixed self.old };

    /// Exchanges what two words name: class, kind and body of each are then those of the other.
    fn exchange(&mut self, a: Word, b: Word) -> Result<(), Dead>
        requires { 1 ≤ room self.old }
        ensures exchanges { Changes (exchange names (word a) (word b)) itself
            (table self.old) (head self.old) result (table self.new) }
        ensures dead { IfErr result (λ e. table self.new ≡ table self.old) }
        ensures head { head self.new ≡ head self.old }
        ensures room { room self.old ≤ room self.new + 1 }
        ensures fixed { fixed self.new ≡ fixed self.old };

    /// A new object of this class, kind, size and number of literals, with nil in its fields and literals, and words and
    /// bytes of 0.
    fn make(&mut self, class: Word, kind: Kind, size: u32, literals: u32) -> Result<Word, Dead>
        requires room { making_changes kind size ≤ room self.old }
        requires makeable { CanMake (word class) kind size literals }
        ensures makes { Changes (make names (word class) kind size literals) word
            (table self.old) (head self.old) result (table self.new) }
        ensures head { head self.new ≡ head self.old }
        ensures room { room self.old ≤ room self.new + making_changes kind size }
        ensures fixed { fixed self.new ≡ fixed self.old };

    /// A new object of kind Pointers with n fields of nil. Its class isn't CompiledMethod.
    fn new_object(&mut self, class: Word, n: u32) -> Result<Word, Dead>
        requires room { 1 + n / 2048 ≤ room self.old }
        requires class { word class ≢ Ref (place_of MethodClass) }
        requires small { n ≤ 65533 }
        ensures makes { Changes (new_object names (word class) n) word
            (table self.old) (head self.old) result (table self.new) }
        ensures head { head self.new ≡ head self.old }
        ensures room { room self.old ≤ room self.new + (1 + n / 2048) }
        ensures fixed { fixed self.new ≡ fixed self.old };

    /// The method that is remembered for a selector in a class, if one is: it is the one that the search finds.
    fn remembered(&self, _class: Word, _selector: Word) -> Option<Word>
        ensures { IfSome result (λ method.
            FindsBy names (table self.now) (word _class) (word _selector) (word method)) }
    {
        None
    }

    /// Remembers the method that the search finds for a selector in a class, or doesn't.
    fn remember(&mut self, _class: Word, _selector: Word, _method: Word)
        requires { FindsBy names (table self.old) (word _class) (word _selector) (word _method) }
        ensures table { table self.new ≡ table self.old }
        ensures head { head self.new ≡ head self.old }
        ensures room { room self.new ≡ room self.old }
        ensures fixed { fixed self.new ≡ fixed self.old }
    {}

    /// It reads and changes objects as a table does.
    ghost tabular: { IsTabular names };
}
