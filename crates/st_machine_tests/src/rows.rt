//! Calls of a memory and what comes of them, as tables.

use crate::calls::{
    are_first, are_used, exchange, find_and_remember, hold, is_field, make, remembered, write,
};
use crate::image::{Image, memory_of};
use st_memory::{Loader, Memory, count_fields};
use st_model::{Dead, Demand, Kind, Oop, RootPlace};
use std::alloc::AllocGlobal;
use std::process::Abort;

/// A call of a memory, or what it answers then.
#[derive(Clone, Copy)]
pub enum Call {
    /// So many objects of a class, a kind and a size are made, the last one under this pointer.
    Make(u32, u16, Kind, u32, u16),
    /// So many objects are made of which each but the first has the one before in its second field; the last one is held.
    MakeChain(u32),
    /// Objects are made where others were; so often.
    MakeInTurns(u32),
    /// At a place an object is held.
    Hold(RootPlace, u16),
    Settle,
    Exchange(u16, u16),
    /// Into a field of an object a pointer is stored.
    Store(u16, u32, u16),
    /// Into a word of an object a number is stored.
    StoreWord(u16, u32, u16),
    /// So many entries and words are used.
    Used(u32, u32),
    /// Whether there is room for so many entries and words.
    Room(u32, u32, bool),
    /// An object has this class, and this in its kind's name.
    Object(u16, u16, &'static str),
    /// No object has this pointer.
    Gone(u16),
    /// An object has this in a field, a word or a byte.
    Field(u16, u32, u16),
    Word(u16, u32, u16),
    Byte(u16, u32, u8),
    /// The next instance of a class above a pointer.
    Next(u16, u32, Option<Oop>),
    /// A selector is searched in a class, and what is found is remembered.
    Find(u16, u16, Result<Option<Oop>, Dead>),
    /// What is remembered for a selector in a class.
    Remembered(u16, u16, Option<Oop>),
}

/// An image with its capacities, and calls of its memory.
pub type Row = (Image, u32, u32, &'static [Call]);

/// Five objects up to the last word. Two of them are held, and the words of the others are free again, though no hole
/// has as many as the last object wants.
const FILLED_WORDS: &[Call] = &[
    Call::Used(24, 78),
    Call::Make(1, 12, Kind::Words, 4, 10),
    Call::Make(1, 12, Kind::Words, 4, 18),
    Call::Make(1, 12, Kind::Words, 4, 20),
    Call::Make(1, 12, Kind::Words, 4, 30),
    Call::Make(1, 12, Kind::Words, 4, 36),
    Call::Room(0, 0, true),
    Call::Room(1, 2, false),
    Call::Hold(RootPlace::Display, 18),
    Call::Hold(RootPlace::Cursor, 30),
    Call::Settle,
    Call::Used(26, 90),
    Call::Room(1, 18, true),
    Call::Room(1, 19, false),
    Call::Make(1, 12, Kind::Words, 16, 10),
    Call::Used(27, 108),
];

/// The same with larger objects, whose words stay as they are where they are moved.
const MOVED_WORDS: &[Call] = &[
    Call::Make(1, 16, Kind::Words, 18, 10),
    Call::Make(4, 16, Kind::Words, 18, 36),
    Call::StoreWord(18, 17, 40000),
    Call::StoreWord(30, 0, 7),
    Call::Hold(RootPlace::Display, 18),
    Call::Hold(RootPlace::Cursor, 30),
    Call::Settle,
    Call::Make(1, 16, Kind::Words, 66, 10),
    Call::Word(18, 17, 40000),
    Call::Word(30, 0, 7),
    Call::Word(10, 65, 0),
    Call::Used(27, 186),
];

/// Objects up to the last pointer.
const FILLED_TABLE: &[Call] = &[
    Call::Make(32743, 12, Kind::Bytes, 0, 65534),
    Call::Used(32767, 78 + 2 * 32743),
    Call::Room(0, 0, true),
    Call::Room(1, 0, false),
    Call::Hold(RootPlace::Timer, 65534),
    Call::Settle,
    Call::Used(25, 80),
    Call::Room(32742, 0, true),
    Call::Room(32743, 0, false),
    Call::Make(1, 12, Kind::Pointers, 0, 10),
];

/// Two objects that name each other alone stay once one of them was held.
const CYCLE: &[Call] = &[
    Call::Make(1, 16, Kind::Pointers, 1, 10),
    Call::Make(1, 16, Kind::Pointers, 1, 18),
    Call::Store(10, 0, 18),
    Call::Store(18, 0, 10),
    Call::Hold(RootPlace::Display, 10),
    Call::Settle,
    Call::Used(26, 84),
    Call::Hold(RootPlace::Display, 2),
    Call::Settle,
    Call::Used(26, 84),
    Call::Next(16, 0, Some(Oop(10))),
    Call::Next(16, 10, Some(Oop(18))),
    Call::Next(16, 18, None),
];

/// A chain of objects goes at once, from its first to its last.
const CHAIN: &[Call] = &[
    Call::MakeChain(1000),
    Call::Settle,
    Call::Used(1024, 4078),
    Call::Hold(RootPlace::Timer, 2),
    Call::Settle,
    Call::Used(24, 78),
];

/// An object that nothing names stays until the memory settles.
const UNNAMED_GOES: &[Call] = &[
    Call::Used(25, 80),
    Call::Settle,
    Call::Used(24, 78),
    Call::Gone(66),
];

/// What is held twice is let go once.
const HELD_TWICE: &[Call] = &[
    Call::Hold(RootPlace::Display, 58),
    Call::Settle,
    Call::Used(24, 78),
    Call::Hold(RootPlace::Display, 58),
    Call::Settle,
    Call::Used(24, 78),
    Call::Hold(RootPlace::Display, 2),
    Call::Settle,
    Call::Used(24, 78),
    Call::Object(58, 12, "pointers"),
];

/// A symbol and a method in each other's place.
const EXCHANGED: &[Call] = &[
    Call::Exchange(66, 72),
    Call::Object(66, 34, "method"),
    Call::Object(72, 56, "bytes"),
    Call::Field(68, 2, 66),
    Call::Field(70, 0, 72),
    Call::Byte(72, 0, 43),
];

/// A word is stored, and the others stay; and an object that nothing names stays while it is held.
const STORED_WORD: &[Call] = &[
    Call::Object(66, 16, "words"),
    Call::StoreWord(66, 1, 4660),
    Call::Word(66, 0, 0),
    Call::Word(66, 1, 4660),
    Call::Word(66, 2, 65535),
    Call::Hold(RootPlace::InputSemaphore, 66),
    Call::Settle,
    Call::Used(25, 83),
    Call::Hold(RootPlace::InputSemaphore, 2),
    Call::Settle,
    Call::Used(24, 78),
];

/// A new object's fields are nil, also where others had their fields, and what was there is as it was.
const NEW_FIELDS: &[Call] = &[
    Call::MakeInTurns(20),
    Call::Field(60, 0, 2),
    Call::Field(60, 1, 62),
    Call::Field(60, 2, 9),
    Call::Field(60, 3, 2),
];

pub const ROWS: &[Row] = &[
    (Image::B, 32767, 108, FILLED_WORDS),
    (Image::B, 32767, 186, MOVED_WORDS),
    (Image::B, 32767, 1048576, FILLED_TABLE),
    (Image::B, 32767, 1048576, CYCLE),
    (Image::B, 32767, 1048576, CHAIN),
    (Image::Unnamed, 32767, 1048576, UNNAMED_GOES),
    (Image::B, 32767, 1048576, HELD_TWICE),
    (Image::C, 32767, 1048576, EXCHANGED),
    (Image::Words, 32767, 1048576, STORED_WORD),
    (Image::B, 40, 100, NEW_FIELDS),
];

/// Makes so many objects, the last one under this pointer.
fn make_many<M: Memory>(
    m: &mut M,
    count: u32,
    (class, kind, size): (u16, Kind, u32),
    last: u16,
) -> bool {
    let mut made = None;
    for _ in 0..count {
        made = make(m, class, kind, size);
        if made.is_none() {
            return false;
        }
    }
    made == Some(last)
}

fn make_chain<M: Memory>(m: &mut M, count: u32) -> bool {
    let mut last = 2;
    for _ in 0..count {
        let Some(object) = make(m, 16, Kind::Pointers, 2) else {
            return false;
        };
        if !write(m, object, 1, last) {
            return false;
        }
        last = object;
    }
    hold(m, RootPlace::Timer, last)
}

/// Makes an object with this in a field.
fn make_with<M: Memory>(m: &mut M, size: u32, at: u32, field: u16) -> Option<u16> {
    let made = make(m, 12, Kind::Pointers, size)?;
    if write(m, made, at, field) {
        Some(made)
    } else {
        None
    }
}

/// One object is kept until the next turn, and one is lost in this one. Another is made where that was, or below.
fn make_in_turn<M: Memory>(m: &mut M) -> Option<bool> {
    let kept = make_with(m, 3, 2, 6)?;
    let is_held = hold(m, RootPlace::Cursor, kept);
    let lost = make_with(m, 2, 0, 4)?;
    m.settle();
    let is_settled = are_used(m, 25, 83);
    let made = make(m, 12, Kind::Pointers, 4)?;
    let is_new = made != kept && made <= lost && are_first(m, made, &[]);
    Some(is_held && is_settled && is_new && are_first(m, kept, &[2, 2, 6]))
}

fn make_in_turns<M: Memory>(m: &mut M, count: u32) -> bool {
    for _ in 0..count {
        if make_in_turn(m) != Some(true) {
            return false;
        }
    }
    true
}

fn store_word<M: Memory>(m: &mut M, o: u16, at: u32, word: u16) -> bool {
    let object = Oop(o);
    if m.live(object) && m.kind(object).is_words() && at < m.size(object) {
        m.set_word(object, at, word);
        return true;
    }
    false
}

fn is_object<M: Memory>(m: &M, o: u16, class: u16, kind: &str) -> bool {
    let object = Oop(o);
    if !m.live(object) {
        return false;
    }
    let name = match m.kind(object) {
        Kind::Pointers => "pointers",
        Kind::Words => "words",
        Kind::Bytes => "bytes",
        Kind::Method => "method",
    };
    m.class_of(object).0 == class && name == kind
}

fn is_word<M: Memory>(m: &M, o: u16, at: u32, word: u16) -> bool {
    let object = Oop(o);
    m.live(object) && m.kind(object).is_words() && at < m.size(object) && m.word(object, at) == word
}

/// Whether this is a byte of an object without fields.
fn is_byte<M: Memory>(m: &M, o: u16, at: u32, byte: u8) -> bool {
    let object = Oop(o);
    m.live(object)
        && !m.kind(object).is_words()
        && count_fields(m, object) == 0
        && at < m.size(object)
        && m.byte(object, at) == byte
}

/// Makes a call that may change a memory; whether it is such a one, and answers what is wanted.
pub fn does<M: Memory>(m: &mut M, call: &Call) -> bool {
    match *call {
        Call::Make(count, class, kind, size, last) => make_many(
            m,
            count,
            (class, kind, size),
            last,
        ),
        Call::MakeChain(count) => make_chain(m, count),
        Call::MakeInTurns(count) => make_in_turns(m, count),
        Call::Hold(place, o) => hold(m, place, o),
        Call::Exchange(a, b) => exchange(m, a, b),
        Call::Store(o, at, field) => write(m, o, at, field),
        Call::StoreWord(o, at, word) => store_word(m, o, at, word),
        Call::Find(class, selector, found) => find_and_remember(m, Oop(class), Oop(selector))
            == found,
        Call::Settle => {
            m.settle();
            true
        }
        _ => false,
    }
}

/// Whether a memory, which stays as it is, answers what is wanted.
fn is_so<M: Memory>(m: &M, call: &Call) -> bool {
    match *call {
        Call::Used(entries, words) => are_used(m, entries, words),
        Call::Room(entries, words, fits) => m.room(Demand { entries, words }) == fits,
        Call::Object(o, class, kind) => is_object(m, o, class, kind),
        Call::Gone(o) => !m.live(Oop(o)),
        Call::Field(o, at, field) => is_field(m, o, at, field),
        Call::Word(o, at, word) => is_word(m, o, at, word),
        Call::Byte(o, at, byte) => is_byte(m, o, at, byte),
        Call::Next(class, after, next) => m.next_of(Oop(class), after) == next,
        Call::Remembered(class, selector, method) => remembered(m, Oop(class), Oop(selector))
            == method,
        _ => false,
    }
}

/// Calls a memory, which answers what is wanted.
pub fn check_calls<M: Memory>(rt: &impl Abort, m: &mut M, calls: &[Call]) {
    for (number, call) in calls.iter().enumerate() {
        assert!(rt; is_so(m, call) || does(m, call), "call {number}");
    }
}

/// Calls the memory of each row.
pub fn check_rows<L: Loader>(rt: &(impl Abort + AllocGlobal), rows: &[Row]) {
    for (of, entries, words, calls) in rows {
        let mut m = memory_of::<L>(rt.alloc(), *of, *entries, *words).expect(rt, "an image");
        check_calls(rt, &mut m, calls);
    }
}
