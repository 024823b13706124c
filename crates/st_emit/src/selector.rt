//! Selectors that have a code or a form of their own.

ghost use Rattle.std.specs.Prelude.{◌≡◌, ◌<◌, IfSome, length, map};
ghost use Rattle.st_emit.specs.Names.{field_from};
ghost use Rattle.st_emit.specs.Selectors.{sends_now};
ghost use Rattle.st_emit.specs.Resolving.{special_selector, special_code, form_named};

use crate::form::{Form, Loop, OneSided, TwoSided};
use crate::table::value_or;

/// The code of the first special selector.
const FIRST_SPECIAL: u8 = 176;

/// The code of `blockCopy:`.
pub const BLOCK_COPY: u8 = 200;

/// Its place among the special selectors.
const BLOCK_COPY_PLACE: usize = 24;

/// The selectors that have a code of their own, in the order of their codes, each with its number of arguments.
pub const SPECIAL_SENDS: [(&[u8], u8); 32] = [
    (b"+", 1),
    (b"-", 1),
    (b"<", 1),
    (b">", 1),
    (b"<=", 1),
    (b">=", 1),
    (b"=", 1),
    (b"~=", 1),
    (b"*", 1),
    (b"/", 1),
    (b"\\\\", 1),
    (b"@", 1),
    (b"bitShift:", 1),
    (b"//", 1),
    (b"bitAnd:", 1),
    (b"bitOr:", 1),
    (b"at:", 1),
    (b"at:put:", 2),
    (b"size", 0),
    (b"next", 0),
    (b"nextPut:", 1),
    (b"atEnd", 0),
    (b"==", 1),
    (b"class", 0),
    (b"blockCopy:", 1),
    (b"value", 0),
    (b"value:", 1),
    (b"do:", 1),
    (b"new", 0),
    (b"new:", 1),
    (b"x", 0),
    (b"y", 0),
];

/// The place of the first of these selectors that is this one.
fn place_in(sends: &[(&[u8], u8)], text: &[u8]) -> Option<usize>
    ensures place { result ≡ field_from 0 (map (λ s. s.0) (sends_now sends.now)) text.now }
    ensures within { IfSome result (λ k. k < length sends.now) }
{
    for (i, (selector, _)) in sends.iter().enumerate() {
        if *selector == text {
            return Some(i);
        }
    }
    None
}

/// The place of a selector among the special ones.
pub fn special_selector(text: &[u8]) -> Option<usize>
    ensures place { result ≡ special_selector text.now }
    ensures few { IfSome result (λ k. k < 32) }
{
    place_in(&SPECIAL_SENDS, text)
}

/// The code of a special selector. Only blocks send `blockCopy:` by its code.
pub fn special_code(text: &[u8]) -> Option<u8>
    ensures { result ≡ special_code text.now }
{
    match special_selector(text) {
        Some(BLOCK_COPY_PLACE) => None,
        Some(special) => Some(FIRST_SPECIAL + special as u8),
        None => None,
    }
}

/// The selectors of conditional forms and loops, each with its form.
const FORMS: [(&[u8], Form); 8] = [
    (b"ifTrue:", Form::One(OneSided::IfTrue)),
    (b"ifFalse:", Form::One(OneSided::IfFalse)),
    (b"and:", Form::One(OneSided::And)),
    (b"or:", Form::One(OneSided::Or)),
    (b"ifTrue:ifFalse:", Form::Two(TwoSided::TrueFirst)),
    (b"ifFalse:ifTrue:", Form::Two(TwoSided::FalseFirst)),
    (b"whileTrue:", Form::Repeated(Loop::WhileTrue)),
    (b"whileFalse:", Form::Repeated(Loop::WhileFalse)),
];

/// What a selector says of its form.
pub fn form_named(text: &[u8]) -> Form
    ensures { result ≡ form_named text.now }
{
    value_or(&FORMS, text, Form::Message)
}
