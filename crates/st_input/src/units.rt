ghost use Rattle.std.specs.Prelude.{◌≡◌, true};
ghost use Rattle.st_model.specs.{Values.{value, word}, Objects.has_bytes, View.is_live};
ghost use Rattle.st_model.specs.{Primitives.bytes_of_number, Input.four_bytes};
ghost use Rattle.st_model.specs.Deeds.{word_stored, byte_stored, bytes_stored};
ghost use Rattle.st_input.specs.inside.Named.{ChangesOne};

use crate::named::object_named;
use st_memory::{Memory, count_fields};
use st_model::{Kind, Oop, Word};

/// Stores a word at a place of an object of kind Words.
#[tactic(auto, using(st_memory::proofs::Bodies::bodies, crate::proofs::Done::words))]
pub fn store_word<M: Memory>(m: &mut M, object: Word, place: u32, stored: u16)
    ensures { ChangesOne (M.view m.old) (M.view m.new) (word_stored place stored) (word object) }
{
    let Some(target) = object_named(m, object) else {
        return;
    };
    if !m.kind(target).is_words() {
        return;
    }
    if place < m.size(target) {
        m.set_word(target, place, stored);
    }
}

/// Whether an object of this kind has bytes.
fn has_bytes(kind: Kind) -> bool
    ensures { result ≡ has_bytes kind }
{
    match kind {
        Kind::Pointers | Kind::Words => false,
        Kind::Bytes | Kind::Method => true,
    }
}

/// Stores a byte at a place of an object that is there, where that is of kind Bytes or Method.
#[tactic(auto, using(st_memory::proofs::Bodies::bodies, crate::proofs::Done::bytes))]
fn put_byte<M: Memory>(m: &mut M, target: Oop, place: u32, byte: u8)
    requires { is_live (M.view m.old).objects (value target) ≡ true }
    ensures { ChangesOne (M.view m.old) (M.view m.new) (byte_stored place byte) (value target) }
{
    if !has_bytes(m.kind(target)) {
        return;
    }
    if place < 2 * count_fields(m, target) {
        return;
    }
    if place < m.size(target) {
        m.set_byte(target, place, byte);
    }
}

/// Stores a byte at a place of an object of kind Bytes or Method; of a Method from the first bytecode on.
#[tactic(auto, using(crate::proofs::Done::gone_stays))]
pub fn store_byte<M: Memory>(m: &mut M, object: Word, place: u32, byte: u8)
    ensures { ChangesOne (M.view m.old) (M.view m.new) (byte_stored place byte) (word object) }
{
    if let Some(target) = object_named(m, object) {
        put_byte(m, target, place, byte);
    }
}

/// Stores the bytes of a number, the low one first, from the first place of an object on.
pub fn store_number<M: Memory>(m: &mut M, object: Word, number: u128)
    ensures { ChangesOne (M.view m.old) (M.view m.new)
        (bytes_stored 0 (bytes_of_number number)) (word object) }
{
    let mut left = number;
    for place in 0..16 {
        if left < 256 {
            store_byte(m, object, place, left as u8);
            return;
        }
        store_byte(m, object, place, (left % 256) as u8);
        left /= 256;
    }
}

/// Stores the four bytes of a time, the low one first, from the first place of an object on.
#[tactic(auto, using(crate::proofs::Done::times))]
pub fn store_time<M: Memory>(m: &mut M, object: Word, time: u32)
    ensures { ChangesOne (M.view m.old) (M.view m.new)
        (bytes_stored 0 (four_bytes time)) (word object) }
{
    store_byte(m, object, 0, (time % 256) as u8);
    store_byte(m, object, 1, (time / 256 % 256) as u8);
    store_byte(m, object, 2, (time / 65536 % 256) as u8);
    store_byte(m, object, 3, (time / 16777216 % 256) as u8);
}
