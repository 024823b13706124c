//! Calls of a memory that are made if they may be, and what a memory answers.

ghost use Rattle.std.specs.Prelude.{◌≡◌, ◌/◌, true};
ghost use Rattle.st_model.specs.{Formed.{IsMakeable, fresh}, Objects.words_of};

use st_lookup::find;
use st_memory::{Memory, Objects, live_value};
use st_model::{Dead, Demand, Kind, Oop, RootPlace, Word};

/// Whether there can be such an object without literals; it asks for a small one.
fn is_makeable(class: Oop, kind: Kind, size: u32) -> bool
    ensures { result ≡ true → IsMakeable (class.0 / 2) kind size 0 }
{
    !kind.is_method() && class.0 / 2 != 17 && size <= 100
}

/// How many words such an object has.
fn words_for(class: Oop, kind: Kind, size: u32) -> u32
    requires { IsMakeable (class.0 / 2) kind size 0 }
    ensures { result ≡ words_of (fresh (class.0 / 2) kind size 0) }
{
    match kind {
        Kind::Pointers | Kind::Words => 2 + size,
        Kind::Bytes => 2 + size.div_ceil(2),
        Kind::Method => 3 + (size - 2).div_ceil(2),
    }
}

/// Makes an object without literals if there is room, and answers its pointer.
pub fn make<M: Memory>(m: &mut M, class: u16, kind: Kind, size: u32) -> Option<u16>
    ensures { (M.view m.new).held ≡ (M.view m.old).held }
{
    let class = Oop(class);
    if !m.live(class) || !is_makeable(class, kind, size) {
        return None;
    }
    let words = words_for(class, kind, size);
    if !m.room(Demand { entries: 1, words }) {
        return None;
    }
    Some(Memory::make(m, class, kind, size, 0).0)
}

/// Holds an object at a place of a register or a device.
pub fn hold<M: Memory>(m: &mut M, place: RootPlace, o: u16) -> bool {
    let o = Oop(o);
    if matches!(place, RootPlace::Pending(_)) || !m.live(o) {
        return false;
    }
    m.hold(place, o);
    true
}

/// Exchanges what two pointers name.
pub fn exchange<M: Memory>(m: &mut M, a: u16, b: u16) -> bool {
    if !m.live(Oop(a)) || !m.live(Oop(b)) {
        return false;
    }
    m.swap(Oop(a), Oop(b));
    true
}

/// Stores into a field of an object of kind Pointers.
pub fn write<M: Memory>(m: &mut M, o: u16, at: u32, v: u16) -> bool
    ensures { (M.view m.new).held ≡ (M.view m.old).held }
{
    let o = Oop(o);
    let v = Oop(v);
    if !v.is_small() && !m.live(v) {
        return false;
    }
    if m.live(o) && m.kind(o).is_pointers() && at < m.size(o) {
        m.set_pointer(o, at, v);
        return true;
    }
    false
}

/// Stores these into the first fields of an object of kind Pointers.
pub fn write_first<M: Memory>(m: &mut M, o: u16, values: &[u16]) -> bool
    ensures { (M.view m.new).held ≡ (M.view m.old).held }
{
    let mut at = 0u32;
    for v in values {
        if !write(m, o, at, *v) {
            return false;
        }
        at = at.wrapping_add(1);
    }
    true
}

/// Whether this is in a field of an object of kind Pointers.
pub fn is_field<M: Memory>(m: &M, o: u16, at: u32, field: u16) -> bool {
    let object = Oop(o);
    m.live(object)
        && m.kind(object).is_pointers()
        && at < m.size(object)
        && m.pointer(object, at).0 == field
}

/// Whether the first fields of an object of kind Pointers are these, and all further ones nil.
pub fn are_first<M: Memory>(m: &M, o: u16, values: &[u16]) -> bool {
    if !m.live(Oop(o)) {
        return false;
    }
    for at in 0..m.size(Oop(o)) {
        let wanted = values.get(at as usize).copied().unwrap_or(Oop::NIL.0);
        if !is_field(m, o, at, wanted) {
            return false;
        }
    }
    true
}

pub fn are_used<M: Memory>(m: &M, entries: u32, words: u32) -> bool {
    m.used() == Demand { entries, words }
}

/// The method that is remembered for a selector in a class.
pub fn remembered<M: Memory>(m: &M, class: Oop, selector: Oop) -> Option<Oop> {
    live_value(
        m,
        Objects::remembered(m, Word::from(class), Word::from(selector))?,
    )
}

/// What the search finds. A method is remembered.
pub fn find_and_remember<M: Memory>(
    m: &mut M,
    class: Oop,
    selector: Oop,
) -> Result<Option<Oop>, Dead> {
    match find(m, class, selector)? {
        Some(method) => {
            m.remember(class, selector, method);
            Ok(Some(method))
        }
        None => Ok(None),
    }
}
