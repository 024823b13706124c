//! Names of an image compared with each other.

ghost use Rattle.std.specs.Prelude.{◌≡◌, bytes_eq};
ghost use Rattle.st_model.specs.Values.{value};
ghost use Rattle.st_scope.specs.{Tables.is_text, Texts.text_at};
ghost use Rattle.st_browse.specs.{Naming.compared, inside.Entries.{IsName, name_of}};

use crate::fields::is_name;
use st_memory::Memory;
use st_model::Oop;
use st_scope::is_text;
use std::cmp::Ordering;

/// How two names stand to each other by their bytes.
pub fn compare<M: Memory>(m: &M, a: Oop, b: Oop) -> Ordering
    requires first { IsName (M.view m.now).objects (value a) }
    requires second { IsName (M.view m.now).objects (value b) }
    ensures { let t = (M.view m.now).objects in result ≡ compared (name_of t a) (name_of t b) }
{
    let (first, second) = (m.size(a), m.size(b));
    let both = first.min(second);
    for i in 0..both {
        let (x, y) = (m.byte(a, i), m.byte(b, i));
        if x < y {
            return Ordering::Less;
        }
        if y < x {
            return Ordering::Greater;
        }
    }
    if first < second {
        Ordering::Less
    } else if second < first {
        Ordering::Greater
    } else {
        Ordering::Equal
    }
}

/// Whether an object is of kind Bytes and has the bytes of this name.
#[tactic(auto, using(crate::proofs::Bytewise::same_bytes))]
pub fn is_same<M: Memory>(m: &M, name: Oop, o: Oop) -> bool
    requires { IsName (M.view m.now).objects (value name) }
    ensures { let t = (M.view m.now).objects in result ≡ is_text (name_of t name) (text_at t (value o)) }
{
    if !is_name(m, o) {
        return false;
    }
    match compare(m, o, name) {
        Ordering::Equal => true,
        Ordering::Less | Ordering::Greater => false,
    }
}

/// Whether a name has these bytes.
#[tactic(auto, using(crate::proofs::Bytewise::same_bytes), unfolding(st_scope::specs::Texts::text_at))]
pub fn has_text<M: Memory>(m: &M, name: Oop, text: &[u8]) -> bool
    requires { IsName (M.view m.now).objects (value name) }
    ensures { result ≡ bytes_eq (name_of (M.view m.now).objects name) text.now }
{
    is_text(m, name, text)
}
