//! Fields and names in an image, or nothing where they haven't the form.

ghost use Rattle.std.specs.Prelude.{◌≡◌, ◌≤◌, true, false, Some, None, IfSome};
ghost use Rattle.st_model.specs.{Values.value, View.IsKnown};
ghost use Rattle.st_scope.specs.Texts.{found, text_at};
ghost use Rattle.st_browse.specs.{Fields.{field_at, fields_in, named}, inside.Entries.{IsName, name_of, named_if}};

use crate::named::Named;
use st_memory::Memory;
use st_model::{Kind, Oop};

/// Field i of an object of kind Pointers, where it has one.
#[tactic(auto, unfolding(crate::specs::Fields::field_at))]
pub fn field_at<M: Memory>(m: &M, o: Oop, i: u32) -> Option<Oop>
    ensures field { found result ≡ field_at (M.view m.now).objects (value o) i }
    ensures known { IfSome result (λ x. IsKnown (M.view m.now).objects (value x)) }
{
    if !m.live(o) {
        return None;
    }
    if !m.kind(o).is_pointers() {
        return None;
    }
    if i < m.size(o) {
        Some(m.pointer(o, i))
    } else {
        None
    }
}

/// How many fields an object of kind Pointers has, at most 131066; others have none.
#[tactic(auto, unfolding(crate::specs::Fields::fields_in))]
pub fn count_fields<M: Memory>(m: &M, o: Oop) -> u32
    ensures count { result ≡ fields_in (M.view m.now).objects (value o) }
    ensures few { result ≤ 131066 }
{
    if !m.live(o) {
        return 0;
    }
    if m.kind(o).is_pointers() {
        m.size(o)
    } else {
        0
    }
}

/// Whether an object of kind Bytes is there.
#[tactic(auto, unfolding(st_scope::specs::Texts::text_at))]
pub fn is_name<M: Memory>(m: &M, o: Oop) -> bool
    ensures name { result ≡ true → IsName (M.view m.now).objects (value o) }
    ensures text { let t = (M.view m.now).objects in
        result ≡ true → text_at t (value o) ≡ Some (name_of t o) }
    ensures none { result ≡ false → text_at (M.view m.now).objects (value o) ≡ None }
{
    if !m.live(o) {
        return false;
    }
    match m.kind(o) {
        Kind::Bytes => true,
        Kind::Pointers | Kind::Words | Kind::Method => false,
    }
}

/// What the key names, where it is of kind Bytes.
#[tactic(auto, unfolding(crate::specs::Fields::named))]
pub fn named<M: Memory>(m: &M, key: Option<Oop>, v: Option<Oop>) -> Option<Named>
    ensures named { let t = (M.view m.now).objects in
        named_if t result ≡ named t (found key) (found v) }
    ensures name { IfSome result (λ n. IsName (M.view m.now).objects (value n.name)) }
{
    let key = key?;
    let value = v?;
    if is_name(m, key) {
        Some(Named { name: key, value })
    } else {
        None
    }
}
