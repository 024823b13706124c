//! The classes of an image.

ghost use Rattle.std.specs.Prelude.{◌≡◌, ◌≤◌, true, IfSome};
ghost use Rattle.st_model.specs.Values.{value};
ghost use Rattle.st_model.specs.View.{is_live};
ghost use Rattle.st_browse.specs.Classes.{global_at, globals_in, is_class, member, on_side};
ghost use Rattle.st_browse.specs.inside.Entries.{IsName, count_of, named_if, named_of, names_in};

use crate::comparing::is_same;
use crate::fields::{count_fields, field_at, named};
use crate::named::Named;
use crate::names::Names;
use st_memory::Memory;
use st_model::Oop;

/// A member of a table of names.
#[tactic(auto, unfolding(crate::specs::Classes::member))]
fn member<M: Memory>(m: &M, v: Oop) -> Option<Named>
    ensures member { let t = (M.view m.now).objects in named_if t result ≡ member t (value v) }
    ensures name { IfSome result (λ n. IsName (M.view m.now).objects (value n.name)) }
{
    named(m, field_at(m, v, 0), field_at(m, v, 1))
}

/// What field i of a table of names says, where it is a member.
#[tactic(auto, unfolding(crate::specs::Classes::global_at))]
pub fn global_at<M: Memory>(m: &M, globals: Oop, i: u32) -> Option<Named>
    ensures global { let t = (M.view m.now).objects in
        named_if t result ≡ global_at t (value globals) i }
    ensures name { IfSome result (λ n. IsName (M.view m.now).objects (value n.name)) }
{
    member(m, field_at(m, globals, i)?)
}

/// The globals.
#[tactic(auto, unfolding(crate::specs::Classes::globals_in))]
pub fn globals<M: Memory>(m: &M) -> Names
    ensures globals { let v = M.view m.now in
        names_in v.objects result ≡ globals_in v.objects v.head.globals }
    ensures few { count_of result ≤ 131066 }
{
    let globals = m.globals();
    if globals.0 == 0 {
        Names::Nowhere
    } else {
        Names::Globals(globals, count_fields(m, globals))
    }
}

/// Whether this is a class: an object with 9 fields or more, of which field 6 is the name.
#[tactic(auto, unfolding(crate::specs::Classes::is_class))]
pub fn is_class<M: Memory>(m: &M, n: Named) -> bool
    requires { IsName (M.view m.now).objects (value n.name) }
    ensures { let t = (M.view m.now).objects in result ≡ is_class t (named_of t n) }
{
    if count_fields(m, n.value) < 9 {
        return false;
    }
    match field_at(m, n.value, 6) {
        Some(name) => is_same(m, n.name, name),
        None => false,
    }
}

/// The class itself, or on the class side its own class.
#[tactic(auto, unfolding(crate::specs::Classes::on_side))]
pub fn on_side<M: Memory>(m: &M, class: Oop, meta: bool) -> Oop
    requires { is_live (M.view m.now).objects (value class) ≡ true }
    ensures { value result ≡ on_side (M.view m.now).objects meta (value class) }
{
    if meta { m.class_of(class) } else { class }
}
