//! The methods of a class.

ghost use Rattle.std.specs.Prelude.{◌≡◌, ◌≤◌, IfSome, option_and_then};
ghost use Rattle.st_model.specs.Values.{value};
ghost use Rattle.st_scope.specs.{Shapes.is_power_of_two, Texts.found};
ghost use Rattle.st_browse.specs.Fields.{field_at};
ghost use Rattle.st_browse.specs.Methods.{as_dictionary, dictionary_of, if_method, method_at, methods_in};
ghost use Rattle.st_browse.specs.inside.Entries.{IsName, count_of, dictionary_if, dictionary_read, named_if, names_in};

use crate::dictionary::Dictionary;
use crate::fields::{count_fields, field_at, named};
use crate::named::Named;
use crate::names::Names;
use st_memory::Memory;
use st_model::{Kind, Oop};

/// Whether a number is a power of two.
fn is_power_of_two(n: u32) -> bool
    ensures { result ≡ is_power_of_two n }
{
    n > 0 && n & (n - 1) == 0
}

/// The dictionary of these selectors, where it has the form: a tally, as many places as a power of two, and a method for each.
#[tactic(auto, unfolding(crate::specs::Methods::formed))]
fn as_dictionary<M: Memory>(m: &M, selectors: Oop) -> Option<Dictionary>
    ensures dictionary { let t = (M.view m.now).objects in
        dictionary_if result ≡ as_dictionary t (value selectors) }
    ensures few { IfSome result (λ d. d.places ≤ 131066) }
{
    let tally = field_at(m, selectors, 0)?;
    let methods = field_at(m, selectors, 1)?;
    let places = count_fields(m, selectors).saturating_sub(2);
    if tally.is_small() && is_power_of_two(places) && places <= count_fields(m, methods) {
        Some(Dictionary {
            selectors,
            methods,
            places,
        })
    } else {
        None
    }
}

/// The dictionary of a class, where it has the form.
#[tactic(auto, unfolding(crate::specs::Methods::dictionary_of))]
fn dictionary_of<M: Memory>(m: &M, class: Oop) -> Option<Dictionary>
    ensures dictionary { let t = (M.view m.now).objects in
        dictionary_if result ≡ dictionary_of t (value class) }
    ensures few { IfSome result (λ d. d.places ≤ 131066) }
{
    as_dictionary(m, field_at(m, class, 1)?)
}

/// The methods of a class.
#[tactic(auto, unfolding(crate::specs::Methods::methods_in))]
pub fn methods_of<M: Memory>(m: &M, class: Oop) -> Names
    ensures methods { let t = (M.view m.now).objects in
        names_in t result ≡ methods_in t (dictionary_of t (value class)) }
    ensures few { count_of result ≤ 131066 }
{
    match dictionary_of(m, class) {
        Some(dictionary) => Names::Methods(dictionary),
        None => Names::Nowhere,
    }
}

/// An object of kind Method, or none.
#[tactic(auto, unfolding(crate::specs::Methods::if_method))]
fn if_method<M: Memory>(m: &M, v: Oop) -> Option<Oop>
    ensures { let t = (M.view m.now).objects in found result ≡ if_method t (value v) }
{
    if !m.live(v) {
        return None;
    }
    match m.kind(v) {
        Kind::Method => Some(v),
        Kind::Pointers | Kind::Words | Kind::Bytes => None,
    }
}

/// What stands at place i of a dictionary, where it is a method.
#[tactic(auto, unfolding(crate::specs::Methods::method_at))]
fn stored_at<M: Memory>(m: &M, d: Dictionary, i: u32) -> Option<Oop>
    ensures { let t = (M.view m.now).objects in
        found result ≡ option_and_then (if_method t) (field_at t (value d.methods) i) }
{
    if_method(m, field_at(m, d.methods, i)?)
}

/// The method at place i of a dictionary.
#[tactic(auto, unfolding(crate::specs::Methods::method_at))]
pub fn method_at<M: Memory>(m: &M, d: Dictionary, i: u32) -> Option<Named>
    requires { i ≤ 131066 }
    ensures method { let t = (M.view m.now).objects in
        named_if t result ≡ method_at t (dictionary_read d) i }
    ensures name { IfSome result (λ n. IsName (M.view m.now).objects (value n.name)) }
{
    named(m, field_at(m, d.selectors, 2 + i), stored_at(m, d, i))
}
