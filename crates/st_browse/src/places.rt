//! What the places name at which names stand.

ghost use Rattle.std.specs.Prelude.{◌≡◌, ◌≤◌, IfSome};
ghost use Rattle.st_model.specs.Values.{value};
ghost use Rattle.st_browse.specs.Naming.{first_named};
ghost use Rattle.st_browse.specs.inside.Listing.{first, if_named, is_left, lesser, next_in_order, taken};
ghost use Rattle.st_browse.specs.inside.Entries.{IsName, count_of, name_at, name_if, named_if, named_of, names_in};

use crate::classes::global_at;
use crate::comparing::{compare, has_text};
use crate::methods::method_at;
use crate::named::Named;
use crate::names::Names;
use st_memory::Memory;
use st_model::Oop;
use std::cmp::Ordering;

/// How many places there are.
pub fn count_of(names: Names) -> u32
    ensures { result ≡ count_of names }
{
    match names {
        Names::Nowhere => 0,
        Names::Globals(_, count) => count,
        Names::Methods(dictionary) => dictionary.places,
    }
}

/// What place i names.
fn name_at<M: Memory>(m: &M, names: Names, i: u32) -> Option<Named>
    requires { i ≤ 131066 }
    ensures named { let t = (M.view m.now).objects in named_if t result ≡ name_at t names i }
    ensures name { IfSome result (λ n. IsName (M.view m.now).objects (value n.name)) }
{
    match names {
        Names::Nowhere => None,
        Names::Globals(globals, _) => global_at(m, globals, i),
        Names::Methods(dictionary) => method_at(m, dictionary, i),
    }
}

/// Whether a name stands behind another, if there is one.
fn is_left<M: Memory>(m: &M, after: Option<Oop>, n: Named) -> bool
    requires after { IfSome after (λ a. IsName (M.view m.now).objects (value a)) }
    requires name { IsName (M.view m.now).objects (value n.name) }
    ensures { let t = (M.view m.now).objects in result ≡ is_left (name_if t after) (named_of t n) }
{
    match after {
        None => true,
        Some(a) => match compare(m, a, n.name) {
            Ordering::Less => true,
            Ordering::Equal | Ordering::Greater => false,
        },
    }
}

/// The lesser of two names, if there are two, and the first of two that are the same.
fn lesser<M: Memory>(m: &M, n: Named, best: Option<Named>) -> Named
    requires name { IsName (M.view m.now).objects (value n.name) }
    requires best { IfSome best (λ b. IsName (M.view m.now).objects (value b.name)) }
    ensures lesser { let t = (M.view m.now).objects in
        named_of t result ≡ lesser (named_of t n) (named_if t best) }
    ensures name { IsName (M.view m.now).objects (value result.name) }
{
    match best {
        None => n,
        Some(b) => match compare(m, n.name, b.name) {
            Ordering::Less | Ordering::Equal => n,
            Ordering::Greater => b,
        },
    }
}

/// The lesser of what place i names, where that is left, and of another.
fn taken<M: Memory>(
    m: &M,
    names: Names,
    i: u32,
    after: Option<Oop>,
    best: Option<Named>,
) -> Option<Named>
    requires place { i ≤ 131066 }
    requires after { IfSome after (λ a. IsName (M.view m.now).objects (value a)) }
    requires best { IfSome best (λ b. IsName (M.view m.now).objects (value b.name)) }
    ensures taken { let t = (M.view m.now).objects in
        named_if t result ≡ taken (name_if t after) (name_at t names i) (named_if t best) }
    ensures name { IfSome result (λ n. IsName (M.view m.now).objects (value n.name)) }
{
    match name_at(m, names, i) {
        None => best,
        Some(n) => {
            if is_left(m, after, n) {
                Some(lesser(m, n, best))
            } else {
                best
            }
        }
    }
}

/// The first name, in the order of bytes, behind another or of all.
pub fn next_name<M: Memory>(m: &M, names: Names, after: Option<Oop>) -> Option<Named>
    requires few { count_of names ≤ 131066 }
    requires after { IfSome after (λ a. IsName (M.view m.now).objects (value a)) }
    ensures next { let t = (M.view m.now).objects in
        named_if t result ≡ first (next_in_order (name_if t after) (names_in t names)) }
    ensures name { IfSome result (λ n. IsName (M.view m.now).objects (value n.name)) }
{
    let mut best = None;
    let mut left = count_of(names);
    while left > 0 {
        left -= 1;
        best = taken(m, names, left, after, best);
    }
    best
}

/// What place i names, where this is its name.
fn named_so<M: Memory>(m: &M, names: Names, i: u32, text: &[u8]) -> Option<Named>
    requires { i ≤ 131066 }
    ensures named { let t = (M.view m.now).objects in
        named_if t result ≡ if_named text.now (name_at t names i) }
    ensures name { IfSome result (λ n. IsName (M.view m.now).objects (value n.name)) }
{
    let n = name_at(m, names, i)?;
    if has_text(m, n.name, text) {
        Some(n)
    } else {
        None
    }
}

/// What this text names, by the first place of this name.
pub fn first_named<M: Memory>(m: &M, names: Names, text: &[u8]) -> Option<Named>
    requires few { count_of names ≤ 131066 }
    ensures named { let t = (M.view m.now).objects in
        named_if t result ≡ first_named text.now (names_in t names) }
    ensures name { IfSome result (λ n. IsName (M.view m.now).objects (value n.name)) }
{
    for i in 0..count_of(names) {
        if let Some(n) = named_so(m, names, i, text) {
            return Some(n);
        }
    }
    None
}
