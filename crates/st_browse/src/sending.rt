//! Whether a method sends a selector.

ghost use Rattle.std.specs.{Prelude.{◌≡◌, ◌||◌, drop}, List.list_any};
ghost use Rattle.st_model.specs.{Values.value, View.object_of};
ghost use Rattle.st_browse.specs.{Senders.{is_sent, is_symbol, sends}, inside.Entries.IsBody};

use crate::codes::{Body, body_of, has_special};
use st_emit::special_selector;
use st_memory::Memory;
use st_model::Oop;
use st_scope::is_text;

/// The pointer of the class of Symbols.
const SYMBOL_CLASS: u16 = 56;

/// Whether a value is a Symbol of this text.
#[tactic(auto, using(crate::proofs::Symbols::symbols), unfolding(crate::specs::Senders::is_symbol))]
fn is_symbol<M: Memory>(m: &M, v: Oop, text: &[u8]) -> bool
    ensures { result ≡ is_symbol (M.view m.now).objects text.now (value v) }
{
    if !is_text(m, v, text) {
        return false;
    }
    let class = m.class_of(v);
    class.0 == SYMBOL_CLASS
}

/// Whether a Symbol of this text is a literal of a method.
fn has_literal<M: Memory>(m: &M, body: Body, text: &[u8]) -> bool
    requires { IsBody (M.view m.now).objects body }
    ensures { let t = (M.view m.now).objects in
        let literals = drop 1 (object_of t (value body.method)).fields in
        result ≡ list_any (is_symbol t text.now) literals }
{
    for i in 1..body.fields {
        if is_symbol(m, m.pointer(body.method, i), text) {
            return true;
        }
    }
    false
}

/// Whether a special send of a method sends this selector.
#[tactic(auto, unfolding(crate::specs::Senders::is_sent))]
fn is_sent<M: Memory>(m: &M, body: Body, selector: &[u8]) -> bool
    requires { IsBody (M.view m.now).objects body }
    ensures { let units = (object_of (M.view m.now).objects (value body.method)).units in
        result ≡ is_sent selector.now units }
{
    match special_selector(selector) {
        Some(k) => has_special(m, body, k as u32),
        None => false,
    }
}

/// Whether a method has the selector among its literals, or a bytecode that names it.
fn is_sender<M: Memory>(m: &M, body: Body, selector: &[u8]) -> bool
    requires { IsBody (M.view m.now).objects body }
    ensures { let t = (M.view m.now).objects in let o = object_of t (value body.method) in
        result ≡ list_any (is_symbol t selector.now) (drop 1 o.fields) || is_sent selector.now o.units }
{
    has_literal(m, body, selector) || is_sent(m, body, selector)
}

/// Whether a value is a method that sends this selector.
#[tactic(auto, unfolding(crate::specs::Senders::sends))]
pub fn sends<M: Memory>(m: &M, v: Oop, selector: &[u8]) -> bool
    ensures { result ≡ sends (M.view m.now).objects selector.now (value v) }
{
    match body_of(m, v) {
        Some(body) => is_sender(m, body, selector),
        None => false,
    }
}
