//! The senders of a selector in all classes.

ghost use Rattle.std.specs.{Prelude.{◌≡◌, ◌≤◌, ◌+◌, ◌∷◌, [], true, length, sum_by}, List.{filter, flat_map}};
ghost use Rattle.st_model.specs.{Values.value, View.is_live};
ghost use Rattle.st_call.specs.inside.Saying.{Pushes};
ghost use Rattle.st_browse.specs.{Naming.in_order, Classes.{is_class, on_side}, Senders.senders};
ghost use Rattle.st_browse.specs.Replies.{both_lines, senders_count, senders_lines};
ghost use Rattle.st_browse.specs.inside.Entries.{IsName, count_of, named_of, names_in};

use crate::choice::Choice;
use crate::classes::{is_class, on_side};
use crate::line::Line;
use crate::listing::{count_listed, push_listed};
use crate::methods::methods_of;
use crate::named::Named;
use crate::names::Names;
use crate::places::next_name;
use st_call::{Output, Pushed};
use st_host::Host;
use st_memory::Memory;
use st_model::Oop;

/// How many methods on one side of a class send a selector.
fn count_side<M: Memory>(m: &M, class: Oop, meta: bool, selector: &[u8]) -> u32
    requires { is_live (M.view m.now).objects (value class) ≡ true }
    ensures count { let t = (M.view m.now).objects in
        result ≡ length (senders t selector.now (on_side t meta (value class))) }
    ensures few { result ≤ 131066 }
{
    let methods = methods_of(m, on_side(m, class, meta));
    count_listed(m, methods, Choice::Senders(selector))
}

/// How many methods of a class, on both sides, send a selector; none where it is no class.
#[tactic(auto, using(crate::proofs::Summing::one_class, crate::proofs::Sides::sides))]
fn count_class<M: Memory>(m: &M, n: Named, selector: &[u8]) -> u64
    requires { IsName (M.view m.now).objects (value n.name) }
    ensures count { let t = (M.view m.now).objects in
        let classes = filter (is_class t) (named_of t n ∷ []) in
        result ≡ sum_by (senders_count t selector.now) classes }
    ensures few { result ≤ 262132 }
{
    if is_class(m, n) {
        u64::from(count_side(m, n.value, false, selector))
            + u64::from(count_side(m, n.value, true, selector))
    } else {
        0
    }
}

/// How many methods of all classes send a selector.
pub fn count_senders<M: Memory>(m: &M, globals: Names, selector: &[u8]) -> u64
    requires { count_of globals ≤ 131066 }
    ensures { let t = (M.view m.now).objects in
        let classes = filter (is_class t) (in_order (names_in t globals)) in
        result ≡ sum_by (senders_count t selector.now) classes }
{
    let mut after = None;
    let mut count = 0;
    while let Some(n) = next_name(m, globals, after) {
        count += count_class(m, n, selector);
        after = Some(n.name);
    }
    count
}

/// Adds the lines of the methods on one side of a class that send a selector.
fn push_side<H: Host, M: Memory>(
    out: &mut Output,
    host: &mut H,
    m: &M,
    class: Named,
    meta: bool,
    selector: &[u8],
) -> Pushed
    requires name { IsName (M.view m.now).objects (value class.name) }
    requires live { is_live (M.view m.now).objects (value class.value) ≡ true }
    ensures { let t = (M.view m.now).objects in
        let text = senders_lines t selector.now (named_of t class) meta in
        Pushes H.Host.own text host.old host.new out.old out.new result }
{
    let methods = methods_of(m, on_side(m, class.value, meta));
    let line = Line::Sender(class.name, meta);
    push_listed(out, host, m, methods, Choice::Senders(selector), line)
}

/// Adds the lines of the methods on both sides of a class, the instance side first.
fn push_both<H: Host, M: Memory>(
    out: &mut Output,
    host: &mut H,
    m: &M,
    class: Named,
    selector: &[u8],
) -> Pushed
    requires name { IsName (M.view m.now).objects (value class.name) }
    requires live { is_live (M.view m.now).objects (value class.value) ≡ true }
    ensures { let t = (M.view m.now).objects in
        let text = both_lines t selector.now (named_of t class) in
        Pushes H.Host.own text host.old host.new out.old out.new result }
{
    push_side(out, host, m, class, false, selector)?;
    push_side(out, host, m, class, true, selector)
}

/// Adds the lines of a class, where it is one.
fn push_class<H: Host, M: Memory>(
    out: &mut Output,
    host: &mut H,
    m: &M,
    n: Named,
    selector: &[u8],
) -> Pushed
    requires { IsName (M.view m.now).objects (value n.name) }
    ensures { let t = (M.view m.now).objects in
        let classes = filter (is_class t) (named_of t n ∷ []) in
        let text = flat_map (both_lines t selector.now) classes in
        Pushes H.Host.own text host.old host.new out.old out.new result }
{
    if is_class(m, n) {
        push_both(out, host, m, n, selector)
    } else {
        Ok(())
    }
}

/// Adds the lines of the methods of all classes that send a selector.
pub fn push_senders<H: Host, M: Memory>(
    out: &mut Output,
    host: &mut H,
    m: &M,
    globals: Names,
    selector: &[u8],
) -> Pushed
    requires { count_of globals ≤ 131066 }
    ensures { let t = (M.view m.now).objects in
        let classes = filter (is_class t) (in_order (names_in t globals)) in
        let text = flat_map (both_lines t selector.now) classes in
        Pushes H.Host.own text host.old host.new out.old out.new result }
{
    let mut after = None;
    while let Some(n) = next_name(m, globals, after) {
        push_class(out, host, m, n, selector)?;
        after = Some(n.name);
    }
    Ok(())
}
