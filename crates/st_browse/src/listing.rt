//! Names one after the other, in the order of their bytes: how many there are, and a line for each.

ghost use Rattle.std.specs.{Prelude.{◌≡◌, ◌≤◌, ◌∷◌, [], length}, List.filter};
ghost use Rattle.st_model.specs.Values.{value};
ghost use Rattle.st_call.specs.inside.Saying.{Pushes};
ghost use Rattle.st_browse.specs.inside.Listing.{is_chosen, lines_text, listed};
ghost use Rattle.st_browse.specs.inside.Entries.{IsLine, IsName, count_of, named_of};

use crate::choice::Choice;
use crate::classes::is_class;
use crate::line::{Line, push_line_of};
use crate::named::Named;
use crate::names::Names;
use crate::places::next_name;
use crate::sending::sends;
use st_call::{Output, Pushed};
use st_host::Host;
use st_memory::Memory;

/// Whether a name is chosen.
fn is_chosen<M: Memory>(m: &M, choice: Choice<'_>, n: Named) -> bool
    requires { IsName (M.view m.now).objects (value n.name) }
    ensures { let t = (M.view m.now).objects in result ≡ is_chosen t choice.entry (named_of t n) }
{
    match choice {
        Choice::Every => true,
        Choice::Classes => is_class(m, n),
        Choice::Senders(selector) => sends(m, n.value, selector),
    }
}

/// 1 where a name is chosen, else 0.
fn count_chosen<M: Memory>(m: &M, choice: Choice<'_>, n: Named) -> u32
    requires { IsName (M.view m.now).objects (value n.name) }
    ensures count { let t = (M.view m.now).objects in
        result ≡ length (filter (is_chosen t choice.entry) (named_of t n ∷ [])) }
    ensures few { result ≤ 1 }
{
    if is_chosen(m, choice, n) { 1 } else { 0 }
}

/// How many names are chosen. It takes a pass over all places for each name.
pub fn count_listed<M: Memory>(m: &M, names: Names, choice: Choice<'_>) -> u32
    requires { count_of names ≤ 131066 }
    ensures count { let t = (M.view m.now).objects in result ≡ length (listed t names choice.entry) }
    ensures few { result ≤ count_of names }
{
    let mut after = None;
    let mut count = 0;
    while let Some(n) = next_name(m, names, after) {
        count += count_chosen(m, choice, n);
        after = Some(n.name);
    }
    count
}

/// Adds the line of a name, where it is chosen.
fn push_chosen<H: Host, M: Memory>(
    out: &mut Output,
    host: &mut H,
    m: &M,
    choice: Choice<'_>,
    line: Line,
    n: Named,
) -> Pushed
    requires name { IsName (M.view m.now).objects (value n.name) }
    requires class { IsLine (M.view m.now).objects line }
    ensures { let t = (M.view m.now).objects in
        let chosen = filter (is_chosen t choice.entry) (named_of t n ∷ []) in
        Pushes H.Host.own (lines_text t line chosen) host.old host.new out.old out.new result }
{
    if is_chosen(m, choice, n) {
        push_line_of(out, host, m, line, n.name)
    } else {
        Ok(())
    }
}

/// Adds the lines of the names that are chosen, in order. It takes a pass over all places for each name.
pub fn push_listed<H: Host, M: Memory>(
    out: &mut Output,
    host: &mut H,
    m: &M,
    names: Names,
    choice: Choice<'_>,
    line: Line,
) -> Pushed
    requires few { count_of names ≤ 131066 }
    requires class { IsLine (M.view m.now).objects line }
    ensures { let t = (M.view m.now).objects in
        let text = lines_text t line (listed t names choice.entry) in
        Pushes H.Host.own text host.old host.new out.old out.new result }
{
    let mut after = None;
    while let Some(n) = next_name(m, names, after) {
        push_chosen(out, host, m, choice, line, n)?;
        after = Some(n.name);
    }
    Ok(())
}
