//! The lines of what was found.

ghost use Rattle.std.specs.Prelude.{◌≡◌, ◌≤◌, ◌++◌, ℕ, List, Option, option_map, length, OnOk, IfErr, IsErrOf};
ghost use Rattle.std.specs.List.{filter};
ghost use Rattle.st_model.specs.{Values.value, View.object_of};
ghost use Rattle.st_host.specs.{Counts.HasCause, Runs.SaysAll, inside.Telling.Says};
ghost use Rattle.st_call.specs.inside.Saying.{Pushes};
ghost use Rattle.st_chunk.specs.Asks.{Source, ask_of, side_of};
ghost use Rattle.st_browse.specs.{Naming.in_order, Classes.is_class, inside.Listing.{lines_text, listed}};
ghost use Rattle.st_browse.specs.Replies.{bytecodes_text, count_text, senders_text};
ghost use Rattle.st_browse.specs.{inside.Answering.Answers, Asked.{IsTextFor, reply}, inside.Questions.{question, side_meant}};
ghost use Rattle.st_browse.specs.declared.saying.BrowseFault.TheVariants.{Say};
ghost use Rattle.st_browse.specs.declared.saying.SourceFault.TheVariants.{OutOfMemory as NoMemory};
ghost use Rattle.st_browse.specs.{inside.MadeTexts.{IsMade, IsShown}, inside.SourceFaults.HasSourceCause};
ghost use Rattle.st_browse.specs.inside.Entries.{IsBody, IsLine, count_of, names_in};
ghost use Rattle.st_browse.specs.inside.Founds.{IsSought, sought_text};

use crate::ask::{Ask, Side};
use crate::choice::Choice;
use crate::codes::{Body, count_codes, push_codes};
use crate::decompiling::decompiled;
use crate::display::push_form;
use crate::line::Line;
use crate::listing::{count_listed, push_listed};
use crate::names::Names;
use crate::senders::{count_senders, push_senders};
use crate::sought::{Sought, seek};
use crate::source::push_source;
use st_call::{Output, Pushed, push_long_line, push_object};
use st_changes::Changes;
use st_chunk::{LentAsk as Asked, LentSide as Lent};
use st_host::{Host, SayFault};
use st_memory::Memory;
use std::alloc::{AllocError, Global};

/// Adds how many names are chosen, and the line of each.
fn push_names<H: Host, M: Memory>(
    out: &mut Output,
    host: &mut H,
    m: &M,
    names: Names,
    choice: Choice<'_>,
    line: Line,
    word: &[u8],
) -> Pushed
    requires few { count_of names ≤ 131066 }
    requires class { IsLine (M.view m.now).objects line }
    ensures { let t = (M.view m.now).objects in let ns = listed t names choice.entry in
        let text = count_text word.now (length ns) ++ lines_text t line ns in
        Pushes H.Host.own text host.old host.new out.old out.new result }
{
    push_long_line(out, host, word, u64::from(count_listed(m, names, choice)))?;
    push_listed(out, host, m, names, choice, line)
}

/// Adds how many bytecodes a method has, and the line of each.
fn push_bytecodes<H: Host, M: Memory>(out: &mut Output, host: &mut H, m: &M, body: Body) -> Pushed
    requires { IsBody (M.view m.now).objects body }
    ensures { let text = bytecodes_text (object_of (M.view m.now).objects (value body.method)) in
        Pushes H.Host.own text host.old host.new out.old out.new result }
{
    push_long_line(out, host, b"bytecodes", u64::from(count_codes(m, body)))?;
    push_codes(out, host, m, body)
}

/// Adds how many senders a selector has, and the line of each.
fn push_all_senders<H: Host, M: Memory>(
    out: &mut Output,
    host: &mut H,
    m: &M,
    globals: Names,
    selector: &[u8],
) -> Pushed
    requires { count_of globals ≤ 131066 }
    ensures { let t = (M.view m.now).objects in
        let classes = filter (is_class t) (in_order (names_in t globals)) in
        Pushes H.Host.own (senders_text t selector.now classes) host.old host.new out.old out.new result }
{
    push_long_line(out, host, b"senders", count_senders(m, globals, selector))?;
    push_senders(out, host, m, globals, selector)
}

/// Adds the lines of what was found.
fn push_sought<H: Host, M: Memory>(
    out: &mut Output,
    host: &mut H,
    m: &M,
    sought: Sought<'_>,
) -> Pushed
    requires { IsSought (M.view m.now).objects sought }
    ensures { let text = sought_text (M.view m.now).objects sought.entry in
        Pushes H.Host.own text host.old host.new out.old out.new result }
{
    match sought {
        Sought::Object(o) => push_object(out, host, m, o),
        Sought::Display(form) => push_form(out, host, m, form),
        Sought::Classes(names) => {
            push_names(
                out,
                host,
                m,
                names,
                Choice::Classes,
                Line::Class,
                b"classes",
            )
        }
        Sought::Methods(names) => {
            push_names(out, host, m, names, Choice::Every, Line::Method, b"methods")
        }
        Sought::Source(text) => push_source(out, host, text),
        Sought::Bytecodes(body) => push_bytecodes(out, host, m, body),
        Sought::Senders(globals, selector) => push_all_senders(out, host, m, globals, selector),
    }
}

/// Says what was found.
fn say_sought<H: Host, M: Memory>(m: &M, sought: Sought<'_>, host: &mut H) -> Pushed
    requires { IsSought (M.view m.now).objects sought }
    ensures all { let text = sought_text (M.view m.now).objects sought.entry in
        OnOk result (SaysAll H.Host.own text host.old host.new) }
    ensures says { let text = sought_text (M.view m.now).objects sought.entry in
        Says H.Host.own text host.old host.new }
    ensures cause { HasCause (H.say_faults host.old) (H.say_faults host.new) result }
{
    let mut out = Output::new();
    push_sought(&mut out, host, m, sought)?;
    out.finish(host)
}

/// The text of the last definition of a class, a side of it and a selector, where a source is asked for.
fn text_for<'a>(changes: &'a Changes, ask: Asked<'_>) -> Option<&'a [u8]>
    ensures { IsTextFor changes.now.listed (ask_of ask.entry) (option_map (λ t. t.now) result) }
{
    match ask {
        Asked::Source(side, selector) => changes.last_text(side.class, side.meta, selector),
        Asked::Object(_)
        | Asked::Display
        | Asked::Classes
        | Asked::Methods(_)
        | Asked::Bytecodes(_, _)
        | Asked::Senders(_)
        | Asked::Until(_, _, _) => None,
    }
}

/// Says what an image answers to what is asked of it, with this text of a method where one is asked for, and whether what is asked for is
/// there.
fn answer<H: Host, M: Memory>(
    m: &M,
    ask: Asked<'_>,
    text: Option<&[u8]>,
    host: &mut H,
) -> Result<bool, SayFault>
    ensures answers { let v = M.view m.now in let text = option_map (λ t. t.now) text.entry in
        Answers H.Host.own (reply v text (ask_of ask.entry)) host.old host.new result }
    ensures cause { HasCause (H.say_faults host.old) (H.say_faults host.new) result }
{
    match seek(m, ask, text) {
        Some(sought) => {
            say_sought(m, sought, host)?;
            Ok(true)
        }
        None => Ok(false),
    }
}

/// Says what an image, whose definitions are kept in this list, answers to what a line asks of it, and whether what is asked for is
/// there: where it is missing, nothing is said. After an error some first bytes of the answer were said, or none or all. It
/// takes no memory, and reads no file; so of a method it knows the text of its last definition alone.
pub fn browse_line<H: Host, M: Memory>(
    m: &M,
    changes: &Changes,
    ask: Asked<'_>,
    host: &mut H,
) -> Result<bool, SayFault>
    ensures answers { (text : Option (List ℕ)) → IsTextFor changes.now.listed (ask_of ask.entry) text
        → Answers H.Host.own (reply (M.view m.now) text (ask_of ask.entry)) host.old host.new result }
    ensures cause { HasCause (H.say_faults host.old) (H.say_faults host.new) result }
{
    answer(m, ask, text_for(changes, ask), host)
}

/// Why an answer wasn't said whole.
#[derive(Clone, Copy, Debug, PartialEq, Eq)]
pub enum BrowseFault {
    /// The disk failed. As no file is read, it never does here.
    Disk,
    /// The output failed.
    Say,
}

/// Says what an image, whose definitions are kept in this list, answers to what is asked of it, and whether what is asked for is
/// there: where it is missing, nothing is said. After an error some first bytes of the answer were said, or none or all. It
/// takes no memory, and reads no file.
pub fn browse<M: Memory, H: Host>(
    m: &M,
    changes: &Changes,
    ask: &Ask,
    host: &mut H,
) -> Result<bool, BrowseFault>
    ensures answers { (text : Option (List ℕ)) → IsTextFor changes.now.listed (question ask.now) text
        → Answers H.Host.own (reply (M.view m.now) text (question ask.now)) host.old host.new result }
    ensures cause { HasCause (H.say_faults host.old) (H.say_faults host.new) result }
    ensures kind { IfErr result (λ fault. fault ≡ Say) }
{
    match browse_line(m, changes, ask.lend(), host) {
        Ok(found) => Ok(found),
        Err(SayFault) => Err(BrowseFault::Say),
    }
}

/// Why the text of a method isn't said.
#[derive(Clone, Copy, Debug, PartialEq, Eq)]
pub enum SourceFault {
    /// The disk failed. As no file is read, it never does here.
    Disk,
    /// The output failed.
    Say,
    /// There was no memory. Nothing is said then.
    OutOfMemory,
}

/// Says this text of a class's method, and whether it is there: where there is none, or class or method is missing, nothing is said.
fn say_text<H: Host, M: Memory>(
    m: &M,
    side: Lent<'_>,
    selector: &[u8],
    text: Option<&[u8]>,
    host: &mut H,
) -> Result<bool, SourceFault>
    ensures answers { let v = M.view m.now in let text = option_map (λ t. t.now) text.entry in
        Answers H.Host.own (reply v text (Source (side_of side.entry) selector.now))
        host.old host.new result }
    ensures cause { HasSourceCause (H.say_faults host.old) (H.say_faults host.new) result }
    ensures ample { IsErrOf result NoMemory → ⊥ }
{
    match answer(m, Asked::Source(side, selector), text, host) {
        Ok(found) => Ok(found),
        Err(SayFault) => Err(SourceFault::Say),
    }
}

/// Says a text that is made of the code of a class's method, and whether there is one.
fn say_made<H: Host, M: Memory>(
    alloc: Global,
    m: &M,
    side: Lent<'_>,
    selector: &[u8],
    host: &mut H,
) -> Result<bool, SourceFault>
    ensures answers { let v = M.view m.now in let side = side_of side.entry in
        (text : Option (List ℕ)) → IsMade v side selector.now text
        → Answers H.Host.own (reply v text (Source side selector.now)) host.old host.new result }
    ensures cause { HasSourceCause (H.say_faults host.old) (H.say_faults host.new) result }
    ensures starved { IsErrOf result NoMemory → host.new ≡ host.old }
{
    match decompiled(alloc, m, side, selector) {
        Ok(Some(text)) => say_text(m, side, selector, Some(&text), host),
        Ok(None) => say_text(m, side, selector, None, host),
        Err(AllocError) => Err(SourceFault::OutOfMemory),
    }
}

/// Says the text of a class's method: that of its last definition in this list, or else one that has its code; and whether there is
/// one: if there is none, or class or method is missing, nothing is said. After an error some first bytes of the answer were said, or
/// none or all. It takes memory if a text has to be made, and reads no file.
pub fn browse_source<M: Memory, H: Host>(
    alloc: Global,
    m: &M,
    changes: &Changes,
    side: &Side,
    selector: &[u8],
    host: &mut H,
) -> Result<bool, SourceFault>
    ensures answers { let v = M.view m.now in let side = side_meant side.now in
        (text : Option (List ℕ)) → IsShown v changes.now.listed side selector.now text
        → Answers H.Host.own (reply v text (Source side selector.now)) host.old host.new result }
    ensures cause { HasSourceCause (H.say_faults host.old) (H.say_faults host.new) result }
    ensures starved { IsErrOf result NoMemory → host.new ≡ host.old }
{
    let side = side.lend();
    match changes.last_text(side.class, side.meta, selector) {
        Some(text) => say_text(m, side, selector, Some(text), host),
        None => say_made(alloc, m, side, selector, host),
    }
}
