//! The lines of names.

ghost use Rattle.std.specs.Prelude.{◌≡◌};
ghost use Rattle.st_model.specs.Values.{value};
ghost use Rattle.st_chunk.specs.Groups.{side_text};
ghost use Rattle.st_call.specs.inside.Saying.{Pushes};
ghost use Rattle.st_browse.specs.{inside.Listing.line_text, Replies.{name_line, sender_line}};
ghost use Rattle.st_browse.specs.inside.Entries.{IsLine, IsName, name_of};

use st_call::{Output, Pushed, push_bytes};
use st_host::Host;
use st_memory::Memory;
use st_model::Oop;

/// What the line of a name says.
#[derive(Clone, Copy)]
pub enum Line {
    /// A class has this name.
    Class,
    /// A method has this selector.
    Method,
    /// A method of this selector is a sender, in the class of a name: on its class side where the mark is set, else on its
    /// instance side.
    Sender(Oop, bool),
}

/// Adds a line of a word and a name.
fn push_name_line<H: Host, M: Memory>(
    out: &mut Output,
    host: &mut H,
    m: &M,
    word: &[u8],
    name: Oop,
) -> Pushed
    requires { IsName (M.view m.now).objects (value name) }
    ensures { let text = name_line word.now (name_of (M.view m.now).objects name) in
        Pushes H.Host.own text host.old host.new out.old out.new result }
{
    out.push(host, word)?;
    push_bytes(out, host, m, name)?;
    out.push(host, b"\n")
}

/// The class side, where it is meant.
fn side_word(meta: bool) -> &'static [u8]
    ensures { result.now ≡ side_text meta }
{
    if meta { b" class" } else { b"" }
}

/// Adds the line of a sender, in a class or on its class side.
fn push_sender_line<H: Host, M: Memory>(
    out: &mut Output,
    host: &mut H,
    m: &M,
    class: Oop,
    meta: bool,
    selector: Oop,
) -> Pushed
    requires class { IsName (M.view m.now).objects (value class) }
    requires selector { IsName (M.view m.now).objects (value selector) }
    ensures { let t = (M.view m.now).objects in
        let text = sender_line (name_of t class) meta (name_of t selector) in
        Pushes H.Host.own text host.old host.new out.old out.new result }
{
    out.push(host, b"sender ")?;
    push_bytes(out, host, m, class)?;
    out.push(host, side_word(meta))?;
    out.push(host, b" ")?;
    push_bytes(out, host, m, selector)?;
    out.push(host, b"\n")
}

/// Adds the line of a name.
pub fn push_line_of<H: Host, M: Memory>(
    out: &mut Output,
    host: &mut H,
    m: &M,
    line: Line,
    name: Oop,
) -> Pushed
    requires class { IsLine (M.view m.now).objects line }
    requires name { IsName (M.view m.now).objects (value name) }
    ensures { let t = (M.view m.now).objects in
        let text = line_text t line (name_of t name) in
        Pushes H.Host.own text host.old host.new out.old out.new result }
{
    match line {
        Line::Class => push_name_line(out, host, m, b"class ", name),
        Line::Method => push_name_line(out, host, m, b"method ", name),
        Line::Sender(class, meta) => push_sender_line(out, host, m, class, meta, name),
    }
}
