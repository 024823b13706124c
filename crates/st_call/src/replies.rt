ghost use Rattle.st_chunk.specs.Groups.{side_text};
ghost use Rattle.st_call.specs.inside.Saying.{Pushes};
ghost use Rattle.st_call.specs.inside.Lines.{reply_text};
ghost use Rattle.st_call.specs.Replies.{accepted_line, refused_text, why_text};
ghost use Rattle.st_call.specs.inside.Telling.{Tells};

use crate::lines::{push_line, push_long_line};
use crate::output::{Output, Pushed};
use st_host::{Host, SayFault};
use st_model::{Dead, Demand};
use st_protocol::{Refusal, Status};

/// A line that a session says, which shows nothing of the machine's objects.
#[derive(Clone, Copy)]
pub enum Reply<'a> {
    /// A snapshot was kept, whose image has so many bytes.
    Snapshot(u64),
    /// An image of so many bytes was exported.
    Exported(u64),
    /// A clean image of so many objects and words was written.
    Cleaned(Demand),
    /// Of so many definitions so many are left.
    Condensed {
        before: u32,
        after: u32,
    },
    /// The machine is dead of this cause; so many cycles of the line are finished.
    Died {
        finished: u32,
        cause: Dead,
    },
    /// A definition of a class, on its class side or not, was accepted, with its selector.
    Accepted {
        class: &'a [u8],
        meta: bool,
        selector: &'a [u8],
    },
    /// A definition was refused.
    Refused(Refusal),
    /// What was asked to be looked at is missing.
    Missing,
}

/// Adds why a definition is refused.
pub fn push_why<H: Host>(out: &mut Output, host: &mut H, why: Refusal) -> Pushed
    ensures { Pushes H.Host.own (why_text why) host.old host.new out.old out.new result }
{
    match why {
        Refusal::Syntax { place, cause } => {
            push_line(out, host, b"syntax", &[place, u32::from(cause)])
        }
        Refusal::Code { place, cause } => push_line(out, host, b"code", &[place, u32::from(cause)]),
        Refusal::NoClass => push_line(out, host, b"install", &[1]),
        Refusal::NoGlobals => push_line(out, host, b"install", &[2]),
        Refusal::NoRoom { demand } => {
            push_line(out, host, b"install", &[3, demand.entries, demand.words])
        }
        Refusal::Shape => push_line(out, host, b"install", &[4]),
    }
}

/// Adds the class side, where it is meant.
fn push_side<H: Host>(out: &mut Output, host: &mut H, meta: bool) -> Pushed
    ensures { Pushes H.Host.own (side_text meta) host.old host.new out.old out.new result }
{
    if meta {
        out.push(host, b" class")
    } else {
        Ok(())
    }
}

/// Adds the line of a definition that is accepted.
fn push_accepted<H: Host>(
    out: &mut Output,
    host: &mut H,
    class: &[u8],
    meta: bool,
    selector: &[u8],
) -> Pushed
    ensures { let text = accepted_line class.now meta selector.now in
        Pushes H.Host.own text host.old host.new out.old out.new result }
{
    out.push(host, b"accepted ")?;
    out.push(host, class)?;
    push_side(out, host, meta)?;
    out.push(host, b" ")?;
    out.push(host, selector)?;
    out.push(host, b"\n")
}

/// Adds the line of a definition that is refused.
fn push_refused<H: Host>(out: &mut Output, host: &mut H, why: Refusal) -> Pushed
    ensures { Pushes H.Host.own (refused_text why) host.old host.new out.old out.new result }
{
    out.push(host, b"refused ")?;
    push_why(out, host, why)
}

/// Adds a line.
fn push_reply<H: Host>(out: &mut Output, host: &mut H, reply: Reply<'_>) -> Pushed
    ensures { Pushes H.Host.own (reply_text reply.entry) host.old host.new out.old out.new result }
{
    match reply {
        Reply::Snapshot(length) => push_long_line(out, host, b"snapshot", length),
        Reply::Exported(length) => push_long_line(out, host, b"exported", length),
        Reply::Cleaned(Demand { entries, words }) => {
            push_line(out, host, b"cleaned", &[entries, words])
        }
        Reply::Condensed { before, after } => {
            push_line(out, host, b"condensed", &[before, after])
        }
        Reply::Died { finished, cause } => {
            push_line(out, host, b"dead", &[finished, u32::from(cause.number())])
        }
        Reply::Accepted {
            class,
            meta,
            selector,
        } => push_accepted(out, host, class, meta, selector),
        Reply::Refused(why) => push_refused(out, host, why),
        Reply::Missing => out.push(host, b"not found\n"),
    }
}

/// Says a line.
pub fn say_reply<H: Host>(host: &mut H, reply: Reply<'_>) -> Result<(), Status>
    ensures { Tells H.Host.own (reply_text reply.entry) host.old host.new result }
{
    let mut out = Output::new();
    match push_reply(&mut out, host, reply) {
        Ok(()) => finish(out, host),
        Err(SayFault) => Err(Status::SayFault),
    }
}

/// Says what is still to be said.
pub fn finish<H: Host>(out: Output, host: &mut H) -> Result<(), Status>
    ensures { Tells H.Host.own out host.old host.new result }
{
    match out.finish(host) {
        Ok(()) => Ok(()),
        Err(SayFault) => Err(Status::SayFault),
    }
}
