//! What a session says first: how many definitions were replayed, and which were lost.

ghost use Rattle.std.specs.{Prelude.{◌<◌, ◌^◌, length}, List.flat_map};
ghost use Rattle.st_call.specs.{inside.Saying.Pushes, inside.Telling.Tells};
ghost use Rattle.st_recover.specs.inside.Replayings.{loss_of, losses_of};
ghost use Rattle.st_session.specs.FirstLines.{lost_text, opening_text};

use st_call::{Output, Pushed, finish, push_line, push_number, push_why};
use st_host::{Host, SayFault};
use st_protocol::Status;
use st_recover::Lost;

/// Adds the line of a definition that was lost when the store was opened.
fn push_lost<H: Host>(out: &mut Output, host: &mut H, lost: &Lost) -> Pushed
    ensures { Pushes H.Host.own (lost_text (loss_of lost.now)) host.old host.new out.old out.new result }
{
    out.push(host, b"lost")?;
    push_number(out, host, lost.number)?;
    out.push(host, b" ")?;
    push_why(out, host, lost.why)
}

/// Adds the lines of definitions that were lost.
fn push_all_lost<H: Host>(out: &mut Output, host: &mut H, lost: &[Lost]) -> Pushed
    ensures { let text = flat_map lost_text (losses_of lost.now) in
        Pushes H.Host.own text host.old host.new out.old out.new result }
{
    for each in lost {
        push_lost(out, host, each)?;
    }
    Ok(())
}

/// Adds how many definitions were replayed and how many lost, and a line for each that was lost.
fn push_opening<H: Host>(out: &mut Output, host: &mut H, replayed: u32, lost: &[Lost]) -> Pushed
    requires few { length lost.now < 2 ^ 32 }
    ensures { let text = opening_text replayed (losses_of lost.now) in
        Pushes H.Host.own text host.old host.new out.old out.new result }
{
    push_line(out, host, b"opened", &[replayed, lost.len() as u32])?;
    push_all_lost(out, host, lost)
}

/// Says how many definitions were replayed and how many lost, and a line for each that was lost.
pub(crate) fn say_opening<H: Host>(host: &mut H, replayed: u32, lost: &[Lost]) -> Result<(), Status>
    requires few { length lost.now < 2 ^ 32 }
    ensures { Tells H.Host.own (opening_text replayed (losses_of lost.now)) host.old host.new result }
{
    let mut out = Output::new();
    match push_opening(&mut out, host, replayed, lost) {
        Ok(()) => finish(out, host),
        Err(SayFault) => Err(Status::SayFault),
    }
}
