//! The making of a store of an image, whatever the image comes from.

ghost use Rattle.std.specs.Prelude.{◌≡◌, OnOk};
ghost use Rattle.st_host.specs.{Counts.HasCause, Runs.SaysAll, inside.Telling.Says};
ghost use Rattle.st_image.specs.inside.Back.{CanStart};
ghost use Rattle.st_call.specs.inside.Saying.{Pushes};
ghost use Rattle.st_protocol.specs.Statuses.{StatusHasCause};
ghost use Rattle.st_session.specs.Makings.{contents_in, made_word, made_text, MakingEnds};

use st_call::{Output, Pushed, push_line, report_status, store_status};
use st_host::{Host, SayFault};
use st_memory::Memory;
use st_protocol::Status;
use st_recover::create;
use std::alloc::Global;

/// What the image of a new store comes from.
#[derive(Clone, Copy)]
pub(crate) enum Origin {
    /// An image file.
    Image,
    /// A kernel text.
    Kernel,
}

impl Origin {
    /// The word that says that the store is made.
    fn word(self) -> &'static [u8]
        ensures { result.now ≡ made_word self }
    {
        match self {
            Origin::Image => b"imported",
            Origin::Kernel => b"built",
        }
    }
}

/// Adds the word of a memory's origin, how many objects it has, and how many words they have.
pub(crate) fn push_made<H: Host, M: Memory>(
    out: &mut Output,
    host: &mut H,
    origin: Origin,
    m: &M,
) -> Pushed
    ensures { let text = made_text origin (contents_in (M.view m.now)) in
        Pushes H.Host.own text host.old host.new out.old out.new result }
{
    let used = m.used();
    push_line(out, host, origin.word(), &[used.entries, used.words])
}

/// Says that a store was made of a memory, how many objects this has, and how many words they have.
fn say_made<H: Host, M: Memory>(host: &mut H, origin: Origin, m: &M) -> Result<(), SayFault>
    ensures all { let text = made_text origin (contents_in (M.view m.now)) in
        OnOk result (SaysAll H.Host.own text host.old host.new) }
    ensures says { let text = made_text origin (contents_in (M.view m.now)) in
        Says H.Host.own text host.old host.new }
    ensures cause { HasCause (H.say_faults host.old) (H.say_faults host.new) result }
{
    let mut out = Output::new();
    push_made(&mut out, host, origin, m)?;
    out.finish(host)
}

/// Makes a store of a memory's image, and says how many objects and words it has. A stop at any moment leaves what could be left
/// before, or, where there was no store, files that are none's, or that open as the new store; once it was said that it is made
/// they do that.
pub(crate) fn make<H: Host, M: Memory>(
    alloc: Global,
    host: &mut H,
    origin: Origin,
    m: &M,
    store: &str,
) -> Status
    requires starts { CanStart (M.view m.now) }
    ensures ends { MakingEnds H.Host.own origin (λ c. c ≡ contents_in (M.view m.now)) (λ _. ⊥) store.now
        host.old host.new result }
    ensures cause { StatusHasCause H.Host.own ⊥ host.old host.new result }
{
    match create(alloc, host, store, m) {
        Ok(_store) => match say_made(host, origin, m) {
            Ok(()) => Status::Done,
            Err(SayFault) => Status::SayFault,
        },
        Err(fault) => {
            let status = store_status(fault);
            report_status(host, status);
            status
        }
    }
}
