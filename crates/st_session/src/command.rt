ghost use Rattle.std.specs.Prelude.{◌≡◌, ℕ, List, IsTrue, None};
ghost use Rattle.st_host.specs.{Counts.Rose, Files.bytes_of, Runs.ReadsAndSays};
ghost use Rattle.st_model.specs.Text.{state_text};
ghost use Rattle.st_frames.specs.inside.Shown.{IsReady};
ghost use Rattle.st_protocol.specs.Statuses.{StatusHasCause};
ghost use Rattle.st_session.specs.{Commands.OnceEnds, inside.Reporting.Reports, Reports.run_text, inside.Standing.shown_by};
ghost use Rattle.st_session.specs.StoreSessions.{SessionCommandEnds};

use crate::opening_refusal::refuse_opening;
use crate::reading::serve;
use crate::report::push_report;
use crate::starting::start;
use st_call::{Output, report_status};
use st_host::{Host, SayFault, Source};
use st_machine::Machine;
use st_memory::{Loader, Memory};
use st_protocol::Status;
use st_recover::reopen;
use std::alloc::Global;

/// Runs cycles of a machine that was just booted, and says what is said of them, and how they end.
fn run_and_report<H: Host, M: Memory>(
    host: &mut H,
    machine: &mut Machine<M>,
    cycles: u32,
) -> Result<(), SayFault>
    requires ready { IsReady (M.view machine.old.memory) machine.old.frame machine.old.world }
    requires alive { machine.old.death ≡ None }
    ensures { Reports H.Host.own (run_text state_text cycles) (shown_by M.view machine.old)
        host.old host.new result }
{
    let mut out = Output::new();
    push_report(&mut out, host, machine, cycles)?;
    out.finish(host)
}

/// The command `once`: runs cycles of the machine of an image, and says what it shows then.
pub fn once<H: Host, L: Loader>(alloc: Global, host: &mut H, image: &str, cycles: u32) -> Status
    ensures ends { OnceEnds H.Host.own
        (bytes_of (H.files host.old image.now)) cycles host.old host.new result }
    ensures cause { StatusHasCause H.Host.own ⊥ host.old host.new result }
    ensures reads { (text : List ℕ) × ReadsAndSays H.Host.own text host.old host.new }
{
    match start::<H, L>(alloc, host, image) {
        Ok(mut machine) => match run_and_report(host, &mut machine, cycles) {
            Ok(()) => Status::Done,
            Err(SayFault) => Status::SayFault,
        },
        Err(refusal) => {
            let status = refusal.status();
            report_status(host, status);
            status
        }
    }
}

/// The command `session`: opens a store and follows a script over what it holds, and says the last line of the status in which
/// that ends. At each moment a stop leaves files that open as the commits acknowledged by then, or with the one under way.
pub fn session<H: Host, L: Loader, S: Source>(
    alloc: Global,
    host: &mut H,
    script: &mut S,
    store: &str,
) -> Status
    ensures ends { let reads = Rose (S.read_faults script.old) (S.read_faults script.new) in
        SessionCommandEnds H.Host.own store.now (IsTrue S.is_told) reads
        (S.remaining script.old) (S.remaining script.new) host.old host.new result }
    ensures cause { StatusHasCause H.Host.own (Rose (S.read_faults script.old) (S.read_faults script.new))
        host.old host.new result }
{
    match reopen::<L, H>(alloc, host, store) {
        Ok(opened) => {
            let status = serve::<L::Done, H, S>(alloc, host, script, opened);
            report_status(host, status);
            status
        }
        Err(fault) => refuse_opening(host, fault),
    }
}
