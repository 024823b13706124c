//! The command `drill`.

ghost use Rattle.std.specs.Prelude.{◌≡◌, ℕ, List, IfOk, IfErr, None};
ghost use Rattle.st_host.specs.Runs.{ReadsAndSays};
ghost use Rattle.st_model.specs.{Machine.State, Births.Births, Show.Shows};
ghost use Rattle.st_frames.specs.inside.Shown.{IsReady};
ghost use Rattle.st_call.specs.inside.Saying.{Pushes};
ghost use Rattle.st_protocol.specs.Statuses.{StatusHasCause};
ghost use Rattle.st_session.specs.Drills.{BeginsDrill, IsNoDrill, DrillEnds, drill_said, use_text};
ghost use Rattle.st_session.specs.{Makings.contents_in, inside.Reporting.Reports, Reports.text_of, inside.Standing.shown_by};

use crate::building::kernel_status;
use crate::making::{Origin, push_made};
use crate::running::push_run;
use st_call::{Output, Pushed, push_used, report_status};
use st_frames::{Loaded, World, fetch_scheduled};
use st_host::{Host, SayFault};
use st_kernel::{KernelFault, build, drill_text};
use st_machine::Machine;
use st_memory::{Loader, Memory};
use st_protocol::Status;
use std::alloc::Global;

/// How many cycles of a drill are run.
const CYCLES: u32 = 1_000_000;

/// A machine at the start of the image that the kernel text of the drill of this number builds.
fn boot_drill<L: Loader>(alloc: Global, number: u32) -> Result<Machine<L::Done>, KernelFault>
    ensures begins { IfOk result (λ m.
        BeginsDrill number (contents_in (L.Done.view m.memory)) (shown_by L.Done.view m)) }
    ensures ready { IfOk result (λ m. IsReady (L.Done.view m.memory) m.frame m.world) }
    ensures alive { IfOk result (λ m. m.death ≡ None) }
    ensures refused { IfErr result (IsNoDrill number) }
{
    let text = drill_text(alloc, number)?;
    let mut memory = build::<L>(alloc, &text)?;
    let Ok(frame) = fetch_scheduled(&mut memory) else {
        unreachable!()
    };
    let world = World::new(alloc)?;
    Ok(Machine::boot(Loaded { memory, frame }, world))
}

/// Adds how many objects and words a machine has, where it isn't dead.
fn push_use<H: Host, M: Memory>(out: &mut Output, host: &mut H, machine: &Machine<M>) -> Pushed
    ensures { let text = text_of use_text machine.now.death (shown_by M.view machine.now) in
        Pushes H.Host.own text host.old host.new out.old out.new result }
{
    match machine.death() {
        Some(_cause) => Ok(()),
        None => push_used(out, host, machine.memory()),
    }
}

/// Runs the cycles of a drill, and adds how many objects and words its image has, what is said of the cycles, and how many objects and
/// words there are then.
fn push_drill<H: Host, M: Memory>(
    out: &mut Output,
    host: &mut H,
    machine: &mut Machine<M>,
) -> Pushed
    requires ready { IsReady (M.view machine.old.memory) machine.old.frame machine.old.world }
    requires alive { machine.old.death ≡ None }
    ensures { let image = contents_in (M.view machine.old.memory) in
        (s : State Births) → Shows (shown_by M.view machine.old) s →
        Pushes H.Host.own (drill_said image s) host.old host.new out.old out.new result }
{
    push_made(out, host, Origin::Kernel, machine.memory())?;
    push_run(out, host, machine, CYCLES)?;
    push_use(out, host, machine)
}

/// Runs the cycles of a drill, and says what is said of it.
fn say_drill<H: Host, M: Memory>(host: &mut H, machine: &mut Machine<M>) -> Result<(), SayFault>
    requires ready { IsReady (M.view machine.old.memory) machine.old.frame machine.old.world }
    requires alive { machine.old.death ≡ None }
    ensures { Reports H.Host.own (drill_said (contents_in (M.view machine.old.memory)))
        (shown_by M.view machine.old) host.old host.new result }
{
    let mut out = Output::new();
    push_drill(&mut out, host, machine)?;
    out.finish(host)
}

/// The command `drill`: builds the image of the kernel text that a number gives, in memory, runs a million cycles of its machine, and
/// says how many objects and words there are before and behind them. No file is touched.
pub fn drill<H: Host, L: Loader>(alloc: Global, host: &mut H, number: u32) -> Status
    ensures ends { DrillEnds H.Host.own number host.old host.new result }
    ensures cause { StatusHasCause H.Host.own ⊥ host.old host.new result }
    ensures says { (text : List ℕ) × ReadsAndSays H.Host.own text host.old host.new }
{
    match boot_drill::<L>(alloc, number) {
        Ok(mut machine) => match say_drill(host, &mut machine) {
            Ok(()) => Status::Done,
            Err(SayFault) => Status::SayFault,
        },
        Err(fault) => {
            let status = kernel_status(fault);
            report_status(host, status);
            status
        }
    }
}
