ghost use Rattle.std.specs.Prelude.{◌≡◌, None};
ghost use Rattle.st_model.specs.{Machine.State, Births.Births, Show.Shows, Text.state_text};
ghost use Rattle.st_frames.specs.inside.Shown.{IsReady};
ghost use Rattle.st_call.specs.inside.Saying.{Pushes};
ghost use Rattle.st_session.specs.{inside.Standing.{MayRun, shown_by}, Reports.{text_of, run_text}};

use crate::running::push_run;
use st_call::{Output, Pushed, push_state};
use st_host::Host;
use st_machine::Machine;
use st_memory::Memory;

/// Adds what a machine shows, where it isn't dead.
fn push_shown<H: Host, M: Memory>(out: &mut Output, host: &mut H, machine: &Machine<M>) -> Pushed
    requires may_run { MayRun M.view machine.now }
    ensures { let text = text_of state_text machine.now.death (shown_by M.view machine.now) in
        Pushes H.Host.own text host.old host.new out.old out.new result }
{
    match machine.death() {
        Some(_cause) => Ok(()),
        None => push_state(
            out,
            host,
            machine.memory(),
            &machine.frame(),
            machine.world(),
        ),
    }
}

/// Runs cycles of a machine that isn't dead, up to those that end the run, and adds what is said of them: each line of bytes
/// at its place, the run's end, and what the machine shows then.
pub(crate) fn push_report<H: Host, M: Memory>(
    out: &mut Output,
    host: &mut H,
    machine: &mut Machine<M>,
    cycles: u32,
) -> Pushed
    requires ready { IsReady (M.view machine.old.memory) machine.old.frame machine.old.world }
    requires alive { machine.old.death ≡ None }
    ensures { (s : State Births) → Shows (shown_by M.view machine.old) s →
        Pushes H.Host.own (run_text state_text cycles s) host.old host.new out.old out.new result }
{
    push_run(out, host, machine, cycles)?;
    push_shown(out, host, machine)
}
