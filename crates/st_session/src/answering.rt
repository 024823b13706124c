ghost use Rattle.std.specs.Prelude.{◌≡◌, None, Some};
ghost use Rattle.st_host.specs.inside.Telling.{Says};
ghost use Rattle.st_model.specs.{Machine.State, Births.{Births, births}, Events.event, Show.Shows};
ghost use Rattle.st_frames.specs.inside.{Coming.HasPlace, Shown.IsReady};
ghost use Rattle.st_call.specs.{inside.Saying.Pushes, Replies.machine_text};
ghost use Rattle.st_chunk.specs.{Lines.IsInRange, Reading.Place, Scripts.asked_at};
ghost use Rattle.st_install.specs.Defining.{installed};
ghost use Rattle.st_recover.specs.Commits.{Commit};
ghost use Rattle.st_session.specs.{Answers.{answer, event_course, line_course, living_line}, inside.Asking.IsSaying};
ghost use Rattle.st_session.specs.{Keeping.in_a_store, inside.Pushing.PushesCourse};
ghost use Rattle.st_session.specs.inside.Standing.{MayRun, MayGoOn, Serves, StandsAt, shown_by};

use crate::debugging::say_stack;
use crate::kept::SessionState;
use crate::saving::{run, snapshot};
use crate::watch::Watch;
use st_call::{
    Output, Pushed, Reply, finish, push_held, push_input, push_registers, push_used, say_reply,
};
use st_chunk::Request;
use st_host::{Host, SayFault};
use st_machine::Machine;
use st_memory::Memory;
use st_model::{Dead, Event, InputFull};
use st_protocol::Status;

/// Has an event come, and adds whether it did.
fn push_event<H: Host, M: Memory>(
    out: &mut Output,
    host: &mut H,
    machine: &mut Machine<M>,
    e: Event,
) -> Pushed
    requires ready { IsReady (M.view machine.old.memory) machine.old.frame machine.old.world }
    requires alive { machine.old.death ≡ None }
    requires place { HasPlace e }
    ensures may_run { MayRun M.view machine.new }
    ensures pushes { (s : State Births) (c : Commit) → Shows (shown_by M.view machine.old) s
        → PushesCourse H.Host.own (StandsAt M.view machine.new) (event_course s c (event births e s))
        host.old host.new out.old out.new result }
{
    match machine.event(e) {
        Ok(()) => out.push(host, b"ok\n"),
        Err(InputFull) => out.push(host, b"input full\n"),
    }
}

/// Adds the registers, the input state and what is held.
fn push_machine<H: Host, M: Memory>(out: &mut Output, host: &mut H, machine: &Machine<M>) -> Pushed
    requires ready { IsReady (M.view machine.now.memory) machine.now.frame machine.now.world }
    ensures { let text = machine_text (shown_by M.view machine.now) in
        Pushes H.Host.own text host.old host.new out.old out.new result }
{
    push_registers(out, host, machine.memory(), &machine.frame())?;
    push_input(out, host, machine.world())?;
    push_held(out, host, machine.memory())
}

/// Adds what a machine that isn't dead answers to a line that asks for lines alone.
fn push_answer<H: Host, M: Memory>(
    out: &mut Output,
    host: &mut H,
    machine: &mut Machine<M>,
    request: Request,
) -> Pushed
    requires ready { IsReady (M.view machine.old.memory) machine.old.frame machine.old.world }
    requires alive { machine.old.death ≡ None }
    requires range { IsInRange request }
    requires saying { IsSaying request }
    ensures may_run { MayRun M.view machine.new }
    ensures pushes { (s : State Births) (c : Commit) → Shows (shown_by M.view machine.old) s
        → PushesCourse H.Host.own (StandsAt M.view machine.new) (living_line in_a_store s c request)
        host.old host.new out.old out.new result }
{
    match request {
        Request::Input(word) => push_event(out, host, machine, Event::Word(word)),
        Request::Mouse(x, y) => push_event(out, host, machine, Event::Mouse(x, y)),
        Request::Clock(time) => push_event(out, host, machine, Event::Clock(time)),
        Request::Tick(time) => push_event(out, host, machine, Event::Tick(time)),
        Request::State => push_machine(out, host, machine),
        Request::Used => push_used(out, host, machine.memory()),
        Request::Run(_)
        | Request::Trace(_)
        | Request::Stack
        | Request::Snapshot
        | Request::Browse
        | Request::End
        | Request::Define
        | Request::Wrong(_) => Ok(()),
    }
}

/// Says what a machine that isn't dead answers to a line that asks for lines alone.
fn say_answer<H: Host, M: Memory>(
    host: &mut H,
    kept: &mut SessionState<M>,
    request: Request,
) -> Result<(), Status>
    requires go_on { MayGoOn M.view kept.old }
    requires alive { kept.old.machine.death ≡ None }
    requires range { IsInRange request }
    requires saying { IsSaying request }
    ensures { Serves M.view H.Host.own (λ p. line_course in_a_store p.being p.kept request) ⊥
        kept.old host.old result kept.new host.new }
{
    let mut out = Output::new();
    match push_answer(&mut out, host, &mut kept.machine, request) {
        Ok(()) => finish(out, host),
        Err(SayFault) => Err(Status::SayFault),
    }
}

/// Answers a line where the machine isn't dead.
pub(crate) fn answer_living<H: Host, M: Memory>(
    host: &mut H,
    kept: &mut SessionState<M>,
    request: Request,
) -> Result<(), Status>
    requires go_on { MayGoOn M.view kept.old }
    requires alive { kept.old.machine.death ≡ None }
    requires range { IsInRange request }
    ensures { Serves M.view H.Host.own (λ p. line_course in_a_store p.being p.kept request) ⊥
        kept.old host.old result kept.new host.new }
{
    match request {
        Request::End => Err(Status::Done),
        Request::Wrong(line) => Err(Status::Script { line }),
        Request::Browse | Request::Define => Ok(()),
        Request::Run(cycles) => run(host, kept, Watch::Nothing, cycles),
        Request::Trace(cycles) => run(host, kept, Watch::Bytecodes, cycles),
        Request::Stack => say_stack(host, &kept.machine),
        Request::Snapshot => snapshot(host, kept, 0),
        _ => say_answer(host, kept, request),
    }
}

/// Answers what is asked for where the machine is dead, wherever the reader stands.
pub(crate) fn answer_dead<H: Host, M: Memory>(
    host: &mut H,
    kept: &SessionState<M>,
    cause: Dead,
    request: Request,
) -> Result<(), Status>
    requires go_on { MayGoOn M.view kept.now }
    requires dead { kept.now.machine.death ≡ Some cause }
    ensures { (place : Place) → Serves M.view H.Host.own
        (λ p. answer in_a_store installed p (asked_at place request)) ⊥
        kept.now host.old result kept.now host.new }
{
    match request {
        Request::End => Err(Status::Done),
        Request::Wrong(line) => Err(Status::Script { line }),
        _ => say_reply(host, Reply::Died { finished: 0, cause }),
    }
}
