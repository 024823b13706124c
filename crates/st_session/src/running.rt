ghost use Rattle.std.specs.Prelude.{◌≡◌, ◌-◌, ◌≤◌, ◌<◌, None, IfOk, IfSome};
ghost use Rattle.st_model.specs.{Machine.State, Births.Births, Show.Shows};
ghost use Rattle.st_frames.specs.inside.Shown.{IsReady};
ghost use Rattle.st_call.specs.inside.Saying.{Pushes};
ghost use Rattle.st_session.specs.{Answers.run_course, Keeping.keeps_nothing, inside.Pushing.PushesCourse};
ghost use Rattle.st_session.specs.{inside.Runs.end_text, inside.Standing.{MayRun, StandsAt, shown_by}};
ghost use Rattle.st_session.specs.inside.Stretches.{PushesStretch, stretch};

use st_call::{Output, Pushed, push_line, say_at_once};
use st_host::{Host, SayFault};
use st_machine::{Machine, RunEnd};
use st_memory::Memory;

/// Adds the line of a run's end, where so many cycles are finished in all. A snapshot has none, and what is said
/// neither.
pub(crate) fn push_end<H: Host>(
    out: &mut Output,
    host: &mut H,
    finished: u32,
    end: RunEnd,
) -> Pushed
    ensures { Pushes H.Host.own (end_text finished end) host.old host.new out.old out.new result }
{
    match end {
        RunEnd::Ran => push_line(out, host, b"ran", &[finished]),
        RunEnd::Space {
            done: _,
            demand,
            entries_left,
            words_left,
        } => {
            let numbers = [
                finished,
                demand.entries,
                demand.words,
                entries_left,
                words_left,
            ];
            push_line(out, host, b"space", &numbers)
        }
        RunEnd::Quit { .. } => push_line(out, host, b"quit", &[finished]),
        RunEnd::Debugger { .. } => push_line(out, host, b"debugger", &[finished]),
        RunEnd::Dead { done: _, cause } => {
            push_line(out, host, b"dead", &[finished, u32::from(cause.number())])
        }
        RunEnd::Snapshot { .. } | RunEnd::Say { .. } => Ok(()),
    }
}

/// Runs on, where so many of a line's cycles are finished, and adds what is said of it: each line of bytes at its place, which is
/// said before the next cycle, and the run's end. Where a bytecode asks for a snapshot it stops, and answers how many are finished with it.
pub(crate) fn push_stretch<H: Host, M: Memory>(
    out: &mut Output,
    host: &mut H,
    machine: &mut Machine<M>,
    finished: u32,
    cycles: u32,
) -> Result<Option<u32>, SayFault>
    requires ready { IsReady (M.view machine.old.memory) machine.old.frame machine.old.world }
    requires alive { machine.old.death ≡ None }
    requires few { finished ≤ cycles }
    ensures may_run { MayRun M.view machine.new }
    ensures alive { IfOk result (λ asked. IfSome asked (λ n. machine.new.death ≡ None)) }
    ensures later { IfOk result (λ asked. IfSome asked (λ n. (finished < n) × (n ≤ cycles))) }
    ensures pushes { (s : State Births) → Shows (shown_by M.view machine.old) s
        → PushesStretch H.Host.own machine.new.death (shown_by M.view machine.new)
        (stretch finished (cycles - finished) s)
        host.old host.new out.old out.new result }
{
    let mut finished = finished;
    'cycles: loop {
        let left = cycles - finished;
        let end = machine.run(left);
        finished += end.finished(left);
        match end {
            RunEnd::Snapshot { .. } => return Ok(Some(finished)),
            RunEnd::Say { object, .. } => match say_at_once(out, host, machine.memory(), object) {
                Ok(()) => {}
                Err(SayFault) => return Err(SayFault),
            },
            _ => {
                return match push_end(out, host, finished, end) {
                    Ok(()) => Ok(None),
                    Err(SayFault) => Err(SayFault),
                };
            }
        }
    }
}

/// Runs so many cycles, and adds what is said of them: each line of bytes at its place, and the run's end. A snapshot that a
/// bytecode asks for is passed over.
pub(crate) fn push_run<H: Host, M: Memory>(
    out: &mut Output,
    host: &mut H,
    machine: &mut Machine<M>,
    cycles: u32,
) -> Pushed
    requires ready { IsReady (M.view machine.old.memory) machine.old.frame machine.old.world }
    requires alive { machine.old.death ≡ None }
    ensures may_run { MayRun M.view machine.new }
    ensures pushes { (s : State Births) → Shows (shown_by M.view machine.old) s
        → PushesCourse H.Host.own (StandsAt M.view machine.new)
        (run_course keeps_nothing 0 cycles s (tt {0}))
        host.old host.new out.old out.new result }
{
    let mut finished = 0;
    'stretches: loop {
        match push_stretch(out, host, machine, finished, cycles) {
            Ok(Some(asked)) => finished = asked,
            Ok(None) => return Ok(()),
            Err(SayFault) => return Err(SayFault),
        }
    }
}
