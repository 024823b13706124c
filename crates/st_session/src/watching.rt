// A run that is watched: what comes before a bytecode is done, the machine is looked at, and then the cycle goes on.
ghost use Rattle.std.specs.Prelude.{◌≡◌, ◌-◌, ◌≤◌, ◌<◌, None, IfOk, IfSome};
ghost use Rattle.st_model.specs.{Values.value, Machine.State, Births.{Births, births}, Cycles.cycle};
ghost use Rattle.st_model.specs.{Show.Shows, Text.dead_text};
ghost use Rattle.st_frames.specs.inside.Shown.{IsReady};
ghost use Rattle.st_call.specs.inside.Saying.{Pushes};
ghost use Rattle.st_session.specs.{declared.watching.Cycled.TheVariants.Over, inside.Standing.{MayRun, shown_by}};
ghost use Rattle.st_session.specs.inside.Stretches.{PushesStretch, cycle_stretch, went};
ghost use Rattle.st_session.specs.inside.Watched.{PushesLook, PushesCycle, is_stop, seen_cycle, watched_cycle, watched_stretch};
ghost use Rattle.st_session.specs.Watching.{bytecode_seen, entry_seen, look_of};

use crate::running::{push_end, push_stretch};
use crate::watch::Watch;
use st_call::{Output, push_line, say_at_once};
use st_debug::{entered, push_at, watch};
use st_host::{Host, SayFault};
use st_machine::{Machine, RunEnd};
use st_memory::Memory;
use st_model::{Dead, Oop};

/// What a cycle of a line leads to.
#[derive(Clone, Copy)]
pub(crate) enum Cycled {
    /// It is finished, and the line goes on.
    GoesOn,
    /// It is finished, and asks for a snapshot.
    Asks,
    /// The line is over.
    Over,
}

/// Adds the line of the bytecode that comes, where its byte can be fetched. The line goes on.
fn push_bytecode<H: Host, M: Memory>(
    out: &mut Output,
    host: &mut H,
    machine: &Machine<M>,
    finished: u32,
) -> Result<bool, SayFault>
    requires ready { IsReady (M.view machine.now.memory) machine.now.frame machine.now.world }
    ensures { PushesLook H.Host.own finished (bytecode_seen finished (shown_by M.view machine.now))
        host.old host.new out.old out.new result }
{
    match watch(machine.memory(), &machine.frame()) {
        Some(at) => match push_at(out, host, at) {
            Ok(()) => Ok(false),
            Err(SayFault) => Err(SayFault),
        },
        None => Ok(false),
    }
}

/// Whether the machine stands before the first bytecode of a method where a cycle or more of the line is finished.
fn has_entered<M: Memory>(machine: &Machine<M>, method: Oop, finished: u32) -> bool
    ensures { result ≡ is_stop (entry_seen (value method) finished (shown_by M.view machine.now)) }
{
    if finished == 0 {
        return false;
    }
    entered(machine.memory(), &machine.frame(), method)
}

/// Adds that the line stops, where the machine stands before the first bytecode of a method, and answers whether it does.
fn push_entry<H: Host, M: Memory>(
    out: &mut Output,
    host: &mut H,
    machine: &Machine<M>,
    method: Oop,
    finished: u32,
) -> Result<bool, SayFault>
    ensures { PushesLook H.Host.own finished
        (entry_seen (value method) finished (shown_by M.view machine.now))
        host.old host.new out.old out.new result }
{
    if !has_entered(machine, method, finished) {
        return Ok(false);
    }
    match push_line(out, host, b"stopped", &[finished]) {
        Ok(()) => Ok(true),
        Err(SayFault) => Err(SayFault),
    }
}

/// Adds what is seen of a machine before a cycle, where so many of the line's are finished, and answers whether the line stops here.
fn push_look<H: Host, M: Memory>(
    out: &mut Output,
    host: &mut H,
    machine: &Machine<M>,
    watch: Watch,
    finished: u32,
) -> Result<bool, SayFault>
    requires ready { IsReady (M.view machine.now.memory) machine.now.frame machine.now.world }
    ensures { PushesLook H.Host.own finished (look_of watch finished (shown_by M.view machine.now))
        host.old host.new out.old out.new result }
{
    match watch {
        Watch::Nothing => Ok(false),
        Watch::Bytecodes => push_bytecode(out, host, machine, finished),
        Watch::Entry(method) => push_entry(out, host, machine, method, finished),
    }
}

/// Does a cycle, where so many of the line's are finished, and adds what is said of it.
fn push_cycle<H: Host, M: Memory>(
    out: &mut Output,
    host: &mut H,
    machine: &mut Machine<M>,
    finished: u32,
) -> Result<Cycled, SayFault>
    requires ready { IsReady (M.view machine.old.memory) machine.old.frame machine.old.world }
    requires alive { machine.old.death ≡ None }
    requires few { finished < 4294967295 }
    ensures may_run { MayRun M.view machine.new }
    ensures pushes { (s : State Births) → Shows (shown_by M.view machine.old) s
        → PushesCycle H.Host.own machine.new.death (shown_by M.view machine.new) finished
        (cycle_stretch finished (cycle births s)) host.old host.new out.old out.new result }
{
    let end = machine.run(1);
    let last = end.finished(1);
    match end {
        RunEnd::Ran => Ok(Cycled::GoesOn),
        RunEnd::Snapshot { .. } => Ok(Cycled::Asks),
        RunEnd::Say { object, .. } => match say_at_once(out, host, machine.memory(), object) {
            Ok(()) => Ok(Cycled::GoesOn),
            Err(SayFault) => Err(SayFault),
        },
        _ => match push_end(out, host, finished + last, end) {
            Ok(()) => Ok(Cycled::Over),
            Err(SayFault) => Err(SayFault),
        },
    }
}

/// Looks at a machine before a cycle, and does the cycle unless the line stops before it.
fn push_seen<H: Host, M: Memory>(
    out: &mut Output,
    host: &mut H,
    machine: &mut Machine<M>,
    watch: Watch,
    finished: u32,
) -> Result<Cycled, SayFault>
    requires ready { IsReady (M.view machine.old.memory) machine.old.frame machine.old.world }
    requires alive { machine.old.death ≡ None }
    requires few { finished < 4294967295 }
    ensures may_run { MayRun M.view machine.new }
    ensures pushes { (s : State Births) → Shows (shown_by M.view machine.old) s
        → PushesCycle H.Host.own machine.new.death (shown_by M.view machine.new) finished
        (seen_cycle (look_of watch finished) finished s) host.old host.new out.old out.new result }
{
    match push_look(out, host, machine, watch, finished) {
        Ok(true) => Ok(Cycled::Over),
        Ok(false) => push_cycle(out, host, machine, finished),
        Err(SayFault) => Err(SayFault),
    }
}

/// Adds the line of a machine that died before its bytecode.
fn push_death<H: Host>(
    out: &mut Output,
    host: &mut H,
    finished: u32,
    cause: Dead,
) -> Result<Cycled, SayFault>
    ensures pushes { Pushes H.Host.own (dead_text finished cause) host.old host.new out.old out.new
        (went result) }
    ensures over { IfOk result (λ cycled. cycled ≡ Over) }
{
    match push_line(out, host, b"dead", &[finished, u32::from(cause.number())]) {
        Ok(()) => Ok(Cycled::Over),
        Err(SayFault) => Err(SayFault),
    }
}

/// Does what comes before a bytecode, looks at the machine, and does the cycle unless the line stops before it.
fn push_watched<H: Host, M: Memory>(
    out: &mut Output,
    host: &mut H,
    machine: &mut Machine<M>,
    watch: Watch,
    finished: u32,
) -> Result<Cycled, SayFault>
    requires ready { IsReady (M.view machine.old.memory) machine.old.frame machine.old.world }
    requires alive { machine.old.death ≡ None }
    requires few { finished < 4294967295 }
    ensures may_run { MayRun M.view machine.new }
    ensures pushes { (s : State Births) → Shows (shown_by M.view machine.old) s
        → PushesCycle H.Host.own machine.new.death (shown_by M.view machine.new) finished
        (watched_cycle (look_of watch finished) finished s) host.old host.new out.old out.new result }
{
    match machine.prepare() {
        Some(cause) => push_death(out, host, finished, cause),
        None => push_seen(out, host, machine, watch, finished),
    }
}

/// Runs on cycle by cycle, where so many of a line's are finished, and adds what is seen before each and what is said of it, and the
/// line's end. Where a bytecode asks for a snapshot it stops, and answers how many are finished with it.
fn push_cycles<H: Host, M: Memory>(
    out: &mut Output,
    host: &mut H,
    machine: &mut Machine<M>,
    watch: Watch,
    finished: u32,
    cycles: u32,
) -> Result<Option<u32>, SayFault>
    requires ready { IsReady (M.view machine.old.memory) machine.old.frame machine.old.world }
    requires alive { machine.old.death ≡ None }
    requires few { finished ≤ cycles }
    ensures may_run { MayRun M.view machine.new }
    ensures alive { IfOk result (λ asked. IfSome asked (λ n. machine.new.death ≡ None)) }
    ensures later { IfOk result (λ asked. IfSome asked (λ n. (finished < n) × (n ≤ cycles))) }
    ensures pushes { (s : State Births) → Shows (shown_by M.view machine.old) s
        → PushesStretch H.Host.own machine.new.death (shown_by M.view machine.new)
        (watched_stretch (look_of watch) finished (cycles - finished) s)
        host.old host.new out.old out.new result }
{
    let mut finished = finished;
    'cycles: while finished < cycles {
        match push_watched(out, host, machine, watch, finished) {
            Ok(Cycled::GoesOn) => finished += 1,
            Ok(Cycled::Asks) => return Ok(Some(finished + 1)),
            Ok(Cycled::Over) => return Ok(None),
            Err(SayFault) => return Err(SayFault),
        }
    }
    match push_line(out, host, b"ran", &[finished]) {
        Ok(()) => Ok(None),
        Err(SayFault) => Err(SayFault),
    }
}

/// Runs on, where so many of a line's cycles are finished, watched or not, and adds what is seen and said of it. Where a bytecode asks
/// for a snapshot it stops, and answers how many are finished with it.
pub(crate) fn push_run_on<H: Host, M: Memory>(
    out: &mut Output,
    host: &mut H,
    machine: &mut Machine<M>,
    watch: Watch,
    finished: u32,
    cycles: u32,
) -> Result<Option<u32>, SayFault>
    requires ready { IsReady (M.view machine.old.memory) machine.old.frame machine.old.world }
    requires alive { machine.old.death ≡ None }
    requires few { finished ≤ cycles }
    ensures may_run { MayRun M.view machine.new }
    ensures alive { IfOk result (λ asked. IfSome asked (λ n. machine.new.death ≡ None)) }
    ensures later { IfOk result (λ asked. IfSome asked (λ n. (finished < n) × (n ≤ cycles))) }
    ensures pushes { (s : State Births) → Shows (shown_by M.view machine.old) s
        → PushesStretch H.Host.own machine.new.death (shown_by M.view machine.new)
        (watched_stretch (look_of watch) finished (cycles - finished) s)
        host.old host.new out.old out.new result }
{
    match watch {
        Watch::Nothing => push_stretch(out, host, machine, finished, cycles),
        Watch::Bytecodes | Watch::Entry(_) => {
            push_cycles(out, host, machine, watch, finished, cycles)
        }
    }
}
