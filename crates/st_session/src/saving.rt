// Runs and snapshots of a session, which keep images in the store.
ghost use Rattle.std.specs.Prelude.{◌≡◌, ◌-◌, ◌≤◌, ◌<◌, IfErr, IfOk, IfSome, IsErrOf, IsSome, None, OnOk};
ghost use Rattle.st_model.specs.{Machine.State, Births.Births, Show.Shows};
ghost use Rattle.st_frames.specs.inside.Shown.{IsReady};
ghost use Rattle.st_image.specs.inside.Back.{CanStart};
ghost use Rattle.st_store.specs.Names.{IsNoFileOf};
ghost use Rattle.st_protocol.specs.{inside.Obeying.Obeys, Statuses.Counts};
ghost use Rattle.st_protocol.specs.declared.status.Status.TheVariants.{OutOfMemory};
ghost use Rattle.st_recover.specs.{inside.Archives.Holds, Commits.{Commit, OpensAs, image_with}};
ghost use Rattle.st_session.specs.{Answers.{watched_course, going_on}, Keeping.{in_a_store, imaging}};
ghost use Rattle.st_session.specs.inside.Standing.{MayRun, MayGoOn, Serves, shown_by};
ghost use Rattle.st_session.specs.{inside.Stretches.{SaysStretch, went}, inside.Watched.watched_stretch, Watching.look_of};
ghost use Rattle.st_call.specs.inside.Telling.{IsOfServing};

use crate::kept::SessionState;
use crate::watch::Watch;
use crate::watching::push_run_on;
use st_call::{Output, Reply, finish, say_reply};
use st_host::{Host, HostFault, SayFault};
use st_machine::Machine;
use st_memory::Memory;
use st_protocol::Status;
use st_recover::Archive;

/// Keeps the image of a memory from which a machine can start, and then says its length.
fn keep_image<H: Host, M: Memory>(host: &mut H, m: &M, archive: &mut Archive) -> Result<(), Status>
    requires open { IsSome archive.old.store }
    requires starts { CanStart (M.view m.now) }
    ensures open { OnOk result (IsSome archive.new.store) }
    ensures named { archive.new.name ≡ archive.old.name }
    ensures obeys { let image = image_with (M.view m.now).objects (M.view m.now).head in
        (c : Commit) → Holds H.Host.own host.old archive.old c
        → Obeys H.Host.own (OpensAs archive.old.name) (IsNoFileOf archive.old.name)
        (Holds H.Host.own host.new archive.new) (λ d. d) c (imaging c image) result host.old host.new }
    ensures counts { Counts H.Host.own ⊥ host.old host.new result }
    ensures served { IfErr result IsOfServing }
    ensures ample { IsErrOf result OutOfMemory → ⊥ }
{
    match archive.snapshot(host, m) {
        Ok(length) => say_reply(host, Reply::Snapshot(length)),
        Err(HostFault) => Err(Status::DiskFault),
    }
}

/// Saves a machine that isn't dead, keeps its image and says the image's length; or says of what saving died. So many cycles of
/// the line are finished.
pub(crate) fn snapshot<H: Host, M: Memory>(
    host: &mut H,
    kept: &mut SessionState<M>,
    finished: u32,
) -> Result<(), Status>
    requires go_on { MayGoOn M.view kept.old }
    requires alive { kept.old.machine.death ≡ None }
    ensures { Serves M.view H.Host.own
        (λ p. going_on in_a_store (in_a_store.snapshot finished) p.being p.kept) ⊥
        kept.old host.old result kept.new host.new }
{
    match kept.machine.save() {
        Ok(()) => keep_image(host, kept.machine.memory(), &mut kept.archive),
        Err(cause) => say_reply(host, Reply::Died { finished, cause }),
    }
}

/// Runs on, where so many of a line's cycles are finished, up to the first bytecode that asks for a snapshot or to the run's end,
/// and says what is seen and said of it. Where a snapshot is asked for, answers how many are finished then.
fn say_stretch<H: Host, M: Memory>(
    host: &mut H,
    machine: &mut Machine<M>,
    watch: Watch,
    finished: u32,
    cycles: u32,
) -> Result<Option<u32>, Status>
    requires ready { IsReady (M.view machine.old.memory) machine.old.frame machine.old.world }
    requires alive { machine.old.death ≡ None }
    requires few { finished ≤ cycles }
    ensures may_run { MayRun M.view machine.new }
    ensures alive { IfOk result (λ asked. IfSome asked (λ n. machine.new.death ≡ None)) }
    ensures later { IfOk result (λ asked. IfSome asked (λ n. (finished < n) × (n ≤ cycles))) }
    ensures says { (s : State Births) → Shows (shown_by M.view machine.old) s
        → SaysStretch H.Host.own machine.new.death (shown_by M.view machine.new)
        (watched_stretch (look_of watch) finished (cycles - finished) s) host.old host.new result }
    ensures counts { Counts H.Host.own ⊥ host.old host.new (went result) }
    ensures served { IfErr result IsOfServing }
    ensures ample { IsErrOf result OutOfMemory → ⊥ }
{
    let mut out = Output::new();
    match push_run_on(&mut out, host, machine, watch, finished, cycles) {
        Ok(asked) => match finish(out, host) {
            Ok(()) => Ok(asked),
            Err(status) => Err(status),
        },
        Err(SayFault) => Err(Status::SayFault),
    }
}

/// Runs so many cycles, watched or not, with the snapshots that bytecodes ask for, and says what is seen and said of them.
pub(crate) fn run<H: Host, M: Memory>(
    host: &mut H,
    kept: &mut SessionState<M>,
    watch: Watch,
    cycles: u32,
) -> Result<(), Status>
    requires go_on { MayGoOn M.view kept.old }
    requires alive { kept.old.machine.death ≡ None }
    ensures { Serves M.view H.Host.own
        (λ p. going_on in_a_store (watched_course in_a_store (look_of watch) 0 cycles) p.being p.kept) ⊥
        kept.old host.old result kept.new host.new }
{
    let mut finished = 0;
    'stretches: loop {
        finished = match say_stretch(host, &mut kept.machine, watch, finished, cycles) {
            Ok(Some(asked)) => asked,
            Ok(None) => return Ok(()),
            Err(status) => return Err(status),
        };
        match snapshot(host, kept, finished) {
            Ok(()) => {}
            Err(status) => return Err(status),
        }
        if kept.machine.death().is_some() {
            return Ok(());
        }
    }
}
