//! Machines, as tables.

ghost use Rattle.std.specs.Prelude.{◌≡◌, IfOk, None};
ghost use Rattle.st_frames.specs.inside.Shown.{IsReady};

use crate::calls::{are_first, are_used, make, write, write_first};
use crate::events::are_waiting;
use crate::image::{Image, plan_of, ready};
use st_frames::{Frame, Loaded, hold_device};
use st_input::World;
use st_machine::{Machine, RunEnd};
use st_memory::{Loader, Memory};
use st_model::{Dead, Device, Event, Kind, Oop};
use std::alloc::AllocGlobal;
use std::process::Abort;
use std::test::Fail;

/// The registers in a context of image B's method, whose receiver is nil.
fn registers(context: u16, ip: i32, sp: u32) -> Frame {
    Frame {
        active: Oop(context),
        home: Oop(context),
        method: Oop(64),
        receiver: Oop::NIL,
        ip,
        sp,
    }
}

/// The scheduler's lists, of which 18 is that for priority 4; a process of priority 6, which waits first on the semaphore 30; and
/// its context: their classes and sizes, and the pointers under which they are made.
const MADE: &[(u16, u32, u16)] = &[
    (16, 8, 10),
    (12, 2, 18),
    (12, 4, 20),
    (12, 3, 30),
    (22, 18, 36),
];

/// Their first fields, and the scheduler's.
const FILLED: &[(u16, &[u16])] = &[
    (58, &[10, 60]),
    (10, &[2, 2, 2, 18]),
    (20, &[2, 36, 13, 30]),
    (30, &[20, 20, 1]),
    (36, &[2, 7, 3, 64]),
];

fn make_process<M: Memory>(m: &mut M) -> bool
    ensures { (M.view m.new).held ≡ (M.view m.old).held }
{
    for (class, size, made) in MADE {
        if make(m, *class, Kind::Pointers, *size) != Some(*made) {
            return false;
        }
    }
    true
}

fn fill_process<M: Memory>(m: &mut M) -> bool
    ensures { (M.view m.new).held ≡ (M.view m.old).held }
{
    for (object, fields) in FILLED {
        if !write_first(m, *object, fields) {
            return false;
        }
    }
    true
}

/// A device holds this from the start.
fn hold_first<M: Memory>(loaded: &mut Loaded<M>, w: &mut World, device: Device, object: u16) -> bool
    requires { IsReady (M.view loaded.old.memory) loaded.old.frame w.old }
    ensures { IsReady (M.view loaded.new.memory) loaded.new.frame w.new }
{
    let object = Oop(object);
    if !loaded.memory.live(object) {
        return false;
    }
    hold_device(&mut loaded.memory, w, device, object);
    true
}

/// How a machine of image B begins.
#[derive(Clone, Copy)]
enum Start {
    /// This is the scheduler's active process.
    Active(u16),
    /// There is a second process, and a device holds this.
    Two(Device, u16),
}

fn begin<M: Memory>(loaded: &mut Loaded<M>, w: &mut World, start: Start) -> bool
    requires { IsReady (M.view loaded.old.memory) loaded.old.frame w.old }
    ensures { IsReady (M.view loaded.new.memory) loaded.new.frame w.new }
{
    match start {
        Start::Active(process) => write(&mut loaded.memory, 58, 1, process),
        Start::Two(device, object) => {
            make_process(&mut loaded.memory)
                && fill_process(&mut loaded.memory)
                && hold_first(loaded, w, device, object)
        }
    }
}

fn machine_of<L: Loader>(
    rt: &(impl Abort + AllocGlobal),
    start: Start,
) -> Result<Machine<L::Done>, Fail>
    ensures { IfOk result (λ m. m.death ≡ None
        → IsReady (L.Done.view m.memory) m.frame m.world) }
{
    let (mut loaded, mut world) = ready::<L>(rt.alloc(), plan_of(Image::B))?;
    assert!(rt; begin(&mut loaded, &mut world, start));
    Ok(Machine::boot(loaded, world))
}

/// A call of a machine, or what it, its world and its memory answer then.
#[derive(Clone, Copy)]
enum Call {
    /// An input word comes and is taken in.
    Word(u16),
    Run(u32, RunEnd),
    Save(Result<(), Dead>),
    Death(Option<Dead>),
    /// It is in a context of image B's method, whose receiver is nil, with these instruction and stack pointers.
    Frame(u16, i32, u32),
    /// How many words wait, and how many signals are pending.
    Counts(u32, u32),
    Oldest(Option<u16>),
    /// A device holds nothing.
    Free(Device),
    /// So many entries and words are used.
    Used(u32, u32),
    /// The first fields of an object, whose further ones are nil.
    First(u16, &'static [u16]),
    /// The same of some objects.
    AllFirst(&'static [(u16, &'static [u16])]),
}

/// The scheduler, a list, both processes, the first one's context and the semaphore, once the second process is active.
const WOKEN_OBJECTS: &[(u16, &[u16])] = &[
    (58, &[10, 20]),
    (18, &[60, 60]),
    (60, &[2, 62, 9, 18]),
    (62, &[2, 7, 3, 64]),
    (20, &[2, 36, 13, 30]),
    (30, &[2, 2, 1]),
];

/// A word wakes the process that waits for it, which comes before the active one. The one bytecode is its own, and its
/// registers are stored where the machine is saved. The first process is last in list 4 then.
const WOKEN: &[Call] = &[
    Call::Word(4660),
    Call::Counts(1, 1),
    Call::Run(1, RunEnd::Ran),
    Call::Counts(1, 0),
    Call::Oldest(Some(4660)),
    Call::Frame(36, 3, 7),
    Call::AllFirst(WOKEN_OBJECTS),
    Call::First(36, &[2, 7, 3, 64, 2, 2, 2, 3]),
    Call::Used(29, 123),
    Call::Save(Ok(())),
    Call::AllFirst(WOKEN_OBJECTS),
    Call::First(36, &[2, 9, 5, 64, 2, 2, 2, 3]),
    Call::Used(29, 123),
    Call::Frame(36, 3, 7),
];

/// A signal stays pending while the machine is saved.
const SAVED_BEFORE_A_SIGNAL: &[Call] = &[
    Call::Word(4660),
    Call::Save(Ok(())),
    Call::Counts(1, 1),
    Call::First(58, &[10, 60]),
    Call::Frame(62, 2, 6),
    Call::Run(1, RunEnd::Ran),
    Call::Frame(36, 3, 7),
];

/// A process switch that waits is carried out where the machine is saved. No list has the first process, which goes with
/// its context.
const SAVED_AFTER_A_SWITCH: &[Call] = &[
    Call::Save(Ok(())),
    Call::Frame(36, 2, 6),
    Call::Free(Device::NewProcess),
    Call::First(58, &[10, 20]),
    Call::First(20, &[2, 36, 13, 30]),
    Call::Used(27, 97),
];

/// The registers are stored where the machine is saved, and not before.
const SAVED_REGISTERS: &[Call] = &[
    Call::Run(1, RunEnd::Ran),
    Call::First(62, &[2, 7, 3, 64, 2, 2, 2, 3]),
    Call::Save(Ok(())),
    Call::First(62, &[2, 9, 5, 64, 2, 2, 2, 3]),
    Call::First(60, &[2, 62, 9]),
    Call::Frame(62, 3, 7),
    Call::Used(24, 78),
];

const ENDED: RunEnd = RunEnd::Dead {
    done: 0,
    cause: Dead::Small,
};

/// Where the scheduler names itself as its process, the context is stored in that field; the process is then the context,
/// which has a SmallInteger where a process has its context. A dead machine answers the cause of its death, and stays as
/// it is.
const DEAD_OF_SAVING: &[Call] = &[
    Call::Death(None),
    Call::Save(Err(Dead::Small)),
    Call::Death(Some(Dead::Small)),
    Call::Run(1, ENDED),
    Call::Save(Err(Dead::Small)),
    Call::Run(0, ENDED),
    Call::Death(Some(Dead::Small)),
];

/// Whether objects have these first fields.
fn are_all_first<M: Memory>(m: &M, objects: &[(u16, &[u16])]) -> bool {
    for (object, fields) in objects {
        if !are_first(m, *object, fields) {
            return false;
        }
    }
    true
}

/// An input word comes to a machine that is alive.
fn word_comes<M: Memory>(machine: &mut Machine<M>, word: u16) -> bool
    requires { machine.old.death ≡ None
        → IsReady (M.view machine.old.memory) machine.old.frame machine.old.world }
    ensures { machine.new.death ≡ None
        → IsReady (M.view machine.new.memory) machine.new.frame machine.new.world }
{
    machine.death().is_none() && machine.event(Event::Word(word)) == Ok(())
}

/// Calls a machine; whether it is called, and answers what is wanted.
fn does<M: Memory>(machine: &mut Machine<M>, call: &Call) -> bool
    requires { machine.old.death ≡ None
        → IsReady (M.view machine.old.memory) machine.old.frame machine.old.world }
    ensures { machine.new.death ≡ None
        → IsReady (M.view machine.new.memory) machine.new.frame machine.new.world }
{
    match *call {
        Call::Word(word) => word_comes(machine, word),
        Call::Run(count, end) => machine.run(count) == end,
        Call::Save(saved) => machine.save() == saved,
        _ => false,
    }
}

/// Whether a machine, which stays as it is, its world and its memory answer what is wanted.
fn is_so<M: Memory>(machine: &Machine<M>, call: &Call) -> bool {
    match *call {
        Call::Death(cause) => machine.death() == cause,
        Call::Frame(context, ip, sp) => machine.frame() == registers(context, ip, sp),
        Call::Counts(words, signals) => are_waiting(machine.world(), words, signals),
        Call::Oldest(word) => machine.world().oldest_word() == word,
        Call::Free(device) => !machine.world().holds(device),
        Call::Used(entries, words) => are_used(machine.memory(), entries, words),
        Call::First(object, fields) => are_first(machine.memory(), object, fields),
        Call::AllFirst(objects) => are_all_first(machine.memory(), objects),
        _ => false,
    }
}

/// Calls a machine, which answers what is wanted.
fn check_calls<M: Memory>(rt: &impl Abort, machine: &mut Machine<M>, calls: &[Call])
    requires { machine.old.death ≡ None
        → IsReady (M.view machine.old.memory) machine.old.frame machine.old.world }
{
    for (number, call) in calls.iter().enumerate() {
        assert!(rt;
            is_so(machine, call) || does(machine, call),
            "call {number}"
        );
    }
}

const ROWS: &[(Start, &[Call])] = &[
    (Start::Two(Device::InputSemaphore, 30), WOKEN),
    (
        Start::Two(Device::InputSemaphore, 30),
        SAVED_BEFORE_A_SIGNAL,
    ),
    (Start::Two(Device::NewProcess, 20), SAVED_AFTER_A_SWITCH),
    (Start::Active(60), SAVED_REGISTERS),
    (Start::Active(58), DEAD_OF_SAVING),
];

pub fn check_machines<L: Loader>(rt: &(impl Abort + AllocGlobal)) -> Result<(), Fail> {
    for (start, calls) in ROWS {
        let mut machine = machine_of::<L>(rt, *start)?;
        check_calls(rt, &mut machine, calls);
    }
    Ok(())
}
