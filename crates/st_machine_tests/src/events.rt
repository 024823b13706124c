//! Events, as tables.

ghost use Rattle.st_frames.specs.Naming.{IsNaming};

use crate::image::quiet_b;
use st_frames::{add_signal, hold_device, take_newest_signal};
use st_input::{Event, InputFull, World};
use st_memory::{Loader, Memory};
use st_model::{Device, Oop, RootPlace};
use std::alloc::AllocGlobal;
use std::process::Abort;
use std::test::Fail;

/// What can be signalled; no test looks into it.
const SEMAPHORE: Oop = Oop(58);

/// A call of a world, or what it and its memory answer then.
#[derive(Clone, Copy)]
enum Call {
    /// So many input words come, and each is taken in.
    Words(u32),
    /// An input word or a time of the millisecond clock comes, and whether it is taken in.
    Word(u16, Result<(), InputFull>),
    Tick(u32, Result<(), InputFull>),
    /// The mouse is here, and a time of the second clock comes; both are taken in.
    Mouse(u16, u16),
    Clock(u32),
    /// A device holds the semaphore from now on.
    Hold(Device),
    /// The timer is due then.
    Due(u32),
    /// So many signals of the semaphore are added.
    AddSignals(u32),
    /// The newest signal is taken, and is one of the semaphore.
    TakeSignal,
    /// How many words wait, and how many signals are pending.
    Counts(u32, u32),
    Oldest(Option<u16>),
    /// What is held for the timer, and for a pending signal.
    Timer(Oop),
    Pending(u16, Oop),
    MouseIs(u16, u16),
    /// The second clock and the millisecond clock.
    Clocks(u32, u32),
}

/// 256 words are taken in where none is signalled, and no more.
const MANY_WORDS: &[Call] = &[
    Call::Words(256),
    Call::Counts(256, 0),
    Call::Word(1, Err(InputFull)),
    Call::Counts(256, 0),
];

/// A word is signalled where a semaphore is held for it.
const SIGNALLED_WORD: &[Call] = &[
    Call::Hold(Device::InputSemaphore),
    Call::Word(4660, Ok(())),
    Call::Counts(1, 1),
    Call::Oldest(Some(4660)),
    Call::Pending(0, SEMAPHORE),
    Call::TakeSignal,
    Call::Pending(0, Oop::NIL),
    Call::Counts(1, 0),
];

/// A timer that is due waits for room for its signal.
const WAITING_TIMER: &[Call] = &[
    Call::Hold(Device::Timer),
    Call::Due(500),
    Call::AddSignals(4096),
    Call::Tick(500, Err(InputFull)),
    Call::Clocks(0, 0),
    Call::Timer(SEMAPHORE),
    Call::Counts(0, 4096),
    Call::Tick(499, Ok(())),
    Call::Clocks(0, 499),
    Call::Timer(SEMAPHORE),
    Call::Counts(0, 4096),
    Call::TakeSignal,
    Call::Tick(500, Ok(())),
    Call::Clocks(0, 500),
    Call::Timer(Oop::NIL),
    Call::Counts(0, 4096),
    Call::Tick(501, Ok(())),
    Call::Clocks(0, 501),
    Call::Timer(Oop::NIL),
    Call::Counts(0, 4096),
    Call::Pending(4095, SEMAPHORE),
];

/// Mouse and second clock are what came last.
const PLACE_AND_TIME: &[Call] = &[
    Call::Mouse(16383, 7),
    Call::Clock(4294967295),
    Call::MouseIs(16383, 7),
    Call::Clocks(4294967295, 0),
];

fn words_come<M: Memory>(m: &mut M, w: &mut World, count: u32) -> bool
    requires { IsNaming (M.view m.old).held w.old }
    ensures { IsNaming (M.view m.new).held w.new }
{
    for _ in 0..count {
        if w.event(m, Event::Word(1)).is_err() {
            return false;
        }
    }
    true
}

fn mouse_comes<M: Memory>(m: &mut M, w: &mut World, x: u16, y: u16) -> bool
    requires { IsNaming (M.view m.old).held w.old }
    ensures { IsNaming (M.view m.new).held w.new }
{
    x <= 16383 && y <= 16383 && w.event(m, Event::Mouse(x, y)) == Ok(())
}

fn hold_semaphore<M: Memory>(m: &mut M, w: &mut World, device: Device) -> bool
    requires { IsNaming (M.view m.old).held w.old }
    ensures { IsNaming (M.view m.new).held w.new }
{
    if !m.live(SEMAPHORE) {
        return false;
    }
    hold_device(m, w, device, SEMAPHORE);
    true
}

fn add_signals<M: Memory>(m: &mut M, w: &mut World, count: u32) -> bool
    requires { IsNaming (M.view m.old).held w.old }
    ensures { IsNaming (M.view m.new).held w.new }
{
    for _ in 0..count {
        if !m.live(SEMAPHORE) || !w.has_signal_room() {
            return false;
        }
        add_signal(m, w, SEMAPHORE);
    }
    true
}

/// How many words wait, and how many signals are pending.
pub fn are_waiting(w: &World, words: u32, signals: u32) -> bool {
    w.waiting_count() == words && w.pending_count() == signals
}

/// Calls a world; whether it is called, and answers what is wanted.
fn does<M: Memory>(m: &mut M, w: &mut World, call: &Call) -> bool
    requires { IsNaming (M.view m.old).held w.old }
    ensures { IsNaming (M.view m.new).held w.new }
{
    match *call {
        Call::Words(count) => words_come(m, w, count),
        Call::Word(word, taken) => w.event(m, Event::Word(word)) == taken,
        Call::Tick(time, taken) => w.event(m, Event::Tick(time)) == taken,
        Call::Mouse(x, y) => mouse_comes(m, w, x, y),
        Call::Clock(time) => w.event(m, Event::Clock(time)) == Ok(()),
        Call::Hold(device) => hold_semaphore(m, w, device),
        Call::AddSignals(count) => add_signals(m, w, count),
        Call::TakeSignal => take_newest_signal(m, w) == Some(SEMAPHORE),
        Call::Due(time) => {
            w.set_due(time);
            true
        }
        _ => false,
    }
}

/// Whether a world and its memory, which stay as they are, answer what is wanted.
fn is_so<M: Memory>(m: &M, w: &World, call: &Call) -> bool {
    match *call {
        Call::Counts(words, signals) => are_waiting(w, words, signals),
        Call::Oldest(word) => w.oldest_word() == word,
        Call::Timer(held) => m.held(RootPlace::Timer) == held,
        Call::Pending(place, signal) => {
            place < 4096 && m.held(RootPlace::Pending(place)) == signal
        }
        Call::MouseIs(x, y) => w.mouse_x() == x && w.mouse_y() == y,
        Call::Clocks(seconds, milliseconds) => {
            w.second_clock() == seconds && w.millisecond_clock() == milliseconds
        }
        _ => false,
    }
}

/// Calls a world, which answers what is wanted.
fn check_calls<M: Memory>(rt: &impl Abort, m: &mut M, w: &mut World, calls: &[Call])
    requires { IsNaming (M.view m.old).held w.old }
{
    for (number, call) in calls.iter().enumerate() {
        assert!(rt; is_so(m, w, call) || does(m, w, call), "call {number}");
    }
}

/// Each of these begins with a memory that holds nothing and a new world.
const ROWS: &[&[Call]] = &[MANY_WORDS, SIGNALLED_WORD, WAITING_TIMER, PLACE_AND_TIME];

pub fn check_events<L: Loader>(rt: &(impl Abort + AllocGlobal)) -> Result<(), Fail> {
    for calls in ROWS {
        let (mut m, mut w) = quiet_b::<L>(rt.alloc())?;
        check_calls(rt, &mut m, &mut w, calls);
    }
    Ok(())
}
