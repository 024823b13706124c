ghost use Rattle.std.specs.Prelude.{◌≡◌, OnErr};
ghost use Rattle.st_model.specs.Objects.{nil};
ghost use Rattle.st_model.specs.Events.{comes, is_due, word_comes, time_comes};
ghost use Rattle.st_frames.specs.Naming.{IsNaming, naming};
ghost use Rattle.st_frames.specs.inside.Coming.{HasPlace, came, HoldsNamed};

use crate::naming::{add_signal, signal_once};
use crate::world::World;
use st_memory::Memory;
use st_model::{Device, Event, InputFull};

/// An input word comes.
#[tactic(auto, using(crate::proofs::HoldsNamed::knowns))]
fn add_word<M: Memory>(m: &mut M, w: &mut World, word: u16) -> Result<(), InputFull>
    requires named { IsNaming (M.view m.old).held w.old }
    ensures comes { word_comes nil word w.old ≡ came result w.new }
    ensures full { OnErr result (w.new ≡ w.old) }
    ensures memory { HoldsNamed (M.view m.old) (M.view m.new) w.new }
{
    if w.waiting_count() >= 256 {
        return Err(InputFull);
    }
    if !w.holds(Device::InputSemaphore) {
        w.add_word(word);
        return Ok(());
    }
    if !w.has_signal_room() {
        return Err(InputFull);
    }
    let semaphore = w.device(Device::InputSemaphore);
    w.add_word(word);
    add_signal(m, w, semaphore);
    Ok(())
}

/// Whether the timer is held, and is due at this time.
fn is_due(w: &World, time: u32) -> bool
    ensures { result ≡ is_due nil time w.now }
{
    w.holds(Device::Timer) && w.timer_due() <= time
}

/// The millisecond clock is this from now on.
fn set_time<M: Memory>(m: &mut M, w: &mut World, time: u32) -> Result<(), InputFull>
    requires named { IsNaming (M.view m.old).held w.old }
    ensures comes { time_comes nil time w.old ≡ came result w.new }
    ensures full { OnErr result (w.new ≡ w.old) }
    ensures memory { HoldsNamed (M.view m.old) (M.view m.new) w.new }
{
    if !is_due(w, time) {
        w.set_millisecond_clock(time);
        return Ok(());
    }
    if !w.has_signal_room() {
        return Err(InputFull);
    }
    w.set_millisecond_clock(time);
    signal_once(m, w, Device::Timer);
    Ok(())
}

impl World {
    /// An event comes, and the memory goes on holding what is named. The input is full, and nothing changes, where the event
    /// is a word and 256 wait, or where it has a signal added and 4096 are pending.
    pub fn event<M: Memory>(&mut self, m: &mut M, e: Event) -> Result<(), InputFull>
        requires place { HasPlace e }
        requires named { IsNaming (M.view m.old).held self.old }
        ensures comes { comes nil e self.old ≡ came result self.new }
        ensures full { OnErr result (self.new ≡ self.old) }
        ensures held { (M.view m.new).held ≡ naming (M.view m.old).held self.new }
        ensures objects { (M.view m.new).objects ≡ (M.view m.old).objects }
        ensures head { (M.view m.new).head ≡ (M.view m.old).head }
    {
        match e {
            Event::Word(word) => add_word(m, self, word),
            Event::Mouse(x, y) => {
                self.move_mouse(x, y);
                Ok(())
            }
            Event::Clock(time) => {
                self.set_second_clock(time);
                Ok(())
            }
            Event::Tick(time) => set_time(m, self, time),
        }
    }
}
