ghost use Rattle.std.specs.Prelude.{◌≡◌, ◌<◌, ◌≤◌, ◌==◌, ◌&&◌, not, map, length, slice_get, IfOk};
ghost use Rattle.std.specs.Option.{option_map};
ghost use Rattle.st_model.specs.{Values.value, Objects.nil, Machine.empty_world};
ghost use Rattle.st_model.specs.Events.{is_held, has_signal_room};
ghost use Rattle.st_model.specs.Surroundings.{held_by, newest_of, changed_world, Hold, AddSignal, TakeSignal, SetDue, SetLow, MoveMouse, AddWord, TakeWord, SetSecondClock, SetMillisecondClock};

use circular_buffer::HeapCircularBuffer;
use st_model::{Device, Oop};
use std::alloc::{AllocError, Global};
use std::marker::Model;

/// What lies round the machine. Clauses see it as the world of the definitions. The numbers of the mouse's place are at most
/// 16383.
#[derive(Drop)]
pub struct World {
    /// The input words that wait, oldest first.
    waiting: HeapCircularBuffer<u16>,
    /// The semaphores whose signals are pending, oldest first.
    pending: HeapCircularBuffer<Oop>,
    new_process: Oop,
    display: Oop,
    cursor: Oop,
    input_semaphore: Oop,
    timer: Oop,
    low_space: Oop,
    mouse_x: u16,
    mouse_y: u16,
    second_clock: u32,
    millisecond_clock: u32,
    /// The millisecond at which the timer is due.
    timer_due: u32,
    /// The free entries and words below which the low-space semaphore is signalled.
    low_entries: u32,
    low_words: u32,
}

impl Model for World {
    ghost use Rattle.std.specs.Prelude.{◌≡◌, ◌≤◌, map};
    ghost use Rattle.st_model.specs.Values.{value};
    ghost use Rattle.st_model.specs.Machine.{World as Surroundings};

    ghost Value = { Surroundings };

    ghost view = { λ w. record {
      devices = record {
        new_process = value w.new_process;
        display = value w.display;
        cursor = value w.cursor;
        input_semaphore = value w.input_semaphore;
        timer = value w.timer;
        low_space = value w.low_space;
        pending = map value w.pending.items;
      };
      waiting = w.waiting.items;
      mouse_x = w.mouse_x;
      mouse_y = w.mouse_y;
      second_clock = w.second_clock;
      millisecond_clock = w.millisecond_clock;
      timer_due = w.timer_due;
      low_entries = w.low_entries;
      low_words = w.low_words;
    } };

    ghost invariant = { λ w. (w.waiting.capacity ≡ 256) × (w.pending.capacity ≡ 4096)
        × (w.mouse_x ≤ 16383) × (w.mouse_y ≤ 16383) };
}

impl World {
    /// A world in which nothing waits, is pending or is held, and all clocks are at 0. It has room for 256 words and 4096
    /// signals.
    pub fn new(alloc: Global) -> Result<World, AllocError>
        ensures { IfOk result (λ w. w ≡ empty_world nil) }
    {
        let waiting = HeapCircularBuffer::with_capacity(alloc, 256)?;
        let pending = HeapCircularBuffer::with_capacity(alloc, 4096)?;
        Ok(World {
            waiting,
            pending,
            new_process: Oop::NIL,
            display: Oop::NIL,
            cursor: Oop::NIL,
            input_semaphore: Oop::NIL,
            timer: Oop::NIL,
            low_space: Oop::NIL,
            mouse_x: 0,
            mouse_y: 0,
            second_clock: 0,
            millisecond_clock: 0,
            timer_due: 0,
            low_entries: 0,
            low_words: 0,
        })
    }

    /// What a device holds; nil where it holds nothing.
    pub fn device(&self, device: Device) -> Oop
        ensures { value result ≡ held_by self.now.devices device }
    {
        match device {
            Device::NewProcess => self.new_process,
            Device::Display => self.display,
            Device::Cursor => self.cursor,
            Device::InputSemaphore => self.input_semaphore,
            Device::Timer => self.timer,
            Device::LowSpace => self.low_space,
        }
    }

    /// Whether a device holds something.
    #[tactic(auto, using(crate::proofs::DeviceHolds::holds_value))]
    pub fn holds(&self, device: Device) -> bool
        ensures { result ≡ is_held nil (held_by self.now.devices device) }
    {
        self.device(device) != Oop::NIL
    }

    /// The semaphore of the newest pending signal, if any is pending.
    pub fn newest_signal(&self) -> Option<Oop>
        ensures { option_map value result ≡ newest_of self.now.devices.pending }
    {
        self.pending.back().copied()
    }

    /// How many signals are pending.
    pub fn pending_count(&self) -> u32
        ensures count { result ≡ length self.now.devices.pending }
        ensures within { result ≤ 4096 }
    {
        self.pending.len() as u32
    }

    /// Whether fewer than 4096 signals are pending.
    pub fn has_signal_room(&self) -> bool
        ensures { result ≡ has_signal_room self.now }
    {
        self.pending_count() < 4096
    }

    /// The oldest input word that waits, if any does.
    pub fn oldest_word(&self) -> Option<u16>
        ensures { result ≡ slice_get self.now.waiting 0 }
    {
        self.waiting.front().copied()
    }

    /// How many input words wait.
    pub fn waiting_count(&self) -> u32
        ensures count { result ≡ length self.now.waiting }
        ensures within { result ≤ 256 }
    {
        self.waiting.len() as u32
    }

    /// The mouse's place, from the left.
    pub fn mouse_x(&self) -> u16
        ensures same { result ≡ self.now.mouse_x }
        ensures within { result ≤ 16383 }
    {
        self.mouse_x
    }

    /// The mouse's place, from the top.
    pub fn mouse_y(&self) -> u16
        ensures same { result ≡ self.now.mouse_y }
        ensures within { result ≤ 16383 }
    {
        self.mouse_y
    }

    /// The second clock.
    pub fn second_clock(&self) -> u32
        ensures { result ≡ self.now.second_clock }
    {
        self.second_clock
    }

    /// The millisecond clock.
    pub fn millisecond_clock(&self) -> u32
        ensures { result ≡ self.now.millisecond_clock }
    {
        self.millisecond_clock
    }

    /// The millisecond at which the timer is due.
    pub fn timer_due(&self) -> u32
        ensures { result ≡ self.now.timer_due }
    {
        self.timer_due
    }

    /// The number of free entries below which space is low.
    pub fn low_entries(&self) -> u32
        ensures { result ≡ self.now.low_entries }
    {
        self.low_entries
    }

    /// The number of free words below which space is low.
    pub fn low_words(&self) -> u32
        ensures { result ≡ self.now.low_words }
    {
        self.low_words
    }

    /// A device holds this from now on; nil lets go what it held.
    pub fn hold(&mut self, device: Device, object: Oop)
        ensures { self.new ≡ changed_world (Hold device (value object)) self.old }
    {
        match device {
            Device::NewProcess => self.new_process = object,
            Device::Display => self.display = object,
            Device::Cursor => self.cursor = object,
            Device::InputSemaphore => self.input_semaphore = object,
            Device::Timer => self.timer = object,
            Device::LowSpace => self.low_space = object,
        }
    }

    /// A semaphore's signal is pending, behind all others.
    pub fn add_signal(&mut self, semaphore: Oop)
        requires { length self.old.devices.pending < 4096 }
        ensures { self.new ≡ changed_world (AddSignal (value semaphore)) self.old }
    {
        let _replaced = self.pending.push_back(semaphore);
    }

    /// Whether nothing is asked of a cycle besides its bytecode: no signal is pending, no process waits to be switched to, and no
    /// semaphore is held for low space. It is one test for all three.
    pub fn is_quiet(&self) -> bool
        ensures { let devices = self.now.devices in
            result ≡ (length devices.pending == 0
            && (not (is_held nil devices.new_process) && not (is_held nil devices.low_space))) }
    {
        let waits = u32::from(self.holds(Device::NewProcess));
        let warns = u32::from(self.holds(Device::LowSpace));
        self.pending_count() + waits + warns == 0
    }

    /// The newest pending signal is taken away.
    #[tactic(auto, using(crate::proofs::Signals::map_shorter))]
    pub fn take_signal(&mut self)
        ensures { self.new ≡ changed_world TakeSignal self.old }
    {
        let _taken = self.pending.pop_back();
    }

    /// The timer is due at this millisecond.
    pub fn set_due(&mut self, due: u32)
        ensures { self.new ≡ changed_world (SetDue due) self.old }
    {
        self.timer_due = due;
    }

    /// Space is low below so many free entries and words.
    pub fn set_low(&mut self, entries: u32, words: u32)
        ensures { self.new ≡ changed_world (SetLow entries words) self.old }
    {
        self.low_entries = entries;
        self.low_words = words;
    }

    /// The mouse is at this place, from the left and from the top.
    pub fn move_mouse(&mut self, x: u16, y: u16)
        requires left { x ≤ 16383 }
        requires top { y ≤ 16383 }
        ensures { self.new ≡ changed_world (MoveMouse x y) self.old }
    {
        self.mouse_x = x;
        self.mouse_y = y;
    }

    /// An input word waits, behind all others.
    pub fn add_word(&mut self, word: u16)
        requires { length self.old.waiting < 256 }
        ensures { self.new ≡ changed_world (AddWord word) self.old }
    {
        let _replaced = self.waiting.push_back(word);
    }

    /// The oldest input word is taken away.
    pub fn take_word(&mut self)
        ensures { self.new ≡ changed_world TakeWord self.old }
    {
        let _taken = self.waiting.pop_front();
    }

    /// The second clock is this.
    pub fn set_second_clock(&mut self, time: u32)
        ensures { self.new ≡ changed_world (SetSecondClock time) self.old }
    {
        self.second_clock = time;
    }

    /// The millisecond clock is this.
    pub fn set_millisecond_clock(&mut self, time: u32)
        ensures { self.new ≡ changed_world (SetMillisecondClock time) self.old }
    {
        self.millisecond_clock = time;
    }
}
