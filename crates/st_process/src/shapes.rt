//! What primitives are given that goes together (`Alarm`), or that tells two of one form apart (`Setting`); what their conditions find
//! of that, for the effects that follow (`Place`, `Low`, `Timing`); and a process with its list (`Listed`).

ghost use Rattle.std.specs.Prelude.{◌≤◌};

use st_model::Word;

/// A place, from the left and from the top.
#[derive(Clone, Copy)]
pub struct Place {
    /// From the left.
    pub x: u16,
    /// From the top.
    pub y: u16,
    pub ghost left: { x ≤ 16383 },
    pub ghost top: { y ≤ 16383 },
}

/// A process, which is a link of a list, and that list, which it is in or goes into.
#[derive(Clone, Copy)]
pub struct Listed {
    /// The process.
    pub process: Word,
    /// The list.
    pub list: Word,
}

/// Space is low below so many free entries and words, and then a semaphore is signalled.
#[derive(Clone, Copy)]
pub struct Low {
    /// The semaphore.
    pub semaphore: Word,
    /// Free entries.
    pub entries: u32,
    /// Free words.
    pub words: u32,
}

/// A semaphore, and the object whose first four bytes say when it is to be signalled.
#[derive(Clone, Copy)]
pub struct Alarm {
    /// The semaphore.
    pub semaphore: Word,
    /// The object of the bytes.
    pub bytes: Word,
}

/// What is set of a device that nothing is seen of.
#[derive(Clone, Copy)]
pub enum Setting {
    /// Whether the cursor is linked to the mouse, which true or false says.
    CursorLink,
    /// How often the mouse is looked at, which a SmallInteger says.
    SampleInterval,
}

/// What primitive 100 does to the timer.
#[derive(Clone, Copy)]
pub enum Timing {
    /// It is due, and the semaphore's signal is added.
    Rings,
    /// The semaphore waits for this millisecond.
    Waits(u32),
    /// It is let go.
    LetsGo,
}
