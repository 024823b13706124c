/// What comes from outside.
#[derive(Clone, Copy, Debug, PartialEq, Eq)]
pub enum Event {
    /// An input word.
    Word(u16),
    /// The mouse is at this place, from the left and from the top.
    Mouse(u16, u16),
    /// The second clock is this.
    Clock(u32),
    /// The millisecond clock is this.
    Tick(u32),
}

/// No input is taken: 256 words wait, or 4096 signals are pending.
#[derive(Clone, Copy, Debug, PartialEq, Eq)]
pub struct InputFull;
