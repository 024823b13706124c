/// What a script asks for.
#[derive(Clone, Copy, Debug, PartialEq, Eq)]
pub enum Request {
    /// `run N`: so many cycles, at most 1,000,000,000.
    Run(u32),
    /// `trace N`: so many cycles, from 1 to 1,000,000, with the bytecode that comes in each.
    Trace(u32),
    /// `input W`: a word of input.
    Input(u16),
    /// `mouse X Y`: where the mouse is, each at most 16383.
    Mouse(u16, u16),
    /// `clock S`: the clock of seconds.
    Clock(u32),
    /// `tick T`: the clock of milliseconds.
    Tick(u32),
    /// `state`: the registers, the input and what is held.
    State,
    /// `used`: how many entries and words are kept.
    Used,
    /// `stack`: the active context, and those that it returns to.
    Stack,
    /// `snapshot`: the machine's image is to be kept.
    Snapshot,
    /// A line that names what it asks for, to be looked at or to run up to, which the reader tells.
    Browse,
    /// `end`: the end of the session.
    End,
    /// A method of a group, to be accepted.
    Define,
    /// What begins in this line isn't in the grammar, is too long or is cut off.
    Wrong(u64),
}
