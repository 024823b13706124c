/// What holds an object besides the registers, and is no pending signal.
#[derive(Clone, Copy)]
pub enum Device {
    /// The process that waits to be switched to.
    NewProcess,
    /// The Form that is the display.
    Display,
    /// The Form that is the cursor.
    Cursor,
    /// The semaphore that is signalled at each input word.
    InputSemaphore,
    /// The semaphore that is signalled when the timer is due.
    Timer,
    /// The semaphore that is signalled when space runs low.
    LowSpace,
}
