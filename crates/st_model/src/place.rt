/// A place outside the objects that keeps one of them.
#[derive(Clone, Copy)]
pub enum RootPlace {
    /// The active context.
    Active,
    /// The home context.
    Home,
    /// The method that runs.
    Method,
    /// The receiver.
    Receiver,
    /// The process that waits to be switched to.
    NewProcess,
    /// The Form that is the display.
    Display,
    /// The Form that is the cursor.
    Cursor,
    /// The semaphore that is signalled at each input word.
    InputSemaphore,
    /// The semaphore that is signalled when the timer is due.
    Timer,
    /// The semaphore that is signalled when space runs low.
    LowSpace,
    /// A semaphore whose signal is pending, by its number from 0, oldest first; below 4096.
    Pending(u16),
}
