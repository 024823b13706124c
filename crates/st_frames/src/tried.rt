/// How a primitive ended that was tried.
#[derive(Clone, Copy)]
pub enum Tried {
    /// It failed, and nothing was changed.
    Failed,
    /// It succeeded.
    Done,
    /// It succeeded but for the deed in the registers, which is left to be done.
    Leaves,
}
