use st_model::Outcome;

/// How a primitive ended that was called by its number.
#[derive(Clone, Copy, Debug, PartialEq, Eq)]
pub enum Tried {
    /// It was done.
    Done,
    /// It failed, and nothing was changed.
    Failed,
    /// It was done, and asks for something; never `Went`.
    Outcome(Outcome),
}
