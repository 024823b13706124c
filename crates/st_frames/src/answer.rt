use st_model::{Deed, Word};

/// The answer of a primitive's effect, and what it leaves to be done.
#[derive(Clone, Copy)]
pub struct Answer {
    /// The word that is pushed.
    pub word: Word,
    /// What is left to be done once it is pushed.
    pub deed: Deed,
}
