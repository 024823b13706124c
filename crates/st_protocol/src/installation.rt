use crate::refusal::Refusal;

/// What comes of installing a definition.
#[derive(Drop)]
pub enum Installation {
    /// It is installed; the method has this selector.
    Accepted(Vec<u8>),
    /// It is refused, and nothing has changed.
    Refused(Refusal),
    /// There was no memory, and nothing has changed.
    OutOfMemory,
}
