//! Which names are listed.

/// Which names are listed.
#[derive(Clone, Copy)]
pub enum Choice<'a> {
    /// Every name.
    Every,
    /// The names of classes.
    Classes,
    /// The names of methods that send this selector.
    Senders(&'a [u8]),
}
