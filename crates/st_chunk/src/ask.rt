/// A class's side.
#[derive(Clone, Copy)]
pub struct LentSide<'a> {
    /// The name of the class: letters and digits, a letter first.
    pub class: &'a [u8],
    /// Whether the class side is meant.
    pub meta: bool,
}

/// What a line asks to look at. A selector is any word: a byte or more, and no space.
#[derive(Clone, Copy)]
pub enum LentAsk<'a> {
    /// `object ID`: the object of this pointer, which is even and from 2 to 65534.
    Object(u16),
    /// `display`: the Form that is shown.
    Display,
    /// `classes`: the names of all classes.
    Classes,
    /// `methods C`: the selectors of a class's methods.
    Methods(LentSide<'a>),
    /// `source C S`: the text of a class's method of this selector.
    Source(LentSide<'a>, &'a [u8]),
    /// `bytecodes C S`: the bytecodes of a class's method of this selector.
    Bytecodes(LentSide<'a>, &'a [u8]),
    /// `senders S`: the methods that send this selector.
    Senders(&'a [u8]),
    /// `until N C S`: the first bytecode of a class's method of this selector, within so many cycles, at most 1,000,000,000.
    Until(u32, LentSide<'a>, &'a [u8]),
}
