/// What is wrong with an image file. Pointers, and indexes of fields from 0, are numbers.
#[derive(Clone, Copy, Debug, PartialEq, Eq)]
pub enum ImageFault {
    /// The file has no whole head, or ends before its table does.
    Short,
    /// The table's length is odd or too great, the object space is too long, or the version is unknown.
    Lengths,
    /// The head's capacities are too great, or too small for what the file holds.
    Capacity,
    /// The object of this pointer leaves the object space, or its size makes no sense.
    Size(u32),
    /// The objects of these two pointers share a word.
    Overlap(u32, u32),
    /// The class of this pointer's object is no object.
    Class(u32),
    /// The field, or literal, of this pointer's object with this index is no object.
    Field(u32, u32),
    /// The method of this pointer has pointers for its body, no SmallInteger as header, or more literals than words.
    Method(u32),
    /// This pointer of the root page or of the head is no object.
    Root(u32),
    /// The registers can't be fetched from the active process's context.
    Scheduler,
}
