use st_model::Oop;

/// The registers of the interpreter (chapter 27).
#[derive(Clone, Copy, Debug, PartialEq, Eq)]
pub struct Frame {
    /// The active context.
    pub active: Oop,
    /// The home context: the active one, or that of the block that it runs.
    pub home: Oop,
    /// The method of the home context.
    pub method: Oop,
    /// The receiver of the home context.
    pub receiver: Oop,
    /// The number, from 0, of the method's next byte; from -16385 to 16382.
    pub ip: i32,
    /// The number of the active context's field that holds the top of the stack; from 5 to 16388.
    pub sp: u32,
}

/// A memory with the registers of a machine in it.
#[derive(Drop)]
pub struct Loaded<M> {
    /// The objects, with the registers held at their places.
    pub memory: M,
    /// The registers.
    pub frame: Frame,
}
