use st_model::Word;

/// The fields of a context that keep its registers, as they stand there, and how many fields it has.
#[derive(Clone, Copy)]
pub struct ContextFields {
    /// Field 1, the instruction pointer.
    pub instruction_pointer: Word,
    /// Field 2, the stack pointer.
    pub stack_pointer: Word,
    /// Field 3: the method, or of a block's context how many arguments it takes.
    pub method: Word,
    /// Field 5: the receiver, or of a block's context its home.
    pub receiver: Word,
    /// How many fields it has.
    pub count: u32,
}
