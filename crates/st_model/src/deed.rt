use crate::device::Device;
use crate::word::Word;

/// What a primitive leaves to be done once receiver and arguments are popped and the answer is pushed: a change of words or
/// bytes, of a Method's header or literals, or of what lies round the machine. What is to be stored where an object lacks the
/// place, or is of another kind, is not stored; where there is no such object, nothing is done; and what isn't there is not
/// held.
#[derive(Clone, Copy)]
pub enum Deed {
    /// Nothing is left to be done.
    Nothing,
    /// A word is stored in an object of kind Words, at a place counted from 0.
    StoreWord {
        object: Word,
        place: u32,
        word: u16,
    },
    /// A byte is stored in an object of kind Bytes or Method, at a place counted from 0; of a Method from the first
    /// bytecode on.
    StoreByte {
        object: Word,
        place: u32,
        byte: u8,
    },
    /// The bytes of a number, the low one first and no more than it has, are stored in an object of kind Bytes or Method, from
    /// place 0 on.
    StoreNumber {
        object: Word,
        number: u128,
    },
    /// `count` bytes of an object from place `to` on, counted from 0, become those of another from place `from` on, as they
    /// were before; fewer where that one has fewer.
    ReplaceBytes {
        target: Word,
        source: Word,
        to: u32,
        from: u32,
        count: u32,
    },
    /// A Method's header becomes another one that counts as many literals.
    StoreHeader {
        method: Word,
        header: Word,
    },
    /// Literal `number` of a Method, counted from 0, becomes another value that is there.
    StoreLiteral {
        method: Word,
        number: u32,
        value: Word,
    },
    /// The four bytes of a time, the low one first, are stored in an object of kind Bytes or Method, from place 0 on.
    StoreTime {
        object: Word,
        time: u32,
    },
    /// A device holds this object from now on, or with nil nothing.
    Hold {
        device: Device,
        object: Word,
    },
    /// The semaphore is to be signalled when the millisecond clock is at least `due`.
    SetTimer {
        semaphore: Word,
        due: u32,
    },
    /// The semaphore's signal is pending, and the timer is let go, where fewer than 4096 signals are pending.
    RingTimer {
        semaphore: Word,
    },
    /// The semaphore is to be signalled when fewer entries or words are free.
    SetLowSpace {
        semaphore: Word,
        entries: u32,
        words: u32,
    },
    /// The mouse is moved to this place, from the left and from the top, where both are at most 16383.
    MoveMouse {
        x: u16,
        y: u16,
    },
    /// The pixels are copied that a BitBlt tells; where it or its Forms are not as they should be, nothing is done.
    CopyBits {
        bit_blt: Word,
    },
    /// The oldest input word is taken away, and the bytes of its number are stored as `StoreNumber` stores them.
    TakeWord {
        object: Word,
        number: u32,
    },
}
