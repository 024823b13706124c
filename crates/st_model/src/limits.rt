//! What no memory and no image goes past.

/// The most words that a memory may be asked for, and an object space of version 2 may have: 32 MiB.
pub const MOST_WORDS: u32 = 16_777_216;

/// The most bytes that the file of an image may have: 128 MiB.
pub const LONGEST_IMAGE: u64 = 134_217_728;
