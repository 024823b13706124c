// Bytes in memory that is taken at the beginning.
ghost use Rattle.std.specs.Prelude.{◌≡◌, ◌≤◌, ◌++◌, ◌∷◌, [], length, IfOk};
ghost use Rattle.st_chunk.specs.Lines.{without_return};

use std::alloc::{AllocError, Global};
use std::marker::Model;

/// The bytes of a line, and a carriage return.
const ROOM: usize = 65_537;

/// At most 65,537 bytes: those of a line that is read, or of a group's class and category.
#[derive(Drop)]
pub struct Buffer {
    bytes: Vec<u8>,
}

impl Model for Buffer {
    ghost use Rattle.std.specs.Prelude.{ℕ, List, ◌≤◌};
    ghost use Rattle.std.specs.Vec.{vec_capacity};

    ghost Value = { List ℕ };

    ghost view = { λ b. b.bytes.items };

    ghost invariant = { λ b. 65537 ≤ vec_capacity b.bytes };
}

impl Buffer {
    /// No bytes.
    pub fn new(alloc: Global) -> Result<Buffer, AllocError>
        ensures { IfOk result (λ b. b ≡ []) }
    {
        Ok(Buffer {
            bytes: Vec::with_capacity(alloc, ROOM)?,
        })
    }

    /// One byte more.
    pub fn push(&mut self, byte: u8)
        requires { length self.old ≤ 65536 }
        ensures { self.new ≡ self.old ++ byte ∷ [] }
    {
        self.bytes.push_reserved(byte);
    }

    /// Drops a carriage return at the end.
    pub(crate) fn drop_return(&mut self)
        ensures { self.new ≡ without_return self.old }
    {
        let bytes = self.bytes.as_slice();
        if bytes.ends_with(&[13]) {
            let length = bytes.len() - 1;
            self.bytes.truncate(length);
        }
    }

    /// No bytes again.
    pub fn clear(&mut self)
        ensures { self.new ≡ [] }
    {
        self.bytes.clear();
    }

    /// The bytes.
    pub fn as_slice(&self) -> &[u8]
        ensures { result.now ≡ self.now }
    {
        self.bytes.as_slice()
    }
}
