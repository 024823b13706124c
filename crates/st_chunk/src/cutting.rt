//! The chunks of a text that comes byte by byte.

ghost use Rattle.std.specs.Prelude.{◌≡◌, ◌≤◌, IfOk};
ghost use Rattle.st_chunk.specs.Feeding.{start, with_byte, fed, finished, carried_from, answer, last_answer, MayGoOn, IsTold};

use std::alloc::{AllocError, Global};
use std::marker::Model;

/// The most bytes of a chunk, a doubled `!` counted as one.
const MOST: usize = 65_536;

/// What a byte tells of the chunk that is read.
#[derive(Clone, Copy, Debug, PartialEq, Eq)]
pub enum Fed {
    /// The chunk may go on.
    More,
    /// The chunk has ended.
    Chunk,
    /// The chunk has more than 65,536 bytes.
    Long,
}

/// How far a chunk is read: to no `!`, or behind one whose next byte is awaited; to its end, which a byte told; too far;
/// or to the end of the text.
#[derive(Clone, Copy)]
enum Phase {
    Within,
    Marked,
    Told(u8),
    Long,
    Ended,
}

/// The chunk of a text that is read, as far as it has come. All memory is taken at the beginning.
#[derive(Drop)]
pub struct Chunks {
    bytes: Vec<u8>,
    phase: Phase,
}

impl Model for Chunks {
    ghost use Rattle.std.specs.Prelude.{◌≤◌};
    ghost use Rattle.std.specs.Vec.{vec_len, vec_capacity};
    ghost use Rattle.st_chunk.specs.Feeding.{State};

    ghost Value = { State };

    ghost view = { λ c. record { bytes = c.bytes.items; phase = c.phase } };

    ghost invariant = { λ c. (vec_len c.bytes ≤ 65536) × (65536 ≤ vec_capacity c.bytes) };
}

impl Chunks {
    /// The beginning of a text.
    pub fn new(alloc: Global) -> Result<Chunks, AllocError>
        ensures { IfOk result (λ c. c ≡ start) }
    {
        Ok(Chunks {
            bytes: Vec::with_capacity(alloc, MOST)?,
            phase: Phase::Within,
        })
    }

    /// One more byte of the text. A `!` ends the chunk where the next byte is none, so the end is told by the byte
    /// behind it; `carry` begins the next chunk with that byte. Behind a chunk that is too long each byte is answered so.
    pub fn feed(&mut self, byte: u8) -> Fed
        requires { MayGoOn self.old.phase }
        ensures read { self.new ≡ fed self.old byte }
        ensures told { result ≡ answer (fed self.old byte).phase }
    {
        match self.phase {
            Phase::Within if byte == b'!' => self.phase = Phase::Marked,
            Phase::Within => self.keep(byte),
            Phase::Marked if byte == b'!' => self.keep(byte),
            Phase::Marked => self.phase = Phase::Told(byte),
            Phase::Told(_) | Phase::Long | Phase::Ended => {}
        }
        self.answer()
    }

    /// Adds a byte to the chunk, which is too long where it has no room for it.
    fn keep(&mut self, byte: u8)
        ensures { self.new ≡ with_byte self.old.bytes byte }
    {
        if self.bytes.len() < MOST {
            self.bytes.push_reserved(byte);
            self.phase = Phase::Within;
        } else {
            self.phase = Phase::Long;
        }
    }

    /// What is told behind a byte.
    fn answer(&self) -> Fed
        ensures { result ≡ answer self.now.phase }
    {
        match self.phase {
            Phase::Told(_) => Fed::Chunk,
            Phase::Long => Fed::Long,
            Phase::Within | Phase::Marked | Phase::Ended => Fed::More,
        }
    }

    /// The end of the text, which ends the chunk where a `!` stands last.
    pub fn finish(&mut self) -> Fed
        requires { MayGoOn self.old.phase }
        ensures read { self.new ≡ finished self.old }
        ensures told { result ≡ last_answer self.old.phase }
    {
        let (phase, told) = match self.phase {
            Phase::Marked => (Phase::Ended, Fed::Chunk),
            Phase::Long => (Phase::Long, Fed::Long),
            Phase::Within | Phase::Told(_) | Phase::Ended => (Phase::Ended, Fed::More),
        };
        self.phase = phase;
        told
    }

    /// Begins the next chunk with the byte that told the end of this one.
    pub fn carry(&mut self)
        requires { IsTold self.old.phase }
        ensures { self.new ≡ carried_from self.old.phase }
    {
        let told = self.phase;
        self.bytes.clear();
        self.phase = Phase::Within;
        if let Phase::Told(byte) = told {
            self.bytes.push_reserved(byte);
        }
    }

    /// The bytes of the chunk as far as it is read, a doubled `!` as one.
    pub fn text(&self) -> &[u8]
        ensures { result.now ≡ self.now.bytes }
    {
        self.bytes.as_slice()
    }
}
