// A whole kernel text.
ghost use Rattle.std.specs.Prelude.{◌≡◌, ◌++◌, ◌∷◌, List, ℕ, IfOk};
ghost use Rattle.st_kernel_text.specs.{Forms.behind_part, Texts.account};
ghost use Rattle.st_kernel_text.specs.inside.Reading.{Tells, begun, account_behind, end_of, complete};
ghost use Rattle.st_kernel_text.specs.{inside.Views.{account_of, part_of}, inside.States.state_of};

use crate::cause::{Cause, Stop};
use crate::declarations::Declarations;
use crate::form::part_at;
use crate::known::Known;
use crate::part::Part;
use crate::place::ChunkPlace;
use st_chunk::{Chunks, Fed, is_empty};
use std::alloc::{AllocError, Global};

/// What the chunks of a kernel text say, one part a chunk, up to the first chunk that is wrong, and why that one is.
#[derive(Drop)]
pub struct Kernel {
    pub parts: Vec<Part>,
    /// The names that these parts declare.
    pub names: Declarations,
    /// The cause at the chunk behind these parts, and none where the whole text is right.
    pub cause: Option<Cause>,
}

/// A text as far as it is read.
#[derive(Drop)]
struct Reader {
    place: ChunkPlace,
    known: Known,
    parts: Vec<Part>,
}

/// Where the chunk behind a part stands.
fn behind_part(part: &Part) -> ChunkPlace
    ensures { result ≡ behind_part (part_of part.now) }
{
    match part {
        Part::Class(_) | Part::Pool(_) | Part::Global(_) => ChunkPlace::Declarations,
        Part::Opening => ChunkPlace::Header,
        Part::Header(_) | Part::Method(_) => ChunkPlace::Methods,
        Part::Closing => ChunkPlace::Groups,
        Part::Start(_) => ChunkPlace::End,
    }
}

impl Reader {
    /// One chunk more.
    fn read_chunk(&mut self, alloc: Global, chunk: &[u8]) -> Result<(), Stop>
        ensures { (chunks : List (List ℕ)) (rest : List ℕ) →
            Tells (account_behind (state_of self.old) (chunk.now ∷ chunks) rest)
            (λ s. account_behind s chunks rest) (state_of self.new) result }
    {
        let Some(part) = part_at(alloc, self.place, chunk)? else {
            return Err(Stop::At(Cause::Form));
        };
        let number = self.parts.as_slice().len();
        self.known.add(alloc, self.place, number, &part)?;
        self.place = behind_part(&part);
        self.parts.push(part)?;
        Ok(())
    }

    /// The end of the text, before which this rest is no chunk.
    fn end(&self, rest: &[u8]) -> Result<(), Stop>
        ensures { Tells (end_of (state_of self.now) rest.now) complete (state_of self.now) result }
    {
        if self.place == ChunkPlace::End && is_empty(rest) {
            Ok(())
        } else {
            Err(Stop::At(Cause::Form))
        }
    }

    /// The end of the text, before which these bytes of a chunk and this rest are none that ends, or one that is too long.
    fn end_long(&self, chunk: &[u8], rest: &[u8]) -> Result<(), Stop>
        ensures { Tells (end_of (state_of self.now) (chunk.now ++ rest.now)) complete
            (state_of self.now) result }
    {
        if is_empty(chunk) {
            self.end(rest)
        } else {
            Err(Stop::At(Cause::Form))
        }
    }

    /// The whole text.
    fn read_text(&mut self, alloc: Global, text: &[u8]) -> Result<(), Stop>
        requires { state_of self.old ≡ begun }
        ensures { Tells (account text.now) complete (state_of self.new) result }
    {
        let mut chunk = Chunks::new(alloc)?;
        for (at, byte) in text.iter().enumerate() {
            match chunk.feed(*byte) {
                Fed::More => {}
                Fed::Chunk => {
                    self.read_chunk(alloc, chunk.text())?;
                    chunk.carry();
                }
                Fed::Long => return self.end_long(chunk.text(), &text[at..]),
            }
        }
        match chunk.finish() {
            Fed::Chunk => {
                self.read_chunk(alloc, chunk.text())?;
                self.end(&[])
            }
            Fed::More | Fed::Long => self.end(chunk.text()),
        }
    }
}

/// What a kernel text declares and defines, up to the first chunk that is wrong.
pub fn read(alloc: Global, text: &[u8]) -> Result<Kernel, AllocError>
    ensures { IfOk result (λ k. account_of k ≡ account text.now) }
{
    let mut reader = Reader {
        place: ChunkPlace::Declarations,
        known: Known::new(alloc),
        parts: Vec::new(alloc),
    };
    match reader.read_text(alloc, text) {
        Ok(()) => Ok(Kernel {
            parts: reader.parts,
            names: reader.known.names,
            cause: None,
        }),
        Err(Stop::At(cause)) => Ok(Kernel {
            parts: reader.parts,
            names: reader.known.names,
            cause: Some(cause),
        }),
        Err(Stop::OutOfMemory) => Err(AllocError),
    }
}
