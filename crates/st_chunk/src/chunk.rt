// The chunk of a group that is read.
ghost use Rattle.std.specs.Prelude.{◌≡◌, ◌≤◌, [], length, IfOk};
ghost use Rattle.st_chunk.specs.declared.cutting.Phase.TheVariants.{Within, Told};
ghost use Rattle.st_chunk.specs.declared.cutting.Fed.TheVariants.{Chunk as Ended, More};
ghost use Rattle.st_chunk.specs.Texts.{most, is_empty};
ghost use Rattle.st_chunk.specs.Feeding.{start, fed, finished, carried_from, answer, last_answer, MayGoOn, IsTold};

use crate::cutting::{Chunks, Fed};
use crate::line::{is_blank, is_empty};
use std::alloc::{AllocError, Global};
use std::marker::Model;

/// A chunk as far as it is read, and whether it has blanks alone.
#[derive(Drop)]
pub(crate) struct Chunk {
    chunks: Chunks,
    blank: bool,
}

impl Model for Chunk {
    ghost use Rattle.std.specs.Prelude.{◌≡◌};
    ghost use Rattle.st_chunk.specs.Texts.{is_empty};
    ghost use Rattle.st_chunk.specs.Feeding.{State};

    ghost Value = { State };

    ghost view = { λ c. c.chunks };

    ghost invariant = { λ c. c.blank ≡ is_empty c.chunks.bytes };
}

impl Chunk {
    /// Nothing is read.
    pub(crate) fn new(alloc: Global) -> Result<Chunk, AllocError>
        ensures { IfOk result (λ c. c ≡ start) }
    {
        Ok(Chunk {
            chunks: Chunks::new(alloc)?,
            blank: true,
        })
    }

    /// One byte more, and what it tells.
    #[tactic(auto, using(crate::proofs::FedBytes::fed_rules))]
    pub(crate) fn feed(&mut self, byte: u8) -> Fed
        requires { MayGoOn self.old.phase }
        ensures read { self.new ≡ fed self.old byte }
        ensures told { result ≡ answer (fed self.old byte).phase }
        ensures ended { result ≡ Ended → self.new.phase ≡ Told byte }
        ensures open { result ≡ More → MayGoOn self.new.phase }
        ensures short { length self.old.bytes ≤ most → length self.new.bytes ≤ most }
    {
        let length = self.chunks.text().len();
        let told = self.chunks.feed(byte);
        self.blank = self.blank && (self.chunks.text().len() == length || is_blank(byte));
        told
    }

    /// Begins the next chunk with the byte that told the end of this one.
    #[tactic(auto, using(crate::proofs::FedBytes::fed_rules))]
    pub(crate) fn carry(&mut self)
        requires { IsTold self.old.phase }
        ensures carried { self.new ≡ carried_from self.old.phase }
        ensures within { self.new.phase ≡ Within }
    {
        self.chunks.carry();
        self.blank = is_empty(self.chunks.text());
    }

    /// The end of the script, and what it tells.
    pub(crate) fn finish(&mut self) -> Fed
        requires { MayGoOn self.old.phase }
        ensures read { self.new ≡ finished self.old }
        ensures told { result ≡ last_answer self.old.phase }
    {
        self.chunks.finish()
    }

    /// Whether it has blanks alone.
    pub(crate) fn is_blank(&self) -> bool
        ensures { result ≡ is_empty self.now.bytes }
    {
        self.blank
    }

    /// The bytes.
    pub(crate) fn text(&self) -> &[u8]
        ensures { result.now ≡ self.now.bytes }
    {
        self.chunks.text()
    }
}
