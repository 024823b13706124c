// A script, byte by byte.
ghost use Rattle.std.specs.Prelude.{◌≡◌, Some, IfOk, IfSome};
ghost use Rattle.st_chunk.specs.Definitions.{IsDefinition};
ghost use Rattle.st_chunk.specs.declared.request.Request.TheVariants.{Browse as Browses, Define as Defines};
ghost use Rattle.st_chunk.specs.Lines.{IsInRange};
ghost use Rattle.st_chunk.specs.Reading.{line_from, read, end_read};
ghost use Rattle.st_chunk.specs.Scripts.{IsBrowsed, HasAsk, IsDefined, HasDefinition};

use crate::ask::LentAsk;
use crate::browsing::line_ask;
use crate::buffer::Buffer;
use crate::chunk::Chunk;
use crate::heading::trimmed;
use crate::progress::{Mode, Progress};
use crate::request::Request;
use std::alloc::{AllocError, Global};
use std::marker::Model;

/// A method of a group, in the reader's memory.
#[derive(Clone, Copy)]
pub struct LentDefinition<'a> {
    /// The name of the class.
    pub class: &'a [u8],
    /// Whether it is a method of the class side.
    pub meta: bool,
    /// The category.
    pub category: &'a [u8],
    /// The text of the method, without blanks at its ends.
    pub text: &'a [u8],
}

/// A script as far as it is read. All memory is taken at the beginning.
#[derive(Drop)]
pub struct Reader {
    progress: Progress,
}

impl Model for Reader {
    ghost use Rattle.st_chunk.specs.Reading.{Reading};
    ghost use Rattle.st_chunk.specs.Scripts.{IsSound};
    ghost use Rattle.st_chunk.specs.inside.Progress.{reading_of, IsKept};

    ghost Value = { Reading };

    ghost view = { λ r. reading_of r.progress };

    ghost invariant = { λ r. IsKept r.progress × IsSound (reading_of r.progress).place };
}

impl Reader {
    ghost use Rattle.st_chunk.specs.Asks.{ask_of};
    ghost use Rattle.st_chunk.specs.inside.ScriptDefinitions.{definition_of};

    /// The beginning of a script.
    pub fn new(alloc: Global) -> Result<Reader, AllocError>
        ensures { IfOk result (λ r. r ≡ line_from 1) }
    {
        Ok(Reader {
            progress: Progress {
                mode: Mode::Line,
                text: Buffer::new(alloc)?,
                class_length: 0,
                meta: false,
                chunk: Chunk::new(alloc)?,
                line: 1,
                start: 1,
            },
        })
    }

    /// One byte more, and what is asked for once it is read. The end of a method is told by the byte behind its `!`.
    /// Behind `end` and what is wrong nothing is asked for.
    pub fn feed(&mut self, byte: u8) -> Option<Request>
        ensures read { self.new ≡ (read self.old byte).0 }
        ensures told { result ≡ (read self.old byte).1 }
        ensures browsed { result ≡ Some Browses → IsBrowsed self.new.place }
        ensures defined { result ≡ Some Defines → IsDefined self.new.place }
        ensures range { IfSome result IsInRange }
    {
        self.progress.read(byte)
    }

    /// The end of the script, and what is asked for there. Behind a definition the end comes once more.
    pub fn finish(&mut self) -> Option<Request>
        ensures read { self.new ≡ (end_read self.old).0 }
        ensures told { result ≡ (end_read self.old).1 }
        ensures browsed { result ≡ Some Browses → IsBrowsed self.new.place }
        ensures defined { result ≡ Some Defines → IsDefined self.new.place }
        ensures range { IfSome result IsInRange }
    {
        self.progress.finish()
    }

    /// What was asked to be looked at, until the next byte.
    #[tactic(auto, using(crate::proofs::Held::held))]
    pub fn ask(&self) -> LentAsk<'_>
        requires { IsBrowsed self.now.place }
        ensures { HasAsk self.now.place (ask_of result) }
    {
        line_ask(self.progress.text.as_slice()).unwrap()
    }

    /// The definition that was asked for, until the next byte.
    pub fn definition(&self) -> LentDefinition<'_>
        requires { IsDefined self.now.place }
        ensures is { HasDefinition self.now.place (definition_of result) }
        ensures good { IsDefinition (definition_of result) }
    {
        let progress = &self.progress;
        let text = progress.text.as_slice();
        LentDefinition {
            class: &text[..progress.class_length],
            meta: progress.meta,
            category: &text[progress.class_length..],
            text: trimmed(progress.chunk.text()),
        }
    }
}
