// Bytes up to a mark that stands alone, where two marks stand for one.
ghost use Rattle.std.specs.Prelude.{IfOk};
ghost use Rattle.st_changes.specs.inside.Runs.{FindsRun};

use st_scan::Text;
use std::alloc::{AllocError, Global};

/// The bytes before a mark that stands alone, each doubled mark as one, and how many bytes of the text they and that
/// mark are.
#[derive(Drop)]
pub(crate) struct Run {
    pub(crate) bytes: Text,
    pub(crate) length: usize,
}

/// The bytes of a text up to the first mark that stands alone, or none where no mark does.
pub(crate) fn find_run(alloc: Global, text: &[u8], mark: u8) -> Result<Option<Run>, AllocError>
    ensures { IfOk result (FindsRun mark text.now) }
{
    let mut bytes = Text::new(alloc);
    let mut at = 0;
    while at < text.len() {
        let byte = text[at];
        if byte != mark {
            bytes.push(byte)?;
            at += 1;
        } else if at + 1 < text.len() && text[at + 1] == mark {
            bytes.push(byte)?;
            at += 2;
        } else {
            return Ok(Some(Run {
                bytes,
                length: at + 1,
            }));
        }
    }
    Ok(None)
}
