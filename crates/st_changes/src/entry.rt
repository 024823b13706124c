// The entries of a changes file.
ghost use Rattle.std.specs.Prelude.{IfOk, ◌≡◌};
ghost use Rattle.st_chunk.specs.Texts.{is_blank};
ghost use Rattle.st_changes.specs.Entries.{FindsHead, FindsMethod, is_text};
ghost use Rattle.st_changes.specs.inside.FoundEntries.{FindsEntry};

use crate::Definition;
use crate::header::{GroupHeader, find_header};
use crate::run::find_run;
use st_scan::Text;
use std::alloc::{AllocError, Global};

/// The most bytes of a header and of a method's text.
const MOST: usize = 65_536;

#[derive(Drop)]
struct Head {
    header: GroupHeader,
    length: usize,
}

#[derive(Drop)]
struct Method {
    text: Text,
    length: usize,
}

/// A definition, and the length of its entry.
#[derive(Drop)]
pub(crate) struct Found {
    pub(crate) definition: Definition,
    pub(crate) length: usize,
}

/// What an entry has up to its method's text, or none where the text doesn't begin with it.
fn find_head(alloc: Global, text: &[u8]) -> Result<Option<Head>, AllocError>
    ensures { IfOk result (FindsHead text.now) }
{
    if text.is_empty() || text[0] != b'!' {
        return Ok(None);
    }
    let Some(run) = find_run(alloc, &text[1..], b'!')? else {
        return Ok(None);
    };
    let end = 1 + run.length;
    if run.bytes.len() > MOST || end == text.len() || text[end] != b'\n' {
        return Ok(None);
    }
    let Some(header) = find_header(alloc, &run.bytes)? else {
        return Ok(None);
    };
    Ok(Some(Head {
        header,
        length: end + 1,
    }))
}

/// Whether a byte is a blank.
fn is_blank(byte: u8) -> bool
    ensures { result ≡ is_blank byte }
{
    byte == 9 || byte == 10 || byte == 12 || byte == 13 || byte == 32
}

/// Whether a method may have this text: it is there, not too long, and has no blank at its ends.
fn is_text(text: &[u8]) -> bool
    ensures { result ≡ is_text text.now }
{
    !text.is_empty() && text.len() <= MOST && !is_blank(text[0]) && !is_blank(text[text.len() - 1])
}

/// A method's text with what closes its group, or none where the text doesn't begin with them.
fn find_method(alloc: Global, text: &[u8]) -> Result<Option<Method>, AllocError>
    ensures { IfOk result (FindsMethod text.now) }
{
    let Some(run) = find_run(alloc, text, b'!')? else {
        return Ok(None);
    };
    if !is_text(&run.bytes) || !text[run.length..].starts_with(b" !\n") {
        return Ok(None);
    }
    Ok(Some(Method {
        length: run.length + 3,
        text: run.bytes,
    }))
}

/// The definition whose entry a text begins with, or none.
pub(crate) fn find_entry(alloc: Global, text: &[u8]) -> Result<Option<Found>, AllocError>
    ensures { IfOk result (FindsEntry text.now) }
{
    let Some(head) = find_head(alloc, text)? else {
        return Ok(None);
    };
    let Some(method) = find_method(alloc, &text[head.length..])? else {
        return Ok(None);
    };
    let GroupHeader {
        class,
        meta,
        category,
    } = head.header;
    Ok(Some(Found {
        definition: Definition {
            class,
            meta,
            category,
            text: method.text,
        },
        length: head.length + method.length,
    }))
}
