// The header of a group, written with single spaces.
ghost use Rattle.std.specs.Prelude.{◌≡◌, ◌≤◌, ◌++◌, IfOk, length, take, drop};
ghost use Rattle.st_chunk.specs.Groups.{is_name};
ghost use Rattle.st_changes.specs.Entries.{FindsSide, FindsHeader};

use crate::run::find_run;
use st_chunk::word_length;
use st_scan::Text;
use std::alloc::{AllocError, Global};

/// A class, a side of it and a category.
#[derive(Drop)]
pub(crate) struct GroupHeader {
    pub(crate) class: Text,
    pub(crate) meta: bool,
    pub(crate) category: Text,
}

/// Whether the text names the class side, and how many bytes stand before the category's. None where the text doesn't go
/// on as a header does behind its class.
fn find_side(text: &[u8]) -> Option<(bool, usize)>
    ensures { FindsSide text.now result }
{
    if text.starts_with(b" class methodsFor: '") {
        Some((true, 20))
    } else if text.starts_with(b" methodsFor: '") {
        Some((false, 14))
    } else {
        None
    }
}

/// The header that a text is, or none.
pub(crate) fn find_header(alloc: Global, text: &[u8]) -> Result<Option<GroupHeader>, AllocError>
    ensures { IfOk result (FindsHeader text.now) }
{
    let end = word_length(text);
    if end == 0 || !text[0].is_ascii_alphabetic() {
        return Ok(None);
    }
    let Some((meta, length)) = find_side(&text[end..]) else {
        return Ok(None);
    };
    let start = end + length;
    let Some(category) = find_run(alloc, &text[start..], b'\'')? else {
        return Ok(None);
    };
    if start + category.length < text.len() {
        return Ok(None);
    }
    let mut class = Text::new(alloc);
    class.extend_from_slice(&text[..end])?;
    Ok(Some(GroupHeader {
        class,
        meta,
        category: category.bytes,
    }))
}
