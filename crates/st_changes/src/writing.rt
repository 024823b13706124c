// The text of an entry, and its length.
ghost use Rattle.std.specs.Prelude.{◌≡◌, ◌≤◌, ◌++◌, ◌^◌, IfOk, OnOk, length};
ghost use Rattle.st_chunk.specs.{Groups.header_text, Definitions.{header_for, IsDefinition, entry}};
ghost use Rattle.st_changes.specs.{inside.Runs.doubled_by, inside.Views.definition_of, Entries.side_front};

use crate::Definition;
use st_scan::Text;
use std::alloc::{AllocError, Global};

/// Puts bytes behind a text, each mark doubled.
fn put_doubled(text: &mut Text, bytes: &[u8], mark: u8) -> Result<(), AllocError>
    ensures { OnOk result (text.new.items ≡ text.old.items ++ doubled_by mark bytes.now) }
{
    for byte in bytes {
        text.push(*byte)?;
        if *byte == mark {
            text.push(*byte)?;
        }
    }
    Ok(())
}

/// What a header has behind its class, up to the category's first byte.
fn side_front(meta: bool) -> &'static [u8]
    ensures value { result.now ≡ side_front meta }
    ensures short { length result.now ≤ 20 }
{
    if meta {
        b" class methodsFor: '"
    } else {
        b" methodsFor: '"
    }
}

/// The header for a definition, with single spaces.
fn header_text(alloc: Global, definition: &Definition) -> Result<Text, AllocError>
    ensures { IfOk result (λ text. text.items ≡ header_text (header_for (definition_of definition.now))) }
{
    let mut text = Text::new(alloc);
    text.extend_from_slice(&definition.class)?;
    text.extend_from_slice(side_front(definition.meta))?;
    put_doubled(&mut text, &definition.category, b'\'')?;
    text.push(b'\'')?;
    Ok(text)
}

/// The entry of a definition.
pub(crate) fn entry_text(alloc: Global, definition: &Definition) -> Result<Text, AllocError>
    ensures { IfOk result (λ text. text.items ≡ entry (definition_of definition.now)) }
{
    let header = header_text(alloc, definition)?;
    let mut text = Text::new(alloc);
    text.push(b'!')?;
    put_doubled(&mut text, &header, b'!')?;
    text.extend_from_slice(b"!\n")?;
    put_doubled(&mut text, &definition.text, b'!')?;
    text.extend_from_slice(b"! !\n")?;
    Ok(text)
}

/// The length of bytes of which each mark is doubled.
pub(crate) fn doubled_length(bytes: &[u8], mark: u8) -> usize
    requires { length bytes.now ≤ 2 ^ 32 }
    ensures exact { result ≡ length (doubled_by mark bytes.now) }
    ensures within { result ≤ 2 ^ 33 }
    ensures least { length bytes.now ≤ result }
{
    let mut length = 0;
    for byte in bytes {
        length += if *byte == mark { 2 } else { 1 };
    }
    length
}

/// The length of the entry of a definition.
pub(crate) fn entry_length(definition: &Definition) -> u64
    requires { IsDefinition (definition_of definition.now) }
    ensures { result ≡ length (entry (definition_of definition.now)) }
{
    let category = &definition.category;
    let quotes = doubled_length(category, b'\'') - category.len();
    let front = definition.class.len() + side_front(definition.meta).len();
    let header = front + doubled_length(category, b'!') + quotes + 1;
    (header + doubled_length(&definition.text, b'!') + 7) as u64
}
