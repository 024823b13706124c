//! The text of a method, line by line.

ghost use Rattle.std.specs.Prelude.{◌≡◌, length};
ghost use Rattle.std.specs.List.{flat_map};
ghost use Rattle.st_call.specs.inside.Saying.{Pushes};
ghost use Rattle.st_browse.specs.Sources.{lines_of, source_byte, source_text};

use st_call::{Output, Pushed, push_escaped, push_long_line};
use st_host::Host;

/// How many lines a text has.
fn count_lines(text: &[u8]) -> usize
    ensures { result ≡ length (lines_of text.now) }
{
    let mut count = 1;
    for byte in text {
        if *byte == b'\n' {
            count += 1;
        }
    }
    count
}

/// Adds a byte of a text: a line feed ends a line and begins the next one, and others are escaped.
fn push_source_byte<H: Host>(out: &mut Output, host: &mut H, byte: u8) -> Pushed
    ensures { Pushes H.Host.own (source_byte byte) host.old host.new out.old out.new result }
{
    if byte == b'\n' {
        out.push(host, b"\n| ")
    } else {
        push_escaped(out, host, byte)
    }
}

/// Adds the bytes of a text.
fn push_source_bytes<H: Host>(out: &mut Output, host: &mut H, text: &[u8]) -> Pushed
    ensures { let bytes = flat_map source_byte text.now in
        Pushes H.Host.own bytes host.old host.new out.old out.new result }
{
    for byte in text {
        push_source_byte(out, host, *byte)?;
    }
    Ok(())
}

/// Adds how many lines a text has, and each of them.
pub fn push_source<H: Host>(out: &mut Output, host: &mut H, text: &[u8]) -> Pushed
    ensures { Pushes H.Host.own (source_text text.now) host.old host.new out.old out.new result }
{
    push_long_line(out, host, b"source", count_lines(text) as u64)?;
    out.push(host, b"| ")?;
    push_source_bytes(out, host, text)?;
    out.push(host, b"\n")
}
