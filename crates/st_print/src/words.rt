//! Words that are put behind a text, each with a space before it.

ghost use Rattle.std.specs.Prelude.{◌≡◌, ◌++◌, ◌∷◌, [], OnOk};
ghost use Rattle.std.specs.Str.{byte};
ghost use Rattle.st_scan.specs.Pieces.{doubled};
ghost use Rattle.st_print.specs.Words.{number_text, string_text};

use itoa::Buffer;
use st_scan::{Signed, Text};
use std::alloc::AllocError;

/// Puts a word.
pub fn put(out: &mut Text, word: &[u8]) -> Result<(), AllocError>
    ensures { OnOk result (out.new.items ≡ out.old.items ++ byte " " ∷ word.now) }
{
    out.push(b' ')?;
    out.extend_from_slice(word)
}

/// Puts a number in decimal.
pub fn put_number(out: &mut Text, number: Signed) -> Result<(), AllocError>
    ensures { OnOk result (out.new.items ≡ out.old.items ++ byte " " ∷ number_text number) }
{
    let mut buffer = Buffer::new();
    if number.minus {
        put(out, b"-")?;
    } else {
        put(out, b"")?;
    }
    out.extend_from_slice(buffer.format(number.size).as_bytes())
}

/// Adds bytes with each quote doubled.
fn add_doubled(out: &mut Text, text: &[u8]) -> Result<(), AllocError>
    ensures { OnOk result (out.new.items ≡ out.old.items ++ doubled text.now) }
{
    for byte in text {
        out.push(*byte)?;
        if *byte == b'\'' {
            out.push(*byte)?;
        }
    }
    Ok(())
}

/// Puts a string.
pub fn put_string(out: &mut Text, text: &[u8]) -> Result<(), AllocError>
    ensures { OnOk result (out.new.items ≡ out.old.items ++ byte " " ∷ string_text text.now) }
{
    put(out, b"'")?;
    add_doubled(out, text)?;
    out.push(b'\'')?;
    Ok(())
}

/// Puts a symbol.
pub fn put_symbol(out: &mut Text, text: &[u8]) -> Result<(), AllocError>
    ensures { OnOk result (out.new.items ≡ out.old.items ++ byte " " ∷ byte "#" ∷ text.now) }
{
    put(out, b"#")?;
    out.extend_from_slice(text)
}
