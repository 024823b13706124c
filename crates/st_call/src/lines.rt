ghost use Rattle.std.specs.Prelude.{◌≡◌, ◌++◌, codes, decimal, map};
ghost use Rattle.st_model.specs.Values.{value};
ghost use Rattle.st_model.specs.Text.{values_text, numbers_text};
ghost use Rattle.st_call.specs.inside.Saying.{Pushes};

use crate::output::{Output, Pushed};
use crate::report_words::{push_long_number, push_number, push_value};
use st_host::Host;
use st_model::Oop;

/// Adds each of the values after a space.
pub fn push_values<H: Host>(out: &mut Output, host: &mut H, values: &[Oop]) -> Pushed
    ensures { let text = values_text (map value values.now) in
        Pushes H.Host.own text host.old host.new out.old out.new result }
{
    for o in values {
        push_value(out, host, *o)?;
    }
    Ok(())
}

/// Adds each of the numbers after a space.
fn push_numbers<H: Host>(out: &mut Output, host: &mut H, numbers: &[u32]) -> Pushed
    ensures { Pushes H.Host.own (numbers_text numbers.now) host.old host.new out.old out.new result }
{
    for n in numbers {
        push_number(out, host, *n)?;
    }
    Ok(())
}

/// Adds a line of a word and values.
pub fn push_values_line<H: Host>(
    out: &mut Output,
    host: &mut H,
    word: &[u8],
    values: &[Oop],
) -> Pushed
    ensures { let text = word.now ++ (values_text (map value values.now) ++ codes "\n") in
        Pushes H.Host.own text host.old host.new out.old out.new result }
{
    out.push(host, word)?;
    push_values(out, host, values)?;
    out.push(host, b"\n")
}

/// Adds a line of a word and numbers.
pub fn push_line<H: Host>(out: &mut Output, host: &mut H, word: &[u8], numbers: &[u32]) -> Pushed
    ensures { let text = word.now ++ (numbers_text numbers.now ++ codes "\n") in
        Pushes H.Host.own text host.old host.new out.old out.new result }
{
    out.push(host, word)?;
    push_numbers(out, host, numbers)?;
    out.push(host, b"\n")
}

/// Adds a line of a word and a number of up to 64 bits.
pub fn push_long_line<H: Host>(out: &mut Output, host: &mut H, word: &[u8], number: u64) -> Pushed
    ensures { let text = word.now ++ ((codes " " ++ decimal number) ++ codes "\n") in
        Pushes H.Host.own text host.old host.new out.old out.new result }
{
    out.push(host, word)?;
    push_long_number(out, host, number)?;
    out.push(host, b"\n")
}
