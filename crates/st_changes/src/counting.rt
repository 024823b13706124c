// Definitions and places of their changes file.
ghost use Rattle.std.specs.Prelude.{◌≡◌, ◌≤◌, ◌<◌, ◌^◌, ℕ, Bool, List, All, length, take};
ghost use Rattle.st_chunk.specs.Definitions.{IsDefinition, entries};
ghost use Rattle.st_changes.specs.inside.Views.{definitions_of};
ghost use Rattle.st_changes.specs.{Lists.StandsAt, Last.{IsLast, IsLastSpan}};

use crate::Definition;
use crate::span::Span;
use crate::writing::{doubled_length, entry_length};

/// How many of these definitions stand before a place, which is the first byte of one's entry, or their end.
pub(crate) fn count_before(listed: &[Definition], place: u64) -> usize
    requires good { All IsDefinition (definitions_of listed.now) }
    requires stands { StandsAt (definitions_of listed.now) place }
    ensures within { result ≤ length (definitions_of listed.now) }
    ensures before { place ≡ length (entries (take result (definitions_of listed.now))) }
{
    let mut at = 0;
    for (i, definition) in listed.iter().enumerate() {
        if at == place {
            return i;
        }
        at += entry_length(definition);
    }
    listed.len()
}

/// How many bytes the entries of these definitions have.
fn entries_length(listed: &[Definition]) -> u64
    requires good { All IsDefinition (definitions_of listed.now) }
    requires fits { length (entries (definitions_of listed.now)) < 2 ^ 64 }
    ensures { result ≡ length (entries (definitions_of listed.now)) }
{
    let mut end = 0;
    for definition in listed {
        end += entry_length(definition);
    }
    end
}

/// The place in a changes file, which has these entries up to this end, of the text of the definition of this number.
pub(crate) fn text_span(listed: &[Definition], number: usize, end: u64) -> Span
    requires good { All IsDefinition (definitions_of listed.now) }
    requires within { number < length listed.now }
    requires ends { end ≡ length (entries (definitions_of listed.now)) }
    ensures { (c : List ℕ) (m : Bool) (s : List ℕ) → IsLast (definitions_of listed.now) c m s number
        → IsLastSpan (definitions_of listed.now) c m s result }
{
    let definition = &listed[number];
    let length = doubled_length(&definition.text, b'!') as u64;
    let after = entries_length(&listed[number + 1..]);
    Span {
        at: end - after - length - 4,
        length,
    }
}
