// What the version of an image settles.
ghost use Rattle.std.specs.Prelude.{◌≡◌, ◌≤◌};
ghost use Rattle.st_model.specs.Image.{form_of};

use st_model::{ImageHead, MOST_WORDS};

/// The most words that an object space of version 1 may have: its 16 segments have 65,536 each.
const MOST_IN_SEGMENTS: u32 = 1_048_576;

/// How many words an entry of the table has.
#[tactic(auto, unfolding(st_model::specs::Image::form_of))]
pub fn entry_width(head: ImageHead) -> u32
    ensures width { result ≡ (form_of head).width }
    ensures some { 2 ≤ result }
    ensures few { result ≤ 3 }
{
    if head.version == 2 { 3 } else { 2 }
}

/// The most words that the object space may have, and that may be asked for.
#[tactic(auto, unfolding(st_model::specs::Image::form_of))]
pub fn most_words_of(head: ImageHead) -> u32
    ensures { result ≡ (form_of head).most }
{
    if head.version == 2 {
        MOST_WORDS
    } else {
        MOST_IN_SEGMENTS
    }
}
