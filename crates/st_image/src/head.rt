ghost use Rattle.std.specs.Prelude.{◌≡◌, ◌≤◌, length};
ghost use Rattle.st_model.specs.Image.{has_letters, image_head};
ghost use Rattle.st_image.specs.HeadValues.{head_over};

use crate::numbers::read32;
use st_model::ImageHead;

/// Values that take the place of those in an image's head, or of those that an image without letters has.
#[derive(Clone, Copy, Debug, PartialEq, Eq)]
pub struct HeadValues {
    /// How many entries the memory is to have.
    pub entries: Option<u32>,
    /// How many words the memory is to have.
    pub words: Option<u32>,
    /// The pointer of the global name table; 0 for none.
    pub globals: Option<u32>,
    /// The pointer of the symbol table; 0 for none.
    pub symbols: Option<u32>,
}

impl HeadValues {
    /// No values: all are those of the image.
    pub const NONE: HeadValues = HeadValues {
        entries: None,
        words: None,
        globals: None,
        symbols: None,
    };
}

/// Whether a file has the letters `ST80` at byte 8.
#[tactic(auto, unfolding(st_model::specs::Image::has_letters))]
pub fn has_letters(bytes: &[u8]) -> bool
    ensures { result ≡ has_letters bytes.now }
{
    bytes.len() > 8 && bytes[8..].starts_with(b"ST80")
}

/// What the head of a file says.
#[tactic(auto, unfolding(st_model::specs::Image::image_head))]
fn read_head(bytes: &[u8]) -> ImageHead
    requires { 512 ≤ length bytes.now }
    ensures { result ≡ image_head bytes.now }
{
    let space = read32(bytes, 0);
    let table = read32(bytes, 4);
    if has_letters(bytes) {
        ImageHead {
            space,
            table,
            version: read32(bytes, 12),
            entries: read32(bytes, 16),
            words: read32(bytes, 20),
            globals: read32(bytes, 24),
            symbols: read32(bytes, 28),
        }
    } else {
        ImageHead {
            space,
            table,
            version: 1,
            entries: 32767,
            words: 1_048_576,
            globals: 0,
            symbols: 0,
        }
    }
}

/// What the head of a file says, with handed-in values in place.
#[tactic(auto, unfolding(crate::specs::HeadValues::head_over))]
pub fn read_head_over(bytes: &[u8], over: &HeadValues) -> ImageHead
    requires { 512 ≤ length bytes.now }
    ensures { result ≡ head_over over.now bytes.now }
{
    let head = read_head(bytes);
    ImageHead {
        entries: over.entries.unwrap_or(head.entries),
        words: over.words.unwrap_or(head.words),
        globals: over.globals.unwrap_or(head.globals),
        symbols: over.symbols.unwrap_or(head.symbols),
        ..head
    }
}
