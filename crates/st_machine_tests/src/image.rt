ghost use Rattle.std.specs.Prelude.{◌≡◌, IfOk};
ghost use Rattle.st_model.specs.View.{no_devices};
ghost use Rattle.st_frames.specs.{inside.Shown.{IsFrame, IsReady}, Naming.IsNaming};

use st_frames::Loaded;
use st_image::{HeadValues, ReadImage, read};
use st_input::World;
use st_memory::Loader;
use std::alloc::{AllocError, Global};

/// Words of a file, each row of them from its place on.
pub type Parts<'a> = &'a [(usize, &'a [u16])];

/// How many words a file has, what they are, and which are others: zeros where nothing is said.
pub type Plan<'a> = (usize, Parts<'a>, Parts<'a>);

/// Image B, with the greatest capacities and no tables of names: 20 objects of the root page, an association, a scheduler with one
/// process, its context, and a method without literals and with five bytes; and the table, two words an entry. The pointers 10,
/// 18, 20, 30, 36, 38, 46 and 54 are free.
const FILE_OF_B: Parts<'static> = &[
    (0, &[0, 78, 0, 66, 0x5354, 0x3830, 0, 1, 0, 32767, 16, 0]),
    (
        256,
        &[
            2, 12, 2, 12, 2, 12, 4, 12, 2, 58, 2, 12, 2, 12, 2, 12, 2, 12, 2, 12, 2, 12, 2, 12, 2,
            12, 2, 12, 2, 12, 2, 12, 2, 12, 2, 12, 2, 12, 2, 12, 2, 12, 4, 12, 2, 60, 6, 12, 2, 62,
            9, 2, 20, 22, 2, 7, 3, 64, 2, 2, 2, 2, 2, 2, 2, 2, 2, 2, 2, 2, 2, 2, 6, 34, 257, 30327,
            26787, 64256,
        ],
    ),
    (
        512,
        &[
            32, 0, 64, 0, 64, 2, 64, 4, 64, 6, 32, 0, 64, 10, 64, 12, 64, 14, 32, 0, 32, 0, 64, 16,
            64, 18, 64, 20, 64, 22, 32, 0, 64, 24, 64, 26, 32, 0, 32, 0, 64, 28, 64, 30, 64, 32,
            32, 0, 64, 34, 64, 36, 64, 38, 32, 0, 64, 40, 64, 42, 64, 46, 64, 52, 128, 72,
        ],
    ),
];

/// Image C: SmallInteger has a superclass and a dictionary with one method, the special selectors one symbol and its number of
/// arguments, and the context a method with one literal.
const FILE_OF_C: Parts<'static> = &[
    (0, &[0, 98, 0, 74, 0x5354, 0x3830, 0, 1, 0, 32767, 16, 0]),
    (
        256,
        &[
            2, 12, 2, 12, 2, 12, 4, 12, 2, 58, 5, 12, 2, 68, 1, 2, 12, 2, 12, 2, 12, 2, 12, 2, 12,
            2, 12, 2, 12, 2, 12, 2, 12, 2, 12, 2, 12, 4, 12, 66, 3, 2, 12, 2, 12, 2, 12, 4, 12, 2,
            60, 6, 12, 2, 62, 9, 2, 20, 22, 2, 11, 1, 64, 2, 2, 2, 2, 2, 2, 2, 2, 2, 2, 2, 2, 2, 2,
            6, 34, 3, 32767, 8310, 45056, 3, 56, 11008, 5, 12, 3, 70, 66, 3, 16, 72, 4, 34, 8449,
            30720,
        ],
    ),
    (
        512,
        &[
            32, 0, 64, 0, 64, 2, 64, 4, 64, 6, 32, 0, 64, 10, 64, 15, 64, 17, 32, 0, 32, 0, 64, 19,
            64, 21, 64, 23, 64, 25, 32, 0, 64, 27, 64, 29, 32, 0, 32, 0, 64, 31, 64, 33, 64, 35,
            32, 0, 64, 37, 64, 41, 64, 43, 32, 0, 64, 45, 64, 47, 64, 51, 64, 57, 128, 77, 128, 83,
            64, 86, 64, 91, 128, 94,
        ],
    ),
];

/// An object under pointer 66 that nothing names.
const UNNAMED: Parts<'static> = &[(1, &[80]), (3, &[68]), (334, &[2, 12]), (578, &[64, 78])];

/// An object of three words under pointer 66 that nothing names.
const WORDS: Parts<'static> = &[
    (1, &[83]),
    (3, &[68]),
    (334, &[5, 16, 0, 0, 65535]),
    (578, &[16, 78]),
];

/// An image.
#[derive(Clone, Copy)]
pub enum Image {
    B,
    C,
    /// Image B with the unnamed object.
    Unnamed,
    /// Image B with the object of words.
    Words,
}

/// What an image is made of.
pub fn plan_of(image: Image) -> Plan<'static> {
    match image {
        Image::B => (578, FILE_OF_B, &[]),
        Image::C => (586, FILE_OF_C, &[]),
        Image::Unnamed => (580, FILE_OF_B, UNNAMED),
        Image::Words => (580, FILE_OF_B, WORDS),
    }
}

/// The word at a place, or else another one.
fn word_at(parts: Parts<'_>, at: usize, other: u16) -> u16 {
    let mut word = other;
    for (place, part) in parts {
        if let Some(found) = part.get(at.wrapping_sub(*place)) {
            word = *found;
        }
    }
    word
}

/// The bytes of a file.
fn file_of(alloc: Global, (length, parts, others): Plan<'_>) -> Result<Vec<u8>, AllocError> {
    let mut bytes = Vec::new(alloc);
    for at in 0..length {
        let word = word_at(others, at, word_at(parts, at, 0));
        bytes.push((word >> 8) as u8)?;
        bytes.push((word & 255) as u8)?;
    }
    Ok(bytes)
}

/// The memory of an image with such capacities, and its registers. It holds these alone.
fn loaded<L: Loader>(
    alloc: Global,
    plan: Plan<'_>,
    entries: u32,
    words: u32,
) -> Result<Loaded<L::Done>, AllocError>
    ensures frame { IfOk result (λ l. IsFrame (L.Done.view l.memory) l.frame) }
    ensures quiet { IfOk result (λ l. (L.Done.view l.memory).held.devices ≡ no_devices) }
{
    let bytes = file_of(alloc, plan)?;
    let over = HeadValues {
        entries: Some(entries),
        words: Some(words),
        ..HeadValues::NONE
    };
    match read::<L>(alloc, &bytes, &over) {
        Ok(loaded) => Ok(loaded),
        Err(ReadImage::Fault(_)) | Err(ReadImage::OutOfMemory) => Err(AllocError),
    }
}

/// The memory of an image with such capacities.
pub fn memory_of<L: Loader>(
    alloc: Global,
    image: Image,
    entries: u32,
    words: u32,
) -> Result<L::Done, AllocError> {
    Ok(loaded::<L>(alloc, plan_of(image), entries, words)?.memory)
}

/// An image with its registers, and a new world. The memory holds these alone.
pub fn ready<L: Loader>(
    alloc: Global,
    plan: Plan<'_>,
) -> Result<(Loaded<L::Done>, World), AllocError>
    ensures { IfOk result (λ p. IsReady (L.Done.view p.0.memory) p.0.frame p.1) }
{
    let loaded = loaded::<L>(alloc, plan, 32767, 1048576)?;
    let world = World::new(alloc)?;
    Ok((loaded, world))
}

/// Image B, in a memory that holds no device, and a new world, so that all that the world names is held.
pub fn quiet_b<L: Loader>(alloc: Global) -> Result<(L::Done, World), AllocError>
    ensures { IfOk result (λ p. IsNaming (L.Done.view p.0).held p.1) }
{
    let (loaded, world) = ready::<L>(alloc, plan_of(Image::B))?;
    Ok((loaded.memory, world))
}
