//! Files of images and stores.

use st_memory_host::MemHost;
use std::alloc::Global;
use std::process::Abort;

/// A file: bytes, each row of them from its place on, and zeros between.
pub type Parts<'a> = &'a [(usize, &'a [u8])];

/// Files by their names.
pub type Files<'a> = &'a [(&'a str, Parts<'a>)];

/// Image B (`images/B.txt`): 20 objects of the root page, an association, a scheduler with one process, its context, and a
/// method without literals and with five bytes; and the table.
pub const IMAGE_B: Parts<'static> = &[
    (
        0,
        &[
            0, 0, 0, 78, 0, 0, 0, 66, 83, 84, 56, 48, 0, 0, 0, 1, 0, 0, 127, 255, 0, 16, 0, 0, 0,
            0, 0, 0, 0, 0, 0, 0,
        ],
    ),
    (
        512,
        &[
            0, 2, 0, 12, 0, 2, 0, 12, 0, 2, 0, 12, 0, 4, 0, 12, 0, 2, 0, 58, 0, 2, 0, 12, 0, 2, 0,
            12, 0, 2, 0, 12, 0, 2, 0, 12, 0, 2, 0, 12, 0, 2, 0, 12, 0, 2, 0, 12, 0, 2, 0, 12, 0, 2,
            0, 12, 0, 2, 0, 12, 0, 2, 0, 12, 0, 2, 0, 12, 0, 2, 0, 12, 0, 2, 0, 12, 0, 2, 0, 12, 0,
            2, 0, 12, 0, 4, 0, 12, 0, 2, 0, 60, 0, 6, 0, 12, 0, 2, 0, 62, 0, 9, 0, 2, 0, 20, 0, 22,
            0, 2, 0, 7, 0, 3, 0, 64, 0, 2, 0, 2, 0, 2, 0, 2, 0, 2, 0, 2, 0, 2, 0, 2, 0, 2, 0, 2, 0,
            2, 0, 2, 0, 2, 0, 2, 0, 6, 0, 34, 1, 1, 118, 119, 104, 163, 251, 0,
        ],
    ),
    (
        1024,
        &[
            0, 32, 0, 0, 0, 64, 0, 0, 0, 64, 0, 2, 0, 64, 0, 4, 0, 64, 0, 6, 0, 32, 0, 0, 0, 64, 0,
            10, 0, 64, 0, 12, 0, 64, 0, 14, 0, 32, 0, 0, 0, 32, 0, 0, 0, 64, 0, 16, 0, 64, 0, 18,
            0, 64, 0, 20, 0, 64, 0, 22, 0, 32, 0, 0, 0, 64, 0, 24, 0, 64, 0, 26, 0, 32, 0, 0, 0,
            32, 0, 0, 0, 64, 0, 28, 0, 64, 0, 30, 0, 64, 0, 32, 0, 32, 0, 0, 0, 64, 0, 34, 0, 64,
            0, 36, 0, 64, 0, 38, 0, 32, 0, 0, 0, 64, 0, 40, 0, 64, 0, 42, 0, 64, 0, 46, 0, 64, 0,
            52, 0, 128, 0, 72,
        ],
    ),
];

/// Image G (`images/G.txt`) with room for 100 objects and 1,000 words: image B with a table of globals, a class Point of two
/// variables, its dictionary, and a symbol table.
pub const IMAGE_G: Parts<'static> = &[
    (
        0,
        &[
            0, 0, 0, 131, 0, 0, 0, 72, 83, 84, 56, 48, 0, 0, 0, 1, 0, 0, 0, 100, 0, 0, 3, 232, 0,
            0, 0, 10, 0, 0, 0, 68,
        ],
    ),
    (
        512,
        &[
            0, 2, 0, 12, 0, 2, 0, 12, 0, 2, 0, 12, 0, 4, 0, 12, 0, 2, 0, 58, 0, 3, 0, 16, 0, 18, 0,
            2, 0, 12, 0, 2, 0, 12, 0, 2, 0, 12, 0, 4, 0, 12, 0, 20, 0, 30, 0, 5, 0, 56, 80, 111,
            105, 110, 116, 0, 0, 2, 0, 12, 0, 2, 0, 12, 0, 2, 0, 12, 0, 2, 0, 12, 0, 11, 0, 12, 0,
            2, 0, 36, 128, 5, 0, 2, 0, 46, 0, 2, 0, 20, 0, 2, 0, 2, 0, 2, 0, 12, 0, 2, 0, 12, 0, 6,
            0, 12, 0, 1, 0, 38, 0, 2, 0, 2, 0, 4, 0, 16, 0, 2, 0, 2, 0, 2, 0, 12, 0, 2, 0, 12, 0,
            2, 0, 12, 0, 4, 0, 16, 0, 54, 0, 66, 0, 2, 0, 12, 0, 2, 0, 12, 0, 2, 0, 12, 0, 3, 0,
            14, 120, 0, 0, 2, 0, 12, 0, 4, 0, 12, 0, 2, 0, 60, 0, 6, 0, 12, 0, 2, 0, 62, 0, 9, 0,
            2, 0, 20, 0, 22, 0, 2, 0, 7, 0, 3, 0, 64, 0, 2, 0, 2, 0, 2, 0, 2, 0, 2, 0, 2, 0, 2, 0,
            2, 0, 2, 0, 2, 0, 2, 0, 2, 0, 2, 0, 2, 0, 6, 0, 34, 1, 1, 118, 119, 104, 163, 251, 0,
            0, 3, 0, 14, 121, 0, 0, 4, 0, 12, 0, 2, 0, 70, 0, 6, 0, 16, 0, 2, 0, 2, 0, 2, 0, 2,
        ],
    ),
    (
        1024,
        &[
            0, 32, 0, 0, 0, 64, 0, 0, 0, 64, 0, 2, 0, 64, 0, 4, 0, 64, 0, 6, 0, 64, 0, 10, 0, 64,
            0, 13, 0, 64, 0, 15, 0, 64, 0, 17, 0, 64, 0, 19, 0, 128, 0, 23, 0, 64, 0, 28, 0, 64, 0,
            30, 0, 64, 0, 32, 0, 64, 0, 34, 0, 64, 0, 36, 0, 64, 0, 47, 0, 64, 0, 49, 0, 64, 0, 51,
            0, 64, 0, 57, 0, 64, 0, 61, 0, 64, 0, 63, 0, 64, 0, 65, 0, 64, 0, 67, 0, 64, 0, 71, 0,
            64, 0, 73, 0, 64, 0, 75, 0, 128, 0, 77, 0, 64, 0, 80, 0, 64, 0, 82, 0, 64, 0, 86, 0,
            64, 0, 92, 0, 128, 0, 112, 0, 128, 0, 118, 0, 64, 0, 121, 0, 64, 0, 125,
        ],
    ),
];

/// The roots file of a store whose first root has the length of image B.
const ROOTS_B: Parts<'static> = &[(0, b"ST80ROOT"), (30, &[4, 132]), (80, &[])];

/// The same of image G.
const ROOTS_G: Parts<'static> = &[(0, b"ST80ROOT"), (30, &[4, 144]), (80, &[])];

/// A store S of image B, in its first file.
pub const STORE_B: Files<'static> = &[("S.roots", ROOTS_B), ("S.a", IMAGE_B), ("S.changes", &[])];

/// A store S of image G.
pub const STORE_G: Files<'static> = &[("S.roots", ROOTS_G), ("S.a", IMAGE_G), ("S.changes", &[])];

/// The bytes of such a file.
fn bytes_of(rt: &impl Abort, alloc: Global, parts: Parts<'_>) -> Vec<u8> {
    let mut bytes = Vec::new(alloc);
    for (place, part) in parts {
        bytes.resize(*place, 0).expect(rt, "memory");
        bytes.extend_from_slice(part).expect(rt, "memory");
    }
    bytes
}

/// A host with these files, and with room for a command.
pub fn host_with(rt: &impl Abort, alloc: Global, files: Files<'_>) -> MemHost {
    let mut host = MemHost::new(alloc).expect(rt, "memory");
    for (name, parts) in files {
        let bytes = bytes_of(rt, alloc, parts);
        host.put(alloc, name, &bytes).expect(rt, "memory");
    }
    host.room_for(alloc, 20000, 1000).expect(rt, "memory");
    host
}
