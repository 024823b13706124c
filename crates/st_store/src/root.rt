// A root: the image that counts, and the changes behind it.
ghost use Rattle.std.specs.Prelude.{◌≡◌, ◌≤◌, ◌+◌, length};
ghost use Rattle.st_store.specs.Roots.{root_at, root_bytes, Fits};

use byteorder::{BigEndian, ByteOrder};

/// What a store has at one time: an image, and the changes file up to a length.
#[derive(Clone, Copy, Debug, PartialEq, Eq)]
pub struct Root {
    /// The files: 0 if the image is in `.a`, 1 if in `.b`, and 2 more if the changes are in `.changes2`.
    pub slot: u64,
    /// The length of the image in bytes.
    pub image_length: u64,
    /// The place in the changes file at which the definitions begin that are to be replayed.
    pub base: u64,
    /// The length of the changes file in bytes. What stands behind it is no part of the store.
    pub length: u64,
}

/// The root at a place of a roots file.
pub(crate) fn read_root(file: &[u8], at: usize) -> Root
    requires { at + 32 ≤ length file.now }
    ensures { result ≡ root_at at file.now }
{
    Root {
        slot: BigEndian::read_u64(&file[at..]),
        image_length: BigEndian::read_u64(&file[at + 8..]),
        base: BigEndian::read_u64(&file[at + 16..]),
        length: BigEndian::read_u64(&file[at + 24..]),
    }
}

/// The 32 bytes of a root.
pub(crate) fn bytes_of_root(root: &Root) -> [u8; 32]
    ensures bytes { result ≡ root_bytes root.now }
    ensures fits { Fits root.now }
{
    let Root {
        slot,
        image_length,
        base,
        length,
    } = *root;
    let mut bytes = [0; 32];
    BigEndian::write_u64(&mut bytes, slot);
    BigEndian::write_u64(&mut bytes[8..], image_length);
    BigEndian::write_u64(&mut bytes[16..], base);
    BigEndian::write_u64(&mut bytes[24..], length);
    bytes
}
