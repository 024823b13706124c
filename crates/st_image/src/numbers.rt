ghost use Rattle.std.specs.Prelude.{◌≡◌, ◌+◌, ◌≤◌, length};
ghost use Rattle.st_model.specs.Image.{number16, number32, literal_count};

use byteorder::{BigEndian, ByteOrder};

#[tactic(auto, unfolding(st_model::specs::Image::number16))]
/// The number in two bytes, the higher one first.
pub fn read16(bytes: &[u8], at: usize) -> u16
    requires { at + 2 ≤ length bytes.now }
    ensures { result ≡ number16 bytes.now at }
{
    BigEndian::read_u16(&bytes[at..])
}

#[tactic(auto, unfolding(st_model::specs::Image::number16, st_model::specs::Image::number32))]
/// The number in four bytes, the highest one first.
pub fn read32(bytes: &[u8], at: usize) -> u32
    requires { at + 4 ≤ length bytes.now }
    ensures { result ≡ number32 bytes.now at }
{
    BigEndian::read_u32(&bytes[at..])
}

/// The number of literals that a method's header gives.
pub fn literal_count(header: u16) -> u16
    ensures { result ≡ literal_count header }
{
    header >> 1 & 63
}
