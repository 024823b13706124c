ghost use Rattle.std.specs.Prelude.{◌≡◌, ◌<◌};
ghost use Rattle.st_model.specs.Values.{value};
ghost use Rattle.st_model.specs.Formed.{literals_of};

use crate::oop::Oop;

/// The number of literals of a method, from 0 to 63: bits 9 to 14 of its header's word.
pub fn literals(header: Oop) -> u32
    ensures count { result ≡ literals_of (value header) }
    ensures small { result < 64 }
{
    u32::from(header.0) >> 1 & 63
}
