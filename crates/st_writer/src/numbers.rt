ghost use Rattle.std.specs.Prelude.{◌≡◌, ◌<◌, ◌≤◌, ◌^◌, length};
ghost use Rattle.std.specs.List.{flat_map};
ghost use Rattle.st_host.specs.inside.Pieces.{end_of, Pushes};
ghost use Rattle.st_writer.specs.Written.{word_bytes, long_bytes, zeros};

use byteorder::{BigEndian, ByteOrder};
use st_host::{Host, HostFault, Piece};

/// Adds a word, the higher byte first.
pub fn push_word<H: Host>(
    piece: &mut Piece,
    host: &mut H,
    name: &str,
    word: u16,
) -> Result<(), HostFault>
    requires { end_of piece.old < 2 ^ 64 }
    ensures { Pushes H.Host.own name.now (word_bytes word) host.old host.new piece.old piece.new result }
{
    let mut bytes = [0; 2];
    BigEndian::write_u16(&mut bytes, word);
    piece.push(host, name, &bytes)
}

/// Adds a number of 32 bits, the highest byte first.
pub fn push_long<H: Host>(
    piece: &mut Piece,
    host: &mut H,
    name: &str,
    number: u32,
) -> Result<(), HostFault>
    requires { end_of piece.old < 2 ^ 64 }
    ensures { Pushes H.Host.own name.now (long_bytes number) host.old host.new piece.old piece.new result }
{
    let mut bytes = [0; 4];
    BigEndian::write_u32(&mut bytes, number);
    piece.push(host, name, &bytes)
}

/// Adds numbers of 32 bits.
pub fn push_longs<H: Host>(
    piece: &mut Piece,
    host: &mut H,
    name: &str,
    numbers: &[u32],
) -> Result<(), HostFault>
    requires few { length numbers.now ≤ 128 }
    requires end { end_of piece.old ≤ 2 ^ 40 }
    ensures { Pushes H.Host.own name.now (flat_map long_bytes numbers.now)
        host.old host.new piece.old piece.new result }
{
    for number in numbers {
        push_long(piece, host, name, *number)?;
    }
    Ok(())
}

/// Adds so many bytes of 0, at most 512.
#[tactic(auto, unfolding(crate::specs::Written::zeros))]
pub fn push_zeros<H: Host>(
    piece: &mut Piece,
    host: &mut H,
    name: &str,
    count: usize,
) -> Result<(), HostFault>
    requires few { count ≤ 512 }
    requires end { end_of piece.old < 2 ^ 64 }
    ensures { Pushes H.Host.own name.now (zeros count) host.old host.new piece.old piece.new result }
{
    let zeros = [0; 512];
    piece.push(host, name, &zeros[..count])
}
