//! Text that is written with each `!` doubled.

ghost use Rattle.std.specs.Prelude.{◌≡◌, ◌+◌, ◌*◌, ◌<◌, ◌≤◌, ◌^◌, length, take, IsTrue, IfOk, OnOk};
ghost use Rattle.st_host.specs.Counts.{HasCause};
ghost use Rattle.st_host.specs.Files.{IsWritten};
ghost use Rattle.st_host.specs.Runs.{Writes};
ghost use Rattle.st_chunk.specs.Texts.{doubled};
ghost use Rattle.st_chunk.specs.inside.Writing.{WritesBehind};

use st_host::{Host, HostFault, write_bytes};

/// The most bytes of the text that are written at once.
const PIECE: usize = 256;

/// Doubles each `!` of at most 256 bytes into the buffer, and answers how many bytes that makes.
fn double_into(buffer: &mut [u8; 512], piece: &[u8]) -> usize
    requires { length piece.now ≤ 256 }
    ensures bytes { take result buffer.new ≡ doubled piece.now }
    ensures within { result ≤ 512 }
    ensures long { result ≡ length (doubled piece.now) }
{
    let mut used = 0;
    for byte in piece {
        buffer[used] = *byte;
        used += 1;
        if *byte == b'!' {
            buffer[used] = *byte;
            used += 1;
        }
    }
    used
}

/// Writes at most 256 bytes, each `!` doubled, to a file from the place `at` on, and answers how many bytes that makes.
fn write_piece<H: Host>(host: &mut H, name: &str, at: u64, piece: &[u8]) -> Result<u64, HostFault>
    requires { length piece.now ≤ 256 }
    ensures count { IfOk result (λ n. n ≡ length (doubled piece.now)) }
    ensures written { OnOk result (IsTrue H.is_told →
        IsWritten at (doubled piece.now) (H.files host.old name.now) (H.files host.new name.now)) }
    ensures writes { Writes H.Host.own name.now at (length (doubled piece.now)) host.old host.new }
    ensures cause { HasCause (H.disk_faults host.old) (H.disk_faults host.new) result }
{
    let mut buffer = [0; 512];
    let used = double_into(&mut buffer, piece);
    write_bytes(host, name, at, &buffer[..used])?;
    Ok(used as u64)
}

/// Writes a text with each `!` doubled to a file from the place `at` on, and answers how many bytes that makes. An absent
/// file is made.
pub fn doubled<H: Host>(host: &mut H, name: &str, at: u64, text: &[u8]) -> Result<u64, HostFault>
    requires { at + 2 * length text.now < 2 ^ 64 }
    ensures count { IfOk result (λ n. n ≡ length (doubled text.now)) }
    ensures written { OnOk result (IsTrue H.is_told →
        IsWritten at (doubled text.now) (H.files host.old name.now) (H.files host.new name.now)) }
    // At each moment nothing is said, and every other file and this one's bytes before `at` are as before.
    ensures writes { WritesBehind H.Host.own name.now at host.old host.new }
    ensures cause { HasCause (H.disk_faults host.old) (H.disk_faults host.new) result }
{
    let mut done = text.len().min(PIECE);
    let mut count = write_piece(host, name, at, &text[..done])?;
    while done < text.len() {
        let end = text.len().min(done + PIECE);
        count += write_piece(host, name, at + count, &text[done..end])?;
        done = end;
    }
    Ok(count)
}
