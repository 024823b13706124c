ghost use Rattle.std.specs.Prelude.{◌≡◌, ◌≤◌, length, IsTrue, IfOk, OnOk, Some};
ghost use Rattle.st_model.specs.Limits.{most_words};
ghost use Rattle.st_host.specs.Counts.{HasCause};
ghost use Rattle.st_host.specs.Runs.{WritesAbove, IsSynced};
ghost use Rattle.st_host.specs.inside.Pieces.{end_of, Pushes};
ghost use Rattle.st_writer.specs.Written.{image_of, padding};

use crate::head::push_head;
use crate::numbers::push_zeros;
use crate::table::{count_entries, push_entries, push_objects};
use st_host::{Host, HostFault, Piece};
use st_memory::Memory;

/// How many bytes are missing from so many words to a multiple of 512 bytes.
fn padding(words: u32) -> usize
    requires { words ≤ most_words }
    ensures padding { result ≡ padding words }
    ensures few { result ≤ 512 }
{
    let bytes = 2 * words as usize;
    bytes.div_ceil(512) * 512 - bytes
}

/// Adds the whole text of an image.
fn push_image<M: Memory, H: Host>(
    m: &M,
    piece: &mut Piece,
    host: &mut H,
    name: &str,
) -> Result<(), HostFault>
    requires { end_of piece.old ≤ 512 }
    ensures { Pushes H.Host.own name.now (image_of (M.view m.now))
        host.old host.new piece.old piece.new result }
{
    let entries = count_entries(m);
    let words = m.used().words;
    push_head(m, words, entries, piece, host, name)?;
    push_zeros(piece, host, name, 480)?;
    push_objects(m, entries, piece, host, name)?;
    push_zeros(piece, host, name, padding(words))?;
    push_entries(m, entries, piece, host, name)
}

/// Writes the image of a memory to a file: the one text that the form gives for what it contains. The file is cut to
/// that text and synced. Answers its length in bytes. After an error the file may hold anything; every other file is as
/// before at each moment of the call, and nothing is said.
pub fn write<M: Memory, H: Host>(m: &M, host: &mut H, name: &str) -> Result<u64, HostFault>
    ensures file { OnOk result (IsTrue H.is_told
        → H.files host.new name.now ≡ Some (image_of (M.view m.now))) }
    ensures length { IfOk result (λ l. l ≡ length (image_of (M.view m.now))) }
    ensures synced { OnOk result (IsSynced H.Host.own name.now host.new) }
    ensures writes { WritesAbove H.Host.own 0 name.now host.old host.new }
    ensures cause { HasCause (H.disk_faults host.old) (H.disk_faults host.new) result }
{
    let mut piece = Piece::new(0);
    push_image(m, &mut piece, host, name)?;
    let length = piece.finish(host, name)?;
    Ok(length)
}
