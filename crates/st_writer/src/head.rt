ghost use Rattle.std.specs.Prelude.{◌≡◌, ◌≤◌, ◌^◌};
ghost use Rattle.st_host.specs.inside.Pieces.{end_of, Pushes};
ghost use Rattle.st_writer.specs.Written.{head_bytes};

use crate::numbers::push_longs;
use st_host::{Host, HostFault, Piece};
use st_memory::Memory;

/// The letters `ST80`, as a number.
const LETTERS: u32 = 0x5354_3830;

/// The version of the form.
const VERSION: u32 = 2;

/// Adds the head: the lengths of the object space in words and of the table in entries, the letters `ST80`, the version,
/// the capacities and the pointers of the tables of names.
pub fn push_head<M: Memory, H: Host>(
    m: &M,
    words: u32,
    entries: u32,
    piece: &mut Piece,
    host: &mut H,
    name: &str,
) -> Result<(), HostFault>
    requires entries { entries ≤ 32768 }
    requires end { end_of piece.old ≤ 2 ^ 40 }
    ensures { Pushes H.Host.own name.now (head_bytes words entries (M.view m.now).head)
        host.old host.new piece.old piece.new result }
{
    let capacity = m.capacity();
    let numbers = [
        words,
        3 * entries,
        LETTERS,
        VERSION,
        capacity.entries,
        capacity.words,
        u32::from(m.globals().0),
        u32::from(m.symbols().0),
    ];
    push_longs(piece, host, name, &numbers)
}
