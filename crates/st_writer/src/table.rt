ghost use Rattle.std.specs.Prelude.{◌≡◌, ◌*◌, ◌<◌, ◌≤◌, ◌^◌, length};
ghost use Rattle.st_model.specs.Values.{value, Ref};
ghost use Rattle.st_model.specs.Table.{entry};
ghost use Rattle.st_host.specs.inside.Pieces.{end_of, Pushes};
ghost use Rattle.st_writer.specs.Written.{bytes_at, words_at, entry_bytes, space_below, entries_below, words_below, used_below};

use crate::numbers::{push_long, push_word};
use crate::object::{count_words, marks_of, push_object};
use st_host::{Host, HostFault, Piece};
use st_memory::Memory;
use st_model::Oop;

/// The pointer of a place of the table.
#[tactic(auto, unfolding(st_model::specs::Values::value_of))]
fn pointer_of(k: u32) -> Oop
    requires { k < 32768 }
    ensures { value result ≡ Ref k }
{
    Oop((2 * k) as u16)
}

/// How many places the table has up to its last object.
pub fn count_entries<M: Memory>(m: &M) -> u32
    ensures count { result ≡ used_below (M.view m.now).objects (length (M.view m.now).objects) }
    ensures most { result ≤ 32768 }
{
    let mut count = 32768;
    while count > 0 && !m.live(pointer_of(count - 1)) {
        count -= 1;
    }
    count
}

/// Adds what stands at a place of the table: an object, or nothing.
fn push_place<M: Memory, H: Host>(
    m: &M,
    k: u32,
    piece: &mut Piece,
    host: &mut H,
    name: &str,
) -> Result<(), HostFault>
    requires place { k < 32768 }
    requires end { end_of piece.old ≤ 2 ^ 40 }
    ensures { Pushes H.Host.own name.now (bytes_at (entry (M.view m.now).objects k))
        host.old host.new piece.old piece.new result }
{
    let o = pointer_of(k);
    if m.live(o) {
        push_object(m, o, piece, host, name)?;
    }
    Ok(())
}

/// Adds the objects of the first places of the table, end to end.
pub fn push_objects<M: Memory, H: Host>(
    m: &M,
    entries: u32,
    piece: &mut Piece,
    host: &mut H,
    name: &str,
) -> Result<(), HostFault>
    requires entries { entries ≤ 32768 }
    requires end { end_of piece.old ≤ 2 ^ 32 }
    ensures { Pushes H.Host.own name.now (space_below (M.view m.now).objects entries)
        host.old host.new piece.old piece.new result }
{
    for k in 0..entries {
        push_place(m, k, piece, host, name)?;
    }
    Ok(())
}

/// How many words the object at a place of the table has; none where there is no object.
fn words_at<M: Memory>(m: &M, k: u32) -> u32
    requires { k < 32768 }
    ensures words { result ≡ words_at (entry (M.view m.now).objects k) }
    ensures few { result ≤ 65535 }
{
    let o = pointer_of(k);
    if m.live(o) { count_words(m, o) } else { 0 }
}

/// Adds the entry of a place of the table, whose object is at a word of the object space.
fn push_entry<M: Memory, H: Host>(
    m: &M,
    k: u32,
    at: u32,
    piece: &mut Piece,
    host: &mut H,
    name: &str,
) -> Result<(), HostFault>
    requires place { k < 32768 }
    requires end { end_of piece.old ≤ 2 ^ 42 }
    ensures { Pushes H.Host.own name.now (entry_bytes (entry (M.view m.now).objects k) at)
        host.old host.new piece.old piece.new result }
{
    let o = pointer_of(k);
    if m.live(o) {
        push_word(piece, host, name, marks_of(m, o))?;
        push_long(piece, host, name, at)
    } else {
        push_word(piece, host, name, 32)?;
        push_long(piece, host, name, 0)
    }
}

/// Adds the entries of the first places of the table.
pub fn push_entries<M: Memory, H: Host>(
    m: &M,
    entries: u32,
    piece: &mut Piece,
    host: &mut H,
    name: &str,
) -> Result<(), HostFault>
    requires entries { entries ≤ 32768 }
    requires end { end_of piece.old ≤ 2 ^ 41 }
    ensures { Pushes H.Host.own name.now (entries_below (M.view m.now).objects entries)
        host.old host.new piece.old piece.new result }
{
    let mut at = 0;
    for k in 0..entries {
        push_entry(m, k, at, piece, host, name)?;
        at += words_at(m, k);
    }
    Ok(())
}
