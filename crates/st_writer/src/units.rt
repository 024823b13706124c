ghost use Rattle.std.specs.Prelude.{◌≡◌, ◌≤◌, ◌^◌, ◌++◌, length, map, true, false};
ghost use Rattle.std.specs.List.{flat_map};
ghost use Rattle.st_model.specs.Values.{value};
ghost use Rattle.st_model.specs.Objects.{is_words, is_pointers};
ghost use Rattle.st_model.specs.View.{is_live, object_of};
ghost use Rattle.st_host.specs.inside.Pieces.{end_of, Pushes};
ghost use Rattle.st_writer.specs.Written.{word_bytes, word_of, filler, unit_bytes};

use crate::numbers::push_word;
use st_host::{Host, HostFault, Piece};
use st_memory::{Memory, count_fields, count_units};
use st_model::{Kind, Oop};

/// Adds the fields of an object.
pub fn push_fields<M: Memory, H: Host>(
    m: &M,
    o: Oop,
    piece: &mut Piece,
    host: &mut H,
    name: &str,
) -> Result<(), HostFault>
    requires live { is_live (M.view m.now).objects (value o) ≡ true }
    requires end { end_of piece.old ≤ 2 ^ 41 }
    ensures { let object = object_of (M.view m.now).objects (value o) in
        Pushes H.Host.own name.now (flat_map word_bytes (map word_of object.fields))
        host.old host.new piece.old piece.new result }
{
    for i in 0..count_fields(m, o) {
        push_word(piece, host, name, m.pointer(o, i).0)?;
    }
    Ok(())
}

/// Adds the words of an object of words.
fn push_words<M: Memory, H: Host>(
    m: &M,
    o: Oop,
    piece: &mut Piece,
    host: &mut H,
    name: &str,
) -> Result<(), HostFault>
    requires live { is_live (M.view m.now).objects (value o) ≡ true }
    requires kind { is_words (object_of (M.view m.now).objects (value o)).kind ≡ true }
    requires end { end_of piece.old ≤ 2 ^ 41 }
    ensures { let object = object_of (M.view m.now).objects (value o) in
        Pushes H.Host.own name.now (flat_map word_bytes object.units)
        host.old host.new piece.old piece.new result }
{
    for i in 0..count_units(m, o, count_fields(m, o)) {
        push_word(piece, host, name, m.word(o, i))?;
    }
    Ok(())
}

/// Adds the bytes of an object, which come after its fields.
fn push_bytes<M: Memory, H: Host>(
    m: &M,
    o: Oop,
    piece: &mut Piece,
    host: &mut H,
    name: &str,
) -> Result<(), HostFault>
    requires live { is_live (M.view m.now).objects (value o) ≡ true }
    requires words { is_words (object_of (M.view m.now).objects (value o)).kind ≡ false }
    requires pointers { is_pointers (object_of (M.view m.now).objects (value o)).kind ≡ false }
    requires end { end_of piece.old ≤ 2 ^ 41 }
    ensures { Pushes H.Host.own name.now (object_of (M.view m.now).objects (value o)).units
        host.old host.new piece.old piece.new result }
{
    let fields = count_fields(m, o);
    for i in 0..count_units(m, o, fields) {
        piece.push(host, name, &[m.byte(o, 2 * fields + i)])?;
    }
    Ok(())
}

/// Adds a byte of 0 where there is an odd number of bytes.
fn push_filler<H: Host>(
    piece: &mut Piece,
    host: &mut H,
    name: &str,
    count: u32,
) -> Result<(), HostFault>
    requires { end_of piece.old ≤ 2 ^ 42 }
    ensures { Pushes H.Host.own name.now (filler count) host.old host.new piece.old piece.new result }
{
    if count % 2 == 1 {
        piece.push(host, name, &[0])?;
    }
    Ok(())
}

/// Adds the bytes of an object, and a byte of 0 after an odd number of them.
fn push_filled<M: Memory, H: Host>(
    m: &M,
    o: Oop,
    piece: &mut Piece,
    host: &mut H,
    name: &str,
) -> Result<(), HostFault>
    requires live { is_live (M.view m.now).objects (value o) ≡ true }
    requires words { is_words (object_of (M.view m.now).objects (value o)).kind ≡ false }
    requires pointers { is_pointers (object_of (M.view m.now).objects (value o)).kind ≡ false }
    requires end { end_of piece.old ≤ 2 ^ 41 }
    ensures { let object = object_of (M.view m.now).objects (value o) in
        Pushes H.Host.own name.now (object.units ++ filler (length object.units))
        host.old host.new piece.old piece.new result }
{
    push_bytes(m, o, piece, host, name)?;
    push_filler(piece, host, name, count_units(m, o, count_fields(m, o)))
}

/// Adds the words or bytes of an object, with a byte of 0 after an odd number of bytes.
pub fn push_units<M: Memory, H: Host>(
    m: &M,
    o: Oop,
    piece: &mut Piece,
    host: &mut H,
    name: &str,
) -> Result<(), HostFault>
    requires live { is_live (M.view m.now).objects (value o) ≡ true }
    requires end { end_of piece.old ≤ 2 ^ 41 }
    ensures { let object = object_of (M.view m.now).objects (value o) in
        Pushes H.Host.own name.now (unit_bytes object.kind object.units)
        host.old host.new piece.old piece.new result }
{
    match m.kind(o) {
        Kind::Pointers => Ok(()),
        Kind::Words => push_words(m, o, piece, host, name),
        Kind::Bytes | Kind::Method => push_filled(m, o, piece, host, name),
    }
}
