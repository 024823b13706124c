ghost use Rattle.std.specs.Prelude.{◌≡◌, ◌*◌, ◌≤◌, ◌^◌, ◌++◌, length, true};
ghost use Rattle.st_model.specs.Values.{value, Ref};
ghost use Rattle.st_model.specs.Objects.{words_of};
ghost use Rattle.st_model.specs.View.{is_live, object_of};
ghost use Rattle.st_host.specs.inside.Pieces.{end_of, Pushes};
ghost use Rattle.st_writer.specs.Written.{word_bytes, marks, unit_words, object_bytes};

use crate::numbers::push_word;
use crate::units::{push_fields, push_units};
use st_host::{Host, HostFault, Piece};
use st_memory::{Memory, count_fields, count_units};
use st_model::{Kind, Oop};

/// How many words so many words or bytes take.
fn count_unit_words(kind: Kind, units: u32) -> u32
    requires { units ≤ 131072 }
    ensures { result ≡ unit_words kind units }
{
    match kind {
        Kind::Pointers => 0,
        Kind::Words => units,
        Kind::Bytes | Kind::Method => units.div_ceil(2),
    }
}

/// How many words an object has: two for its size and class, and those of its body.
pub fn count_words<M: Memory>(m: &M, o: Oop) -> u32
    requires { is_live (M.view m.now).objects (value o) ≡ true }
    ensures words { result ≡ words_of (object_of (M.view m.now).objects (value o)) }
    ensures few { result ≤ 65535 }
{
    let fields = count_fields(m, o);
    let units = count_units(m, o, fields);
    2 + fields + count_unit_words(m.kind(o), units)
}

/// The marks of an object's entry.
pub fn marks_of<M: Memory>(m: &M, o: Oop) -> u16
    requires { is_live (M.view m.now).objects (value o) ≡ true }
    ensures { let object = object_of (M.view m.now).objects (value o) in
        result ≡ marks object.kind (length object.units) }
{
    match m.kind(o) {
        Kind::Pointers => 64,
        Kind::Words => 16,
        Kind::Bytes | Kind::Method => 128 * (m.size(o) % 2) as u16,
    }
}

/// Adds the size word and the class word of an object.
fn push_heading<M: Memory, H: Host>(
    m: &M,
    o: Oop,
    piece: &mut Piece,
    host: &mut H,
    name: &str,
) -> Result<(), HostFault>
    requires live { is_live (M.view m.now).objects (value o) ≡ true }
    requires end { end_of piece.old ≤ 2 ^ 40 }
    ensures { let object = object_of (M.view m.now).objects (value o) in
        Pushes H.Host.own name.now (word_bytes (words_of object) ++ word_bytes (2 * object.class))
        host.old host.new piece.old piece.new result }
{
    push_word(piece, host, name, count_words(m, o) as u16)?;
    push_word(piece, host, name, m.class_of(o).0)
}

/// Adds an object: its size word, its class word and its body.
pub fn push_object<M: Memory, H: Host>(
    m: &M,
    o: Oop,
    piece: &mut Piece,
    host: &mut H,
    name: &str,
) -> Result<(), HostFault>
    requires live { is_live (M.view m.now).objects (value o) ≡ true }
    requires end { end_of piece.old ≤ 2 ^ 40 }
    ensures { Pushes H.Host.own name.now (object_bytes (object_of (M.view m.now).objects (value o)))
        host.old host.new piece.old piece.new result }
{
    push_heading(m, o, piece, host, name)?;
    push_fields(m, o, piece, host, name)?;
    push_units(m, o, piece, host, name)
}
