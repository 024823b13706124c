ghost use Rattle.st_model.specs.Values.{word};
ghost use Rattle.st_model.specs.Objects.{is_bytes};
ghost use Rattle.st_model.specs.Deeds.{bytes_replaced, bytes_from};
ghost use Rattle.st_input.specs.inside.Named.{NamesKind, ChangesOne};

use crate::named::object_named;
use st_memory::{Memory, copy_bytes};
use st_model::{Kind, Oop, Word};

/// The object of kind Bytes that a word names, where one is there.
#[tactic(auto, using(crate::proofs::Done::named_objects))]
fn bytes_named<M: Memory>(m: &M, named: Word) -> Option<Oop>
    ensures { NamesKind is_bytes (M.view m.now).objects (word named) result }
{
    let object = object_named(m, named)?;
    match m.kind(object) {
        Kind::Bytes => Some(object),
        Kind::Pointers | Kind::Words | Kind::Method => None,
    }
}

/// Has `count` bytes of an object from a place on become those of another from another place on, as they were before, where
/// both are of kind Bytes and have such places.
pub fn replace_bytes<M: Memory>(
    m: &mut M,
    target: Word,
    source: Word,
    to: u32,
    from: u32,
    count: u32,
)
    ensures { ChangesOne (M.view m.old) (M.view m.new)
        (bytes_replaced to (bytes_from (M.view m.old).objects (word source) from count)) (word target) }
{
    let Some(into) = bytes_named(m, target) else {
        return;
    };
    let Some(source) = bytes_named(m, source) else {
        return;
    };
    let room = m.size(into).saturating_sub(to);
    let there = m.size(source).saturating_sub(from);
    let copied = count.min(room).min(there);
    if copied > 0 {
        copy_bytes(m, copied, source, from, into, to);
    }
}
