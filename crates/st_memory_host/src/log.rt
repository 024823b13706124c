// The log of a host in memory: its deeds as entries, and the bytes of all of them one after the other.
ghost use Rattle.std.specs.Prelude.{◌≡◌, ◌++◌, ◌∷◌, [], ◌+◌, ◌<◌, ◌≤◌, length, List, ℕ, Option, None, OnOk, OnErr, IfSome, vec_len, vec_capacity};
ghost use Rattle.st_host.specs.Files.{bytes_of, length_of};
ghost use Rattle.st_memory_host.specs.inside.Log.{entry_of, deed_of, deeds_of, arena_size, file_of, changed, said_with, IsWindow, Overlays, Clears};
ghost use Rattle.st_memory_host.specs.declared.log.Kind.TheVariants.{Put};

use std::alloc::AllocError;

/// What was done. A write is kept by the place where it ends. One that was torn did so many first bytes.
#[derive(Clone, Copy, Drop)]
pub(crate) enum Kind {
    Put,
    Wrote { end: u64 },
    Tore { end: u64, done: u64 },
    Cut { len: u64 },
    Synced,
    Said,
}

/// A deed, with the lengths of its name and of its bytes.
#[derive(Clone, Copy, Drop)]
pub(crate) struct Entry {
    pub(crate) kind: Kind,
    pub(crate) name: usize,
    pub(crate) bytes: usize,
}

/// The first deed of a log, and what is behind it.
#[derive(Clone, Copy, Drop)]
pub(crate) struct First<'a> {
    pub(crate) kind: Kind,
    pub(crate) name: &'a [u8],
    pub(crate) bytes: &'a [u8],
    pub(crate) later: &'a [Entry],
    pub(crate) rest: &'a [u8],
}

/// The first deed of a log. None where it has none.
pub(crate) fn split_first<'a>(log: &'a [Entry], arena: &'a [u8]) -> Option<First<'a>>
    requires { arena_size log.now ≡ length arena.now }
    ensures deed { IfSome result (λ first.
        deeds_of log.now arena.now
        ≡ deed_of first.kind first.name.now first.bytes.now ∷ deeds_of first.later.now first.rest.now) }
    ensures size { IfSome result (λ first. arena_size first.later.now ≡ length first.rest.now) }
    ensures fewer { IfSome result (λ first. length first.later.now < length log.now) }
    ensures none { (result ≡ None) → log.now ≡ [] }
{
    let [entry, later @ ..] = log else {
        return None;
    };
    let (name, rest) = arena.split_at(entry.name);
    let (bytes, rest) = rest.split_at(entry.bytes);
    Some(First {
        kind: entry.kind,
        name,
        bytes,
        later,
        rest,
    })
}

/// Appends a deed, for which there is room.
pub(crate) fn append(
    log: &mut Vec<Entry>,
    arena: &mut Vec<u8>,
    kind: Kind,
    name: &[u8],
    bytes: &[u8],
)
    requires entry { vec_len log.old < vec_capacity log.old }
    requires bytes { vec_len arena.old + (length name.now + length bytes.now) ≤ vec_capacity arena.old }
    ensures entry { log.new.items ≡ log.old.items ++ entry_of kind name.now bytes.now ∷ [] }
    ensures bytes { arena.new.items ≡ arena.old.items ++ (name.now ++ bytes.now) }
    ensures log_room { vec_capacity log.new ≡ vec_capacity log.old }
    ensures arena_room { vec_capacity arena.old ≤ vec_capacity arena.new }
{
    arena.extend_from_slice(name).unwrap();
    arena.extend_from_slice(bytes).unwrap();
    log.push_reserved(Entry {
        kind,
        name: name.len(),
        bytes: bytes.len(),
    });
}

/// Puts a file there, and leaves room for so many more bytes and entries.
pub(crate) fn append_file(
    log: &mut Vec<Entry>,
    arena: &mut Vec<u8>,
    bytes_left: u64,
    calls_left: u64,
    name: &[u8],
    bytes: &[u8],
) -> Result<(), AllocError>
    ensures entry { OnOk result (log.new.items ≡ log.old.items ++ entry_of Put name.now bytes.now ∷ []) }
    ensures bytes { OnOk result (arena.new.items ≡ arena.old.items ++ (name.now ++ bytes.now)) }
    ensures log_room { OnOk result (length log.new.items + calls_left ≤ vec_capacity log.new) }
    ensures arena_room { OnOk result (length arena.new.items + bytes_left ≤ vec_capacity arena.new) }
    ensures err { OnErr result ((log.new.items ≡ log.old.items) × (arena.new.items ≡ arena.old.items)) }
    ensures no_less { (vec_capacity log.old ≤ vec_capacity log.new)
        × (vec_capacity arena.old ≤ vec_capacity arena.new) }
{
    let entries = calls_left.checked_add(1).ok_or(AllocError)?;
    let size = (name.len() + bytes.len()) as u64;
    let room = bytes_left.checked_add(size).ok_or(AllocError)?;
    log.reserve(entries as usize)?;
    arena.reserve(room as usize)?;
    append(log, arena, Kind::Put, name, bytes);
    Ok(())
}

/// Appends what a deed says, for which there is room.
pub(crate) fn append_said(said: &mut Vec<u8>, kind: Kind, bytes: &[u8])
    requires { vec_len said.old + length bytes.now ≤ vec_capacity said.old }
    ensures said { said.new.items ≡ said_with kind bytes.now said.old.items }
    ensures room { vec_capacity said.old ≤ vec_capacity said.new }
{
    match kind {
        Kind::Said => said.extend_from_slice(bytes).unwrap(),
        Kind::Put
        | Kind::Wrote { end: _ }
        | Kind::Tore { end: _, done: _ }
        | Kind::Cut { len: _ }
        | Kind::Synced => {}
    }
}

// Lays bytes that stand at a place over the part of a slice that they meet, where the slice begins at `at`.
fn overlay(into: &mut [u8], at: u64, bytes: &[u8], place: u64)
    ensures { Overlays at bytes.now place into.old into.new }
{
    let skipped = at.saturating_sub(place) as usize;
    let gap = place.saturating_sub(at) as usize;
    if skipped < bytes.len() && gap < into.len() {
        let count = (bytes.len() - skipped).min(into.len() - gap);
        into[gap..gap + count].copy_from_slice(&bytes[skipped..skipped + count]);
    }
}

// Puts zero bytes from the place `len` on, where the slice begins at `at`.
fn clear(into: &mut [u8], at: u64, len: u64)
    ensures { Clears at len into.old into.new }
{
    let kept = len.saturating_sub(at) as usize;
    if kept < into.len() {
        into[kept..].fill(0);
    }
}

// Takes the length of a file, and a slice of it that begins at `at`, to what they are after a deed.
fn apply(kind: Kind, bytes: &[u8], length: Option<u64>, at: u64, into: &mut [u8]) -> Option<u64>
    ensures length { (file : Option (List ℕ)) →
        length_of file ≡ length → length_of (changed kind bytes.now file) ≡ result }
    ensures window { (file : Option (List ℕ)) →
        IsWindow (bytes_of file) at into.old → IsWindow (bytes_of (changed kind bytes.now file)) at into.new }
{
    let count = bytes.len() as u64;
    match kind {
        Kind::Put => {
            clear(into, at, 0);
            overlay(into, at, bytes, 0);
            Some(count)
        }
        Kind::Wrote { end } => {
            overlay(into, at, bytes, end.saturating_sub(count));
            Some(length.unwrap_or(0).max(end.max(count)))
        }
        Kind::Tore { end, done } => {
            let place = end.saturating_sub(count);
            let part = &bytes[..done.min(count) as usize];
            overlay(into, at, part, place);
            Some(length.unwrap_or(0).max(place + part.len() as u64))
        }
        Kind::Cut { len } => {
            clear(into, at, len);
            Some(len)
        }
        Kind::Synced | Kind::Said => length,
    }
}

/// The length of a file, none where it is absent. The slice takes the file's bytes from the place `at` on, and zero
/// bytes past its end.
pub(crate) fn window(
    log: &[Entry],
    arena: &[u8],
    name: &[u8],
    at: u64,
    into: &mut [u8],
) -> Option<u64>
    requires { arena_size log.now ≡ length arena.now }
    ensures length { result ≡ length_of (file_of None log.now arena.now name.now) }
    ensures window { IsWindow (bytes_of (file_of None log.now arena.now name.now)) at into.new }
{
    clear(into, at, 0);
    let mut length = None;
    let mut log = log;
    let mut arena = arena;
    while let [entry, later @ ..] = log {
        let (this, rest) = arena.split_at(entry.name);
        let (bytes, rest) = rest.split_at(entry.bytes);
        if name == this {
            length = apply(entry.kind, bytes, length, at, into);
        }
        log = later;
        arena = rest;
    }
    length
}
