// Dropping the definitions that later ones supersede.
ghost use Rattle.std.specs.Prelude.{◌≡◌, ◌⊎◌, ◌≤◌, ◌+◌, ◌<◌, ◌^◌, ◌++◌, ◌∷◌, [], List, All, IfOk, get_or, true, Some, Err, IsTrue, IsErr, OnErr, OnOk, nat_lt, length, take, drop};
ghost use Rattle.st_host.specs.inside.Pieces.{end_of, Pushes};
ghost use Rattle.st_host.specs.Runs.{IsSynced, WritesAbove, Makes, ChangesBoth, IsAtRest};
ghost use Rattle.st_host.specs.declared.file_fault.FileFault.TheVariants.{OutOfMemory};
ghost use Rattle.st_store.specs.{Names.{roots_file, changes_file}, Stored.{Stored, Opens, IsKept}};
ghost use Rattle.st_store.specs.Faults.{RestsUnlessGate};
ghost use Rattle.st_changes.specs.{inside.Writing.{Extends, CondenseHasCause}, Lists.StandsAt, inside.IndexStates.found};
ghost use Rattle.st_changes.specs.{inside.Views.{definition_of, definitions_of}, Last.Answers};
ghost use Rattle.st_changes.specs.Condensing.{Tells, Stays, kept_by, turned, Condenses, condensed};
ghost use Rattle.st_chunk.specs.Definitions.{Definition as Defined, IsDefinition, entries};

use crate::Definition;
use crate::changes::Changes;
use crate::index::Index;
use crate::selector::find_selector;
use crate::writing::entry_text;
use st_host::{FileFault, Host, HostFault, Piece, cut_file};
use st_store::{Root, Store};
use std::alloc::{AllocError, Global};

/// Whether after a definition, the one of this number, there is another one of its class, side and selector.
fn is_superseded(
    alloc: Global,
    index: &Index,
    definition: &Definition,
    number: usize,
) -> Result<bool, AllocError>
    requires { IsDefinition (definition_of definition.now) }
    ensures { IfOk result (λ yes. (before behind : List Defined)
        → Answers (before ++ definition_of definition.now ∷ behind) (found index.now)
        → number ≡ length before → Tells yes (definition_of definition.now) behind) }
{
    let Some(selector) = find_selector(alloc, &definition.text)? else {
        return Ok(false);
    };
    match index.find(&definition.class, definition.meta, &selector) {
        Some(last) => Ok(last != number),
        None => Ok(false),
    }
}

/// Of these definitions, marks for the first so many: those that stay.
fn mark_staying(
    alloc: Global,
    index: &Index,
    listed: &[Definition],
    count: usize,
) -> Result<Vec<bool>, AllocError>
    requires good { All IsDefinition (definitions_of listed.now) }
    requires within { count ≤ length listed.now }
    requires answers { Answers (definitions_of listed.now) (found index.now) }
    ensures many { IfOk result (λ marks. length marks.items ≡ count) }
    ensures stays { IfOk result (λ marks. Stays (definitions_of (drop count listed.now))
        (definitions_of (take count listed.now))
        (kept_by marks.items (definitions_of (take count listed.now)))) }
{
    let mut marks = Vec::new(alloc);
    for i in 0..count {
        let superseded = is_superseded(alloc, index, &listed[i], i)?;
        marks.push(!superseded)?;
    }
    Ok(marks)
}

/// Adds bytes to a file, however many.
fn push_bytes<H: Host>(
    piece: &mut Piece,
    host: &mut H,
    name: &str,
    bytes: &[u8],
) -> Result<(), HostFault>
    requires { end_of piece.old + length bytes.now < 2 ^ 64 }
    ensures { Pushes H.Host.own name.now bytes.now host.old host.new piece.old piece.new result }
{
    let mut at = 0;
    'pushed: while at < bytes.len() {
        let end = if bytes.len() - at > 512 {
            at + 512
        } else {
            bytes.len()
        };
        piece.push(host, name, &bytes[at..end])?;
        at = end;
    }
    Ok(())
}

/// Whether the definition at this place stays.
fn stays(marks: &[bool], i: usize) -> bool
    ensures { result ≡ get_or marks.now i true }
{
    i >= marks.len() || marks[i]
}

/// How many bytes were added, the entries of how many definitions.
#[derive(Drop)]
struct Pushed {
    bytes: u64,
    count: u64,
}

/// Adds the entries of the definitions that are marked, and of those behind the marks.
fn push_kept<H: Host>(
    alloc: Global,
    piece: &mut Piece,
    host: &mut H,
    name: &str,
    listed: &[Definition],
    marks: &[bool],
) -> Result<Pushed, FileFault>
    requires { end_of piece.old + length (entries (definitions_of listed.now)) < 2 ^ 64 }
    ensures pushes { Extends H.Host.own name.now (entries (kept_by marks.now (definitions_of listed.now)))
        host.old host.new piece.old piece.new result }
    ensures bytes { IfOk result (λ p. p.bytes
        ≡ length (entries (kept_by marks.now (definitions_of listed.now)))) }
    ensures count { IfOk result (λ p. p.count ≡ length (kept_by marks.now (definitions_of listed.now))) }
{
    let mut bytes = 0;
    let mut count = 0;
    for i in 0..listed.len() {
        if stays(marks, i) {
            let entry = entry_text(alloc, &listed[i])?;
            push_bytes(piece, host, name, &entry)?;
            bytes += entry.len() as u64;
            count += 1;
        }
    }
    Ok(Pushed { bytes, count })
}

/// What was written: the place at which the definitions begin that are to be replayed, the length, and how many there are.
#[derive(Drop)]
struct Written {
    base: u64,
    length: u64,
    count: u64,
}

/// Writes a changes file: of the first definitions those that are marked, and then others.
fn write_kept<H: Host>(
    alloc: Global,
    host: &mut H,
    name: &str,
    front: &[Definition],
    marks: &[bool],
    behind: &[Definition],
) -> Result<Written, FileFault>
    requires { length (entries (definitions_of front.now)) + length (entries (definitions_of behind.now))
        < 2 ^ 64 }
    ensures base { IfOk result (λ w. w.base
        ≡ length (entries (kept_by marks.now (definitions_of front.now)))) }
    ensures length { IfOk result (λ w. w.length
        ≡ length (entries (kept_by marks.now (definitions_of front.now) ++ definitions_of behind.now))) }
    ensures count { IfOk result (λ w. w.count
        ≡ length (kept_by marks.now (definitions_of front.now) ++ definitions_of behind.now)) }
    ensures file { OnOk result (IsTrue H.is_told → H.files host.new name.now
        ≡ Some (entries (kept_by marks.now (definitions_of front.now) ++ definitions_of behind.now))) }
    ensures synced { OnOk result (IsSynced H.Host.own name.now host.new) }
    ensures writes { WritesAbove H.Host.own 0 name.now host.old host.new }
    ensures cause { CondenseHasCause (H.disk_faults host.old) (H.disk_faults host.new) result }
{
    cut_file(host, name, 0)?;
    let mut piece = Piece::new(0);
    let first = push_kept(alloc, &mut piece, host, name, front, marks)?;
    let second = push_kept(alloc, &mut piece, host, name, behind, &[])?;
    let length = piece.finish(host, name)?;
    Ok(Written {
        base: first.bytes,
        length,
        count: first.count + second.count,
    })
}

/// The slot of the same image file with the other changes file.
fn turned(slot: u64) -> u64
    ensures { result ≡ turned slot }
{
    match slot {
        0 | 1 => slot + 2,
        _ => slot - 2,
    }
}

/// A store whose changes were condensed, and how many definitions it had and has.
#[derive(Drop)]
pub struct Condensed {
    pub store: Store,
    pub before: u32,
    pub after: u32,
}

/// Why a store isn't condensed.
pub type CondenseFault = FileFault;

/// Writes the other changes file without the definitions before the base that later ones supersede, and goes over to it: whole,
/// or not at all. After an error the store is opened again.
pub fn condense<H: Host>(
    alloc: Global,
    host: &mut H,
    store: Store,
    changes: &Changes,
) -> Result<Condensed, CondenseFault>
    requires good { All IsDefinition changes.now.listed }
    requires file { changes.now.second ≡ nat_lt 1 store.root.slot }
    requires place { store.root.length ≡ length (entries changes.now.listed) }
    requires limit { store.root.length ≤ 2 ^ 30 }
    requires stands { StandsAt changes.now.listed store.root.base }
    // It is known which definitions stay, or an error came before that and the store is as it was.
    ensures either { (c : Stored) → IsTrue H.is_told → IsKept H.Host.own host.old store c
        → (IsErr result × Makes H.Host.own (Opens store.name) c c host.old host.new result)
        ⊎ Condenses changes.now.listed store.root.base }
    // Without memory nothing of the store was changed.
    ensures starved { (c : Stored) → IsTrue H.is_told → IsKept H.Host.own host.old store c
        → result ≡ Err OutOfMemory → IsAtRest H.Host.own (Opens store.name) c host.new }
    // A stop at any moment leaves files that open as before or as condensed.
    ensures makes { (c : Stored) (z : Condenses changes.now.listed store.root.base) → IsTrue H.is_told
        → IsKept H.Host.own host.old store c
        → Makes H.Host.own (Opens store.name) c (condensed c z) host.old host.new result }
    ensures kept { IfOk result (λ r. (c : Stored) (z : Condenses changes.now.listed store.root.base)
        → IsTrue H.is_told
        → IsKept H.Host.own host.old store c → IsKept H.Host.own host.new r.store (condensed c z)) }
    // After an error they open as before, but where the gate failed.
    ensures broken { OnErr result ((c : Stored) → IsTrue H.is_told → IsKept H.Host.own host.old store c
        → RestsUnlessGate H.Host.own (Opens store.name) store.name c host.new) }
    ensures before { IfOk result (λ r. r.before ≡ length changes.now.listed) }
    ensures after { IfOk result (λ r. (z : Condenses changes.now.listed store.root.base)
        → r.after ≡ length (z.kept ++ z.behind)) }
    ensures files { ChangesBoth H.Host.own (changes_file store.name (turned store.root.slot))
        (roots_file store.name) host.old host.new }
    ensures cause { CondenseHasCause (H.disk_faults host.old) (H.disk_faults host.new) result }
{
    let root = store.root();
    let listed = changes.definitions();
    let count = changes.count_before(root.base);
    let marks = mark_staying(alloc, &changes.index, listed, count)?;
    let slot = turned(root.slot);
    let written = write_kept(
        alloc,
        host,
        store.changes_name_of(slot),
        &listed[..count],
        &marks,
        &listed[count..],
    )?;
    let root = Root {
        slot,
        image_length: root.image_length,
        base: written.base,
        length: written.length,
    };
    let store = store.commit(host, root)?;
    Ok(Condensed {
        store,
        before: listed.len() as u32,
        after: written.count as u32,
    })
}
