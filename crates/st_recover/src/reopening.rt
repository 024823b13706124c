// Opening a store again, with its definitions replayed.
ghost use Rattle.std.specs.Prelude.{◌≡◌, ◌≤◌, ◌<◌, ◌^◌, ℕ, List, length, All, IsTrue, IfOk, IfErr, OnOk};
ghost use Rattle.st_host.specs.Files.{Files};
ghost use Rattle.st_host.specs.Runs.{LeavesOnly, ReadsAlike, OnlyReads, Narrows, NarrowsBut, ChangesOneFile as ChangesFile};
ghost use Rattle.st_host.specs.Runs.{Spares, IsAtRest, IsSynced};
ghost use Rattle.st_model.specs.{Limits.longest_image, Image.image_head, View.no_devices, Machine.World};
ghost use Rattle.st_frames.specs.{declared.frame.Frame.Frame, inside.Shown.{IsFrame, IsReady}};
ghost use Rattle.st_image.specs.inside.Reading.{IsStart};
ghost use Rattle.st_chunk.specs.Definitions.{IsDefinition, entries};
ghost use Rattle.st_store.specs.Names.{roots_file, image_file, IsNoFileOf};
ghost use Rattle.st_store.specs.Stored.{Stored, Opens, IsOpening};
ghost use Rattle.st_store.specs.{Stored.{IsReady as IsChosenFirmly}, Faults.{OpensAsOne, Settles}};
ghost use Rattle.st_install.specs.Defining.{installed};
ghost use Rattle.st_changes.specs.Lists.{StandsAt};
ghost use Rattle.st_recover.specs.{Commits.Commit, inside.Replayings.ReplaysFrom};
ghost use Rattle.st_recover.specs.Openings.{IsReadable, image_in, RefusesImage, IsOfImage};
ghost use Rattle.st_recover.specs.inside.Reopened.{IsReopenedAs};
ghost use Rattle.st_recover.specs.Openings.{RefusesOpening, IsOfReopening, IsOfRoots, IsOfNamed};
ghost use Rattle.st_recover.specs.{Openings.OpeningHasCause, inside.Fetched.IsFetchedAs};

use crate::fault::OpenFault;
use crate::opened::{Fetched, Opened};
use crate::replay::{Replay, replay_all};
use st_changes::{Changes, Listing, read_listing};
use st_frames::Loaded;
use st_host::{Host, read_from};
use st_image::{HeadValues, ReadImage, read};
use st_memory::{Loader, Memory};
use st_model::LONGEST_IMAGE;
use st_store::{Store, open_store};
use std::alloc::{AllocError, Global};

/// The bytes of a store's image, where they are at most 2^27.
fn read_bytes<H: Host>(alloc: Global, host: &mut H, store: &Store) -> Result<Vec<u8>, OpenFault>
    ensures bytes { IfOk result (λ v. IsTrue H.is_told
        → v.items ≡ image_in store.now (H.files host.old)) }
    ensures short { IfOk result (λ v. length v.items ≤ longest_image) }
    ensures refused { IfErr result (λ e.
        RefusesImage store.now (image_in store.now (H.files host.old)) e) }
    ensures kind { IfErr result IsOfImage }
    ensures cause { IfErr result (OpeningHasCause H.Host.own host.old host.new) }
    ensures alike { OnOk result (ReadsAlike H.Host.own host.old host.new) }
    ensures reads { OnlyReads H.Host.own host.old host.new }
    ensures only { ChangesFile H.Host.own (image_file store.now.name store.now.root.slot)
        host.old host.new }
{
    let root = store.root();
    if root.image_length > LONGEST_IMAGE {
        return Err(OpenFault::TooLarge);
    }
    let mut bytes = vec![in alloc; 0; root.image_length as usize]?;
    let count = read_from(host, store.image_name(root.slot), 0, &mut bytes)?;
    bytes.truncate(count);
    Ok(bytes)
}

/// The memory and registers of a store's image.
fn read_image<L: Loader, H: Host>(
    alloc: Global,
    host: &mut H,
    store: &Store,
) -> Result<Loaded<L::Done>, OpenFault>
    ensures readable { IfOk result (λ _. IsTrue H.is_told
        → IsReadable (image_in store.now (H.files host.old))) }
    ensures start { let image = image_in store.now (H.files host.old) in
        IfOk result (λ l. IsTrue H.is_told
        → IsStart (image_head image) image (L.Done.view l.memory) l.frame) }
    ensures frame { IfOk result (λ l. IsFrame (L.Done.view l.memory) l.frame) }
    ensures quiet { IfOk result (λ l. (L.Done.view l.memory).held.devices ≡ no_devices) }
    ensures refused { IfErr result (λ e. IsTrue H.is_told
        → RefusesImage store.now (image_in store.now (H.files host.old)) e) }
    ensures kind { IfErr result IsOfImage }
    ensures cause { IfErr result (OpeningHasCause H.Host.own host.old host.new) }
    ensures alike { OnOk result (ReadsAlike H.Host.own host.old host.new) }
    ensures reads { OnlyReads H.Host.own host.old host.new }
    ensures only { ChangesFile H.Host.own (image_file store.now.name store.now.root.slot)
        host.old host.new }
{
    let bytes = read_bytes(alloc, host, store)?;
    match read::<L>(alloc, &bytes, &HeadValues::NONE) {
        Ok(loaded) => Ok(loaded),
        Err(ReadImage::Fault(fault)) => Err(OpenFault::Image(fault)),
        Err(ReadImage::OutOfMemory) => Err(OpenFault::OutOfMemory),
    }
}

/// Opens the store, and reads its image and its changes.
fn fetch<L: Loader, H: Host>(
    alloc: Global,
    host: &mut H,
    name: &str,
) -> Result<Fetched<L::Done>, OpenFault>
    ensures named { IfOk result (λ p. p.store.name ≡ name.now) }
    ensures frame { IfOk result (λ p. IsFrame (L.Done.view p.loaded.memory) p.loaded.frame) }
    ensures quiet { IfOk result (λ p. (L.Done.view p.loaded.memory).held.devices ≡ no_devices) }
    ensures fetched { IfOk result (λ p. IsTrue H.is_told
        → IsFetchedAs H.Host.own L.Done.view name.now host.old host.new p) }
    ensures refused { IfErr result (λ e. IsTrue H.is_told
        → RefusesOpening name.now (H.files host.old) e) }
    ensures kind { IfErr result IsOfReopening }
    ensures writes_nothing { IfErr result (λ e. IsOfRoots e → Narrows H.Host.own host.old host.new) }
    ensures synced { IfErr result (λ e. IsOfRoots e
        → IsSynced H.Host.own (roots_file name.now) host.new) }
    ensures rests { IfErr result (λ e. IsTrue H.is_told → IsOfNamed e → (c : Stored)
        → Opens name.now c (H.files host.old) → IsAtRest H.Host.own (Opens name.now) c host.new) }
    ensures moments { IsTrue H.is_told → LeavesOnly H.Host.own host.old host.new
        (λ f s. (s ≡ H.said host.old) × IsOpening H.Host.own host.old name.now f) }
    ensures settles { IsTrue H.is_told → IsChosenFirmly H.Host.own host.old name.now
        → Settles H.Host.own name.now host.old host.new }
    ensures only { NarrowsBut H.Host.own (roots_file name.now) host.old host.new }
    ensures spares { Spares H.Host.own (IsNoFileOf name.now) host.old host.new }
    ensures cause { IfErr result (OpeningHasCause H.Host.own host.old host.new) }
{
    let store = open_store(alloc, host, name)?;
    let loaded = read_image::<L, H>(alloc, host, &store)?;
    let changes = read_listing(alloc, host, &store)?;
    Ok(Fetched {
        loaded,
        store,
        changes,
    })
}

/// Installs the definitions again that stand from a place of their changes file on, and indexes all.
fn install_again<M: Memory>(
    alloc: Global,
    m: &mut M,
    changes: Listing,
    base: u64,
) -> Result<(Replay, Changes), AllocError>
    requires good { All IsDefinition changes.listed }
    requires stands { StandsAt changes.listed base }
    requires limit { length (entries changes.listed) ≤ 2 ^ 30 }
    ensures replays { IfOk result
        (λ r. ReplaysFrom installed changes.listed base (M.view m.old) (M.view m.new) r.0) }
    ensures few { IfOk result (λ r. length r.0.lost.items < 2 ^ 32) }
    ensures indexed { IfOk result (λ r. r.1 ≡ changes) }
    ensures ready { (f : Frame) (w : World) → IsReady (M.view m.old) f w → IsReady (M.view m.new) f w }
{
    let (front, later) = changes.split(base);
    let before = front.len() as u32;
    let (replay, selectors) = replay_all(alloc, m, later, before)?;
    Ok((replay, changes.index(alloc, &selectors)?))
}

/// Opens the store of this name: the objects and registers of its image, with the definitions from its base on installed again,
/// or listed as lost. Why it isn't opened is looked for in this order: the roots file and its root, the image's length, the image,
/// the changes file.
pub fn reopen<L: Loader, H: Host>(
    alloc: Global,
    host: &mut H,
    name: &str,
) -> Result<Opened<L::Done>, OpenFault>
    // The files open as one commit, which is what is answered.
    ensures opened { IfOk result (λ o. IsTrue H.is_told → (c : Commit)
        × IsReopenedAs H.Host.own installed L.Done.view name.now host.old host.new o c) }
    ensures named { IfOk result (λ o. o.store.name ≡ name.now) }
    ensures frame { IfOk result (λ o. IsFrame (L.Done.view o.loaded.memory) o.loaded.frame) }
    ensures quiet { IfOk result (λ o. (L.Done.view o.loaded.memory).held.devices ≡ no_devices) }

    ensures refused { IfErr result (λ e. IsTrue H.is_told
        → RefusesOpening name.now (H.files host.old) e) }
    ensures kind { IfErr result IsOfReopening }
    ensures writes_nothing { IfErr result (λ e. IsOfRoots e → Narrows H.Host.own host.old host.new) }
    // A roots file that is refused, or whose root is, was synced: no stop makes another of it.
    ensures synced { IfErr result (λ e. IsOfRoots e
        → IsSynced H.Host.own (roots_file name.now) host.new) }
    // Where the image or the changes are refused, each state that a stop may leave opens as what was read.
    ensures rests { IfErr result (λ e. IsTrue H.is_told → IsOfNamed e → (c : Stored)
        → Opens name.now c (H.files host.old) → IsAtRest H.Host.own (Opens name.now) c host.new) }

    // A stop at any moment, and from then on, leaves what it could leave before, or files that open as those that were read.
    ensures moments { IsTrue H.is_told → LeavesOnly H.Host.own host.old host.new
        (λ f s. (s ≡ H.said host.old) × IsOpening H.Host.own host.old name.now f) }
    ensures leaves { IsTrue H.is_told → (f : Files) → ((n : List ℕ) → H.may_leave host.new n (f n))
        → IsOpening H.Host.own host.old name.now f }
    // If each root that could be chosen names what is firm, files that open as some that could be left before.
    ensures as_before { IsTrue H.is_told → IsChosenFirmly H.Host.own host.old name.now
        → LeavesOnly H.Host.own host.old host.new
        (λ f s. (s ≡ H.said host.old) × OpensAsOne H.Host.own host.old name.now f) }
    // And once the roots file was synced, files that open as one of these, also after an error.
    ensures settles { IsTrue H.is_told → IsChosenFirmly H.Host.own host.old name.now
        → Settles H.Host.own name.now host.old host.new }

    ensures only { NarrowsBut H.Host.own (roots_file name.now) host.old host.new }
    ensures spares { Spares H.Host.own (IsNoFileOf name.now) host.old host.new }
    ensures cause { IfErr result (OpeningHasCause H.Host.own host.old host.new) }
{
    let Fetched {
        mut loaded,
        store,
        changes,
    } = fetch::<L, H>(alloc, host, name)?;
    let base = store.root().base;
    let (replay, changes) = install_again(alloc, &mut loaded.memory, changes, base)?;
    Ok(Opened {
        loaded,
        store,
        changes,
        replayed: replay.count,
        lost: replay.lost,
    })
}
