// Reading a changes file.
ghost use Rattle.std.specs.Prelude.{◌≡◌, All, IfOk, IfErr, OnOk, IsTrue, nat_lt, length, take, string_bytes};
ghost use Rattle.st_host.specs.{Files.bytes_of, Runs.{ReadsAlike, OnlyReads, ChangesOneFile as ChangesFile}};
ghost use Rattle.st_store.specs.{Names.changes_file, Refusals.FaultHasCause};
ghost use Rattle.st_store.specs.declared.fault.StoreFault.TheVariants.{NotAStore};
ghost use Rattle.st_store.specs.declared.fault.StorePlace.TheVariants.{Changes as ChangesPlace};
ghost use Rattle.st_chunk.specs.Definitions.{IsDefinition, entries};
ghost use Rattle.st_changes.specs.Lists.{Lists, StandsAt, RefusesChanges, IsOfLoading, IsOutside, kept_changes};

use crate::changes::Changes;
use crate::listing::{Listing, list};
use st_host::{Host, read_from};
use st_store::{Store, StoreFault, StorePlace};
use std::alloc::{AllocError, Global};

/// The first bytes of a file, so many, or all that it has.
fn read_front<H: Host>(
    alloc: Global,
    host: &mut H,
    name: &str,
    length: u64,
) -> Result<Vec<u8>, StoreFault>
    ensures read { IfOk result (λ bytes. IsTrue H.is_told
        → bytes.items ≡ take length (bytes_of (H.files host.old name.now))) }
    ensures outside { IfErr result IsOutside }
    ensures alike { OnOk result (ReadsAlike H.Host.own host.old host.new) }
    ensures reads { OnlyReads H.Host.own host.old host.new }
    ensures only { ChangesFile H.Host.own name.now host.old host.new }
    ensures cause { FaultHasCause (H.disk_faults host.old) (H.disk_faults host.new) result }
{
    let mut bytes = vec![in alloc; 0; length as usize]?;
    let count = read_from(host, name, 0, &mut bytes)?;
    bytes.truncate(count);
    Ok(bytes)
}

fn owned(alloc: Global, name: &str) -> Result<String, AllocError>
    ensures { IfOk result (λ s. string_bytes s ≡ name.now) }
{
    let mut owned = String::new(alloc);
    owned.push_str(name)?;
    Ok(owned)
}

fn damaged(at: u64) -> StoreFault
    ensures { result ≡ NotAStore (ChangesPlace at) }
{
    StoreFault::NotAStore {
        place: StorePlace::Changes(at),
    }
}

/// Reads the changes file of a store up to the length that its root has, and lists the definitions that it keeps, without an index.
pub fn read_listing<H: Host>(
    alloc: Global,
    host: &mut H,
    store: &Store,
) -> Result<Listing, StoreFault>
    ensures named { IfOk result (λ changes. changes.name ≡ store.now.name) }
    ensures second { IfOk result (λ changes. changes.second ≡ nat_lt 1 store.now.root.slot) }
    ensures good { IfOk result (λ changes. All IsDefinition changes.listed) }
    ensures stands { IfOk result (λ changes. StandsAt changes.listed store.now.root.base) }
    ensures listed { IfOk result (λ changes. IsTrue H.is_told
        → Lists (kept_changes store.now (H.files host.old)) store.now.root.base changes.listed) }
    ensures whole { IfOk result (λ changes. store.now.root.length ≡ length (entries changes.listed)) }
    ensures refused { IfErr result (λ e. IsTrue H.is_told
        → RefusesChanges (kept_changes store.now (H.files host.old)) store.now.root e) }
    ensures kind { IfErr result IsOfLoading }
    ensures alike { OnOk result (ReadsAlike H.Host.own host.old host.new) }
    ensures reads { OnlyReads H.Host.own host.old host.new }
    ensures only { ChangesFile H.Host.own (changes_file store.now.name store.now.root.slot) host.old
        host.new }
    ensures cause { FaultHasCause (H.disk_faults host.old) (H.disk_faults host.new) result }
{
    let root = store.root();
    let bytes = read_front(alloc, host, store.changes_name(), root.length)?;
    let end = bytes.len() as u64;
    match list(alloc, &bytes, root.base)? {
        Ok(listed) if end == root.length => Ok(Listing {
            listed,
            length: end,
            name: owned(alloc, store.name())?,
            second: root.slot > 1,
        }),
        Ok(_) => Err(damaged(end)),
        Err(at) => Err(damaged(at)),
    }
}

/// The same with an index, for which the text of each definition is parsed.
pub fn load<H: Host>(alloc: Global, host: &mut H, store: &Store) -> Result<Changes, StoreFault>
    ensures named { IfOk result (λ changes. changes.name ≡ store.now.name) }
    ensures second { IfOk result (λ changes. changes.second ≡ nat_lt 1 store.now.root.slot) }
    ensures good { IfOk result (λ changes. All IsDefinition changes.listed) }
    ensures stands { IfOk result (λ changes. StandsAt changes.listed store.now.root.base) }
    ensures listed { IfOk result (λ changes. IsTrue H.is_told
        → Lists (kept_changes store.now (H.files host.old)) store.now.root.base changes.listed) }
    ensures whole { IfOk result (λ changes. store.now.root.length ≡ length (entries changes.listed)) }
    ensures refused { IfErr result (λ e. IsTrue H.is_told
        → RefusesChanges (kept_changes store.now (H.files host.old)) store.now.root e) }
    ensures kind { IfErr result IsOfLoading }
    ensures alike { OnOk result (ReadsAlike H.Host.own host.old host.new) }
    ensures reads { OnlyReads H.Host.own host.old host.new }
    ensures only { ChangesFile H.Host.own (changes_file store.now.name store.now.root.slot) host.old
        host.new }
    ensures cause { FaultHasCause (H.disk_faults host.old) (H.disk_faults host.new) result }
{
    let listing = read_listing(alloc, host, store)?;
    Ok(listing.index(alloc, &[])?)
}
