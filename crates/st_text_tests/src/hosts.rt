//! Hosts in memory, and what their files have.

use st_host::{Host, file_length, read_from};
use st_memory_host::MemHost;
use std::alloc::{AllocError, Global};
use std::process::Abort;

/// A host with a store's roots file and changes file, and with room for calls.
pub fn host_with(alloc: Global, roots: &[u8], changes: &[u8]) -> Result<MemHost, AllocError> {
    let mut host = MemHost::new(alloc)?;
    host.put(alloc, "s.roots", roots)?;
    host.put(alloc, "s.changes", changes)?;
    host.room_for(alloc, 1000, 100)?;
    Ok(host)
}

/// A file has these bytes, and no others.
pub fn check_file<H: Host>(
    rt: &impl Abort,
    alloc: Global,
    host: &mut H,
    name: &str,
    wanted: &[u8],
) {
    let length = file_length(host, name);
    let mut bytes = vec![in alloc; 0; wanted.len()].expect(rt, "memory");
    let count = read_from(host, name, 0, &mut bytes);
    let is_whole = length == Ok(Some(wanted.len() as u64)) && count == Ok(wanted.len());
    assert!(rt; is_whole && bytes.as_slice() == wanted, "in {name}");
}
