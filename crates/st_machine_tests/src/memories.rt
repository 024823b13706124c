//! The tables over each memory. A call that names what a memory is made of is dear to prove, so each has one.

use crate::cached;
use crate::draft::check_drafts;
use crate::events::check_events;
use crate::machines::check_machines;
use crate::near::check_near;
use crate::registers::check_registers;
use crate::rows::{self, check_rows};
use crate::searches::check_sent;
use st_counted::CountedLoader;
use st_lookup::CachedLoader;
use st_memory::Loader;
use st_plain::PlainLoader;
use std::alloc::AllocGlobal;
use std::process::Abort;
use std::test::Fail;

/// What each memory does.
fn check_memory<L: Loader>(rt: &(impl Abort + AllocGlobal)) -> Result<(), Fail> {
    check_rows::<L>(rt, rows::ROWS);
    check_drafts::<L>(rt);
    check_near::<L>(rt)?;
    check_registers::<L>(rt)?;
    check_events::<L>(rt)?;
    check_machines::<L>(rt)
}

/// What one does that remembers what searches found.
fn check_remembering<L: Loader>(rt: &(impl Abort + AllocGlobal)) -> Result<(), Fail> {
    check_rows::<L>(rt, cached::ROWS);
    check_sent::<L>(rt)?;
    check_memory::<L>(rt)
}

#[test]
fn tables_hold_over_a_plain_memory(rt: HostRuntime) -> Result<(), Fail> {
    check_memory::<PlainLoader>(&rt)
}

#[test]
fn tables_hold_over_a_memory_over_a_heap(rt: HostRuntime) -> Result<(), Fail> {
    check_memory::<CountedLoader>(&rt)
}

#[test]
fn tables_hold_over_a_memory_that_remembers(rt: HostRuntime) -> Result<(), Fail> {
    check_remembering::<CachedLoader<CountedLoader>>(&rt)
}
