//! A command, and calls of the host that fail.

use crate::files::{Files, IMAGE_B, host_with};
use st_counted::CountedLoader;
use st_host::{Host, Source};
use st_image::HeadValues;
use st_lookup::CachedLoader;
use st_memory::Loader;
use st_memory_host::{MemHost, MemSource};
use st_protocol::Status;
use st_session::{Extent, build, condense, export, import, once, session};
use std::alloc::Global;
use std::process::Abort;

/// Makes the memory that the program runs over.
type ProgramLoader = CachedLoader<CountedLoader>;

/// A command over the store S.
#[derive(Clone, Copy)]
pub enum Command {
    /// The report of four cycles of the image B.
    Once,
    /// The making of the store of the image G.
    Import,
    /// The same of what the kernel text K builds.
    Build,
    Session,
    /// The writing of the image I.
    Export(Extent),
    Condense,
}

/// Does a command over the memory that a loader makes.
fn call_over<H: Host, L: Loader, S: Source>(
    alloc: Global,
    host: &mut H,
    script: &mut S,
    command: Command,
) -> Status {
    match command {
        Command::Once => once::<H, L>(alloc, host, "B", 4),
        Command::Import => import::<H, L>(alloc, host, "G", "S", &HeadValues::NONE),
        Command::Build => build::<H, L>(alloc, host, "K", "S"),
        Command::Session => session::<H, L, S>(alloc, host, script, "S"),
        Command::Export(extent) => export::<H, L>(alloc, host, extent, "S", "I"),
        Command::Condense => condense::<H, L>(alloc, host, "S"),
    }
}

/// Does a command. A call that names what a memory is made of is dear to prove, so this is the only one.
pub fn call(alloc: Global, host: &mut MemHost, script: &mut MemSource, command: Command) -> Status {
    call_over::<MemHost, ProgramLoader, MemSource>(alloc, host, script, command)
}

/// Does a command with a script, of which the source gives up to 512 bytes at a time.
pub fn obey(
    rt: &impl Abort,
    alloc: Global,
    host: &mut MemHost,
    command: Command,
    script: &str,
) -> Status {
    let mut script = MemSource::new(alloc, script.as_bytes(), 512, &[]).expect(rt, "memory");
    call(alloc, host, &mut script, command)
}

const ONE_FILE: Files<'static> = &[("B", IMAGE_B)];

/// The number of the host's call that fails, the status, and how many bytes were said. The report of four cycles has 566 bytes,
/// which are said in two pieces, after two calls on the file.
const FAULTS: &[(u64, Status, usize)] = &[
    (1, Status::DiskFault, 11),
    (2, Status::DiskFault, 11),
    (3, Status::SayFault, 0),
    (4, Status::SayFault, 512),
    (5, Status::Done, 566),
];

/// Whether a host of which a call fails ends the command so, after so many bytes.
fn ends_so(rt: &impl Abort, alloc: Global, (failing, status, said): (u64, Status, usize)) -> bool {
    let mut host = host_with(rt, alloc, ONE_FILE);
    host.fail(alloc, &[failing]).expect(rt, "memory");
    obey(rt, alloc, &mut host, Command::Once, "") == status && host.said().len() == said
}

#[test]
fn faults_of_the_host_are_told(rt: HostRuntime) {
    for row in FAULTS {
        assert!(rt; ends_so(&rt, rt.alloc(), *row));
    }
}
