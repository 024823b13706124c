ghost use Rattle.std.specs.{Prelude.{◌≡◌, map, IsTrue, IfOk, IfErr}, String.string_bytes, Process.exit_status};
ghost use Rattle.st_host.specs.Counts.{Rose};
ghost use Rattle.st_protocol.specs.Statuses.{number_of};
ghost use Rattle.st_call.specs.LastLines.{SaysLastLine};
ghost use Rattle.st_session.specs.Calls.{CallEnds};

use st_call::{Command, read_command, report_status};
use st_counted::CountedLoader;
use st_host::{Host, Source};
use st_lookup::CachedLoader;
use st_protocol::Status;
use st_session::{Extent, build, condense, drill, export, import, once, session};
use std::alloc::Global;
use std::process::ExitCode;

/// Makes the memory that all commands run over: the program's, which also remembers what searches for methods found.
type ProgramLoader = CachedLoader<CountedLoader>;

/// Does the command that the words say, without the program's name.
///
/// `once IMAGE N` reads the image file IMAGE, runs N cycles of its machine, and says the run's end and what the machine shows
/// then. `import IMAGE STORE` makes a store of an image, with the values of options in place of those of its head. `export STORE
/// IMAGE` writes an image of what a store holds, and `clean STORE IMAGE` one of what can be reached there. `condense STORE` drops
/// definitions of a store that later ones supersede. `session STORE` opens a
/// store, and follows a script over what it holds, whose bytes are taken from the source. `build KERNEL STORE` makes a store of the
/// image that a kernel text builds. `drill N` runs a million cycles of an image that is built in memory from the number N, which
/// decides how large it is. No file is changed but the store's, and the image's by `export` and `clean`.
///
/// For every well-formed image, script and n, after n bytecodes the kept objects, display, input state and output are those of
/// the book's interpreter over objects never reclaimed or moved. A halt for space comes exactly where the table or the heap
/// cannot hold the next bytecode's objects. And stopped within any disk write, opening gives the last snapshot with a prefix of
/// the accepted definitions replayed, every acknowledged one included.
pub fn tool<H: Host, S: Source>(
    alloc: Global,
    words: &[String],
    host: &mut H,
    script: &mut S,
) -> Status
    ensures ends { let reads = Rose (S.read_faults script.old) (S.read_faults script.new) in
        CallEnds H.Host.own (map string_bytes words.now) (IsTrue S.is_told) reads
        (S.remaining script.old) (S.remaining script.new) host.old host.new result }
{
    match read_command(words) {
        Some(Command::Once { image, cycles }) => {
            once::<H, ProgramLoader>(alloc, host, image, cycles)
        }
        Some(Command::Import { image, store, over }) => {
            import::<H, ProgramLoader>(alloc, host, image, store, &over)
        }
        Some(Command::Export { store, image }) => {
            export::<H, ProgramLoader>(alloc, host, Extent::Kept, store, image)
        }
        Some(Command::Clean { store, image }) => {
            export::<H, ProgramLoader>(alloc, host, Extent::Reachable, store, image)
        }
        Some(Command::Condense { store }) => condense::<H, ProgramLoader>(alloc, host, store),
        Some(Command::Session { store }) => {
            session::<H, ProgramLoader, S>(alloc, host, script, store)
        }
        Some(Command::Build { kernel, store }) => {
            build::<H, ProgramLoader>(alloc, host, kernel, store)
        }
        Some(Command::Drill { number }) => drill::<H, ProgramLoader>(alloc, host, number),
        None => {
            report_status(host, Status::Usage);
            Status::Usage
        }
    }
}

/// The exit code of a call with these words, which is the number of its status. Where the words were not to be had, it is that of the
/// status that comes in their place, whose last line is said.
pub fn exit_code<H: Host, S: Source>(
    alloc: Global,
    words: Result<Vec<String>, Status>,
    host: &mut H,
    script: &mut S,
) -> ExitCode
    ensures ends { IfOk words (λ given. let reads = Rose (S.read_faults script.old) (S.read_faults script.new) in
        (status : Status) × (exit_status result ≡ number_of status)
        × CallEnds H.Host.own (map string_bytes given.items) (IsTrue S.is_told) reads
        (S.remaining script.old) (S.remaining script.new) host.old host.new status) }
    ensures refused { IfErr words (λ status. (exit_status result ≡ number_of status)
        × SaysLastLine H.Host.own status host.old host.new) }
{
    let status = match words {
        Ok(words) => tool(alloc, words.as_slice(), host, script),
        Err(status) => {
            report_status(host, status);
            status
        }
    };
    ExitCode::from(status.number())
}
