ghost use Rattle.std.specs.Prelude.{◌≡◌, ◌⊎◌, ◌<◌, ◌^◌, length, IsTrue, OnOk, Err};
ghost use Rattle.st_host.specs.Counts.{Rose};
ghost use Rattle.st_model.specs.{Machine.State, Births.Births, View.no_devices};
ghost use Rattle.st_frames.specs.inside.Shown.{IsFrame};
ghost use Rattle.st_chunk.specs.Reading.{line_from, read, end_read};
ghost use Rattle.st_chunk.specs.Scripts.{told_from, read_through, asked_by, asked_at_end};
ghost use Rattle.st_store.specs.Names.{IsNoFileOf};
ghost use Rattle.st_protocol.specs.declared.status.Status.TheVariants.{Done, ReadFault as Unread, TooLarge};
ghost use Rattle.st_protocol.specs.{declared.status.Status.TheVariants.OutOfMemory, Courses.{ended, IsEnd}};
ghost use Rattle.st_protocol.specs.Statuses.{Counts, StatusHasCause};
ghost use Rattle.st_recover.specs.{Commits.{Commit, OpensAs}, inside.Replayings.losses_of};
ghost use Rattle.st_install.specs.Defining.{installed};
ghost use Rattle.st_session.specs.{Ends.{IsCalm, NoCountFell, SessionEnds, status_in}, Keeping.in_a_store};
ghost use Rattle.st_session.specs.Sessions.{follow, follow_script, follow_told, asked_in};
ghost use Rattle.st_session.specs.Sessions.{session, session_so_far, session_of};
ghost use Rattle.st_session.specs.inside.Standing.{MayGoOn, Follows, FollowsTold, FollowsSome, Serves};
ghost use Rattle.st_session.specs.inside.OpenSessions.{IsOpen};
ghost use Rattle.st_session.specs.Opening.{session_over, session_so_far_over, session_of_over};
ghost use Rattle.st_call.specs.inside.Telling.{IsOfServing};

use crate::first_lines::say_opening;
use crate::kept::SessionState;
use crate::serving::follow;
use st_chunk::Reader;
use st_frames::World;
use st_host::{Host, ReadFault, Source};
use st_machine::Machine;
use st_memory::Memory;
use st_protocol::Status;
use st_recover::{Archive, Lost, Opened};
use std::alloc::{AllocError, Global};

/// The most bytes that a script may have, 2^32.
const LONGEST: u64 = 4_294_967_296;

/// Reads a byte of the script, and answers what it tells to be asked for.
fn feed<H: Host, M: Memory>(
    alloc: Global,
    host: &mut H,
    kept: &mut SessionState<M>,
    reader: &mut Reader,
    byte: u8,
) -> Result<(), Status>
    requires go_on { MayGoOn M.view kept.old }
    ensures reader { reader.new ≡ (read reader.old byte).0 }
    ensures serves { Serves M.view H.Host.own
        (λ p. follow in_a_store installed p (asked_by (read reader.old byte))) (host.new ≡ host.old)
        kept.old host.old result kept.new host.new }
{
    let request = reader.feed(byte);
    follow(alloc, host, kept, reader, request)
}

/// Reads these bytes of the script, and answers what they tell to be asked for.
fn feed_all<H: Host, M: Memory>(
    alloc: Global,
    host: &mut H,
    kept: &mut SessionState<M>,
    reader: &mut Reader,
    bytes: &[u8],
) -> Result<(), Status>
    requires go_on { MayGoOn M.view kept.old }
    ensures reader { OnOk result (reader.new ≡ read_through reader.old bytes.now) }
    ensures serves { Serves M.view H.Host.own
        (λ p. follow in_a_store installed p (told_from reader.old bytes.now))
        (FollowsSome M.view H.Host.own (follow in_a_store installed) (told_from reader.old bytes.now)
        kept.old host.old host.new)
        kept.old host.old result kept.new host.new }
{
    for byte in bytes {
        match feed(alloc, host, kept, reader, *byte) {
            Ok(()) => {}
            Err(status) => return Err(status),
        }
    }
    Ok(())
}

/// Comes to the end of the script, and answers what it tells to be asked for.
fn end<H: Host, M: Memory>(
    alloc: Global,
    host: &mut H,
    kept: &mut SessionState<M>,
    reader: &mut Reader,
) -> Result<(), Status>
    requires go_on { MayGoOn M.view kept.old }
    ensures reader { reader.new ≡ (end_read reader.old).0 }
    ensures serves { Serves M.view H.Host.own
        (λ p. follow in_a_store installed p (asked_by (end_read reader.old))) (host.new ≡ host.old)
        kept.old host.old result kept.new host.new }
{
    let request = reader.finish();
    follow(alloc, host, kept, reader, request)
}

/// Comes to the end of the script, and behind a method once more. Answers the status in which the session ends.
fn finish<H: Host, M: Memory>(
    alloc: Global,
    host: &mut H,
    kept: &mut SessionState<M>,
    reader: &mut Reader,
) -> Status
    requires go_on { MayGoOn M.view kept.old }
    ensures { Serves M.view H.Host.own
        (λ p. ended (follow in_a_store installed p (asked_at_end reader.old)) Done)
        (FollowsSome M.view H.Host.own (follow in_a_store installed) (asked_at_end reader.old)
        kept.old host.old host.new)
        kept.old host.old (Err result) kept.new host.new }
{
    match end(alloc, host, kept, reader) {
        Ok(()) => match end(alloc, host, kept, reader) {
            Ok(()) => Status::Done,
            Err(status) => status,
        },
        Err(status) => status,
    }
}

/// Reads the last bytes of the script that may come; it has more. Answers the status in which the session ends.
fn feed_last<H: Host, M: Memory>(
    alloc: Global,
    host: &mut H,
    kept: &mut SessionState<M>,
    reader: &mut Reader,
    bytes: &[u8],
) -> Status
    requires go_on { MayGoOn M.view kept.old }
    ensures { Serves M.view H.Host.own
        (λ p. ended (follow in_a_store installed p (told_from reader.old bytes.now)) TooLarge)
        (FollowsSome M.view H.Host.own (follow in_a_store installed) (told_from reader.old bytes.now)
        kept.old host.old host.new)
        kept.old host.old (Err result) kept.new host.new }
{
    match feed_all(alloc, host, kept, reader, bytes) {
        Ok(()) => Status::TooLarge,
        Err(status) => status,
    }
}

/// Follows a script, and answers the status in which the session ends.
fn follow_script<H: Host, M: Memory, S: Source>(
    alloc: Global,
    host: &mut H,
    script: &mut S,
    kept: &mut SessionState<M>,
    reader: &mut Reader,
) -> Status
    requires go_on { MayGoOn M.view kept.old }
    requires begins { reader.old ≡ line_from 1 }
    ensures follows { IsTrue S.is_told → Follows M.view H.Host.own
        (λ p. follow_script in_a_store installed p (S.remaining script.old))
        kept.old host.old (Err result) kept.new host.new }
    ensures told { result ≡ Unread → IsTrue S.is_told → FollowsTold M.view H.Host.own
        (follow_told in_a_store installed) (S.remaining script.old) (S.remaining script.new)
        kept.old host.old host.new }
    ensures counts { Counts H.Host.own (Rose (S.read_faults script.old) (S.read_faults script.new))
        host.old host.new (Err result) }
    ensures served { IsOfServing result }
    ensures starved { result ≡ OutOfMemory → IsTrue S.is_told → FollowsSome M.view H.Host.own
        (follow in_a_store installed) (asked_in (S.remaining script.old))
        kept.old host.old host.new }
{
    let mut left = LONGEST;
    let mut piece = [0; 512];
    'pieces: loop {
        let count = match script.take(&mut piece) {
            Ok(count) => count,
            Err(ReadFault) => return Status::ReadFault,
        };
        if count == 0 {
            return finish(alloc, host, kept, reader);
        }
        let bytes = &piece[..count];
        if count as u64 > left {
            return feed_last(alloc, host, kept, reader, &bytes[..left as usize]);
        }
        match feed_all(alloc, host, kept, reader, bytes) {
            Ok(()) => left -= count as u64,
            Err(status) => return status,
        }
    }
}

/// Says what was replayed and what was lost, and follows a script. Answers the status in which the session ends.
fn run_session<H: Host, M: Memory, S: Source>(
    alloc: Global,
    host: &mut H,
    script: &mut S,
    kept: &mut SessionState<M>,
    replayed: u32,
    lost: &[Lost],
) -> Status
    requires few { length lost.now < 2 ^ 32 }
    requires go_on { MayGoOn M.view kept.old }
    ensures follows { IsTrue S.is_told → Follows M.view H.Host.own
        (λ p. session in_a_store installed replayed (losses_of lost.now) p (S.remaining script.old))
        kept.old host.old (Err result) kept.new host.new }
    ensures told { result ≡ Unread → IsTrue S.is_told → FollowsTold M.view H.Host.own
        (session_so_far in_a_store installed replayed (losses_of lost.now))
        (S.remaining script.old) (S.remaining script.new)
        kept.old host.old host.new }
    ensures counts { Counts H.Host.own (Rose (S.read_faults script.old) (S.read_faults script.new))
        host.old host.new (Err result) }
    ensures served { IsOfServing result }
    ensures starved { result ≡ OutOfMemory → IsTrue S.is_told → (host.new ≡ host.old) ⊎
        FollowsSome M.view H.Host.own (session_of in_a_store installed replayed (losses_of lost.now))
        (asked_in (S.remaining script.old)) kept.old host.old host.new }
{
    let mut reader = match Reader::new(alloc) {
        Ok(reader) => reader,
        Err(AllocError) => return Status::OutOfMemory,
    };
    match say_opening(host, replayed, lost) {
        Ok(()) => follow_script(alloc, host, script, kept, &mut reader),
        Err(status) => status,
    }
}

/// The status in which a command ends; where nothing ended it, it is done.
pub(crate) fn status_of(answer: Result<(), Status>) -> Status
    ensures { result ≡ status_in answer }
{
    match answer {
        Ok(()) => Status::Done,
        Err(status) => status,
    }
}

/// Follows a script, line by line and group by group, over a store that was opened: over a machine that begins with its objects
/// and registers, in an empty world. Answers the status in which that ends. A definition is in the store, synced, before it is said to be accepted, and a snapshot
/// before its length is said. All memory but that of definitions and of lines `source` is taken at the beginning.
pub fn serve<M: Memory, H: Host, S: Source>(
    alloc: Global,
    host: &mut H,
    script: &mut S,
    opened: Opened<M>,
) -> Status
    requires frame { IsFrame (M.view opened.loaded.memory) opened.loaded.frame }
    requires quiet { (M.view opened.loaded.memory).held.devices ≡ no_devices }
    ensures ends { IsTrue S.is_told → (c : Commit) (s : State Births)
        → IsOpen M.view H.Host.own host.old opened c s
        → SessionEnds H.Host.own (OpensAs opened.store.name) (IsNoFileOf opened.store.name) c
        opened.store.name (session_over opened.replayed (losses_of opened.lost.items) s c
        (S.remaining script.old))
        (session_so_far_over opened.replayed (losses_of opened.lost.items) s c)
        (session_of_over opened.replayed (losses_of opened.lost.items) s c)
        (asked_in (S.remaining script.old))
        (S.remaining script.old) (S.remaining script.new) host.old host.new result }
    ensures complete { IsTrue S.is_told → (c : Commit) (s : State Births)
        → IsOpen M.view H.Host.own host.old opened c s
        → IsEnd (session_over opened.replayed (losses_of opened.lost.items) s c
        (S.remaining script.old)) Done
        → IsCalm H.Host.own (Rose (S.read_faults script.old) (S.read_faults script.new)) host.old host.new
        → (result ≡ Done) ⊎ (result ≡ OutOfMemory) }
    ensures cause { StatusHasCause H.Host.own (Rose (S.read_faults script.old) (S.read_faults script.new))
        host.old host.new result }
    ensures counts { NoCountFell H.Host.own host.old host.new }
    ensures kind { IsOfServing result }
{
    let world = match World::new(alloc) {
        Ok(world) => world,
        Err(AllocError) => return Status::OutOfMemory,
    };
    let machine = Machine::boot(opened.loaded, world);
    let archive = Archive::new(opened.store, opened.changes);
    let mut kept = SessionState { machine, archive };
    run_session(
        alloc,
        host,
        script,
        &mut kept,
        opened.replayed,
        &opened.lost,
    )
}
