//! The table of jobs: commands that make, change or open a store, with each kind of trouble at each call of the host, from the
//! first one on until a run meets none; and how the store opens after each.

use crate::commands::{Command, call, obey};
use crate::files::{Files, IMAGE_G, Parts, STORE_G, host_with};
use st_memory_host::{Leave, MemHost, MemSource};
use st_protocol::Status;
use st_session::Extent;
use std::alloc::Global;
use std::process::Abort;

/// How a session of the line `used` ends over a store: its exit status, and all that it says.
type Opening<'a> = (u8, &'a str);

/// How a store may open where so many lines of a run were said, and how it opens once what the next line tells is done.
type Openings<'a> = (&'a [Opening<'a>], Opening<'a>);

/// A run of a command.
#[derive(Clone, Copy)]
struct Run<'a> {
    command: Command,
    files: Files<'a>,
    script: &'a str,
    /// All that it says without trouble.
    said: &'a str,
    /// By the number of lines that were said.
    openings: &'a [Openings<'a>],
}

/// Over the image, with one definition after it, with both, and over the snapshot.
const OLD: Opening<'static> = (0, "opened 0 0\nused 35 131\n");

const ONE: Opening<'static> = (0, "opened 1 0\nused 37 138\n");

const BOTH: Opening<'static> = (0, "opened 2 0\nused 39 149\n");

const NEW: Opening<'static> = (0, "opened 0 0\nused 39 149\n");

/// Two definitions, and a snapshot after them. What is acknowledged is kept, and perhaps what comes next.
const SESSION: Run<'static> = Run {
    command: Command::Session,
    files: STORE_G,
    script: "!Point methodsFor: 'a'!\nx ^x!\ny ^y! !\nsnapshot\n",
    said: "opened 0 0\naccepted Point x\naccepted Point y\nsnapshot 1276\n",
    openings: &[
        (&[], OLD),
        (&[OLD], ONE),
        (&[ONE], BOTH),
        (&[BOTH], NEW),
        (&[], NEW),
    ],
};

/// The roots file of a store whose second root is the chosen one, and has the definition that the first one has not.
const UNEQUAL_ROOTS: Parts<'static> = &[
    (0, b"ST80ROOT\x01"),
    (30, &[4, 144]),
    (62, &[4, 144]),
    (79, b"\x20"),
];

/// An opening makes both roots alike.
const OPENING: Run<'static> = Run {
    command: Command::Session,
    files: &[
        ("S.roots", UNEQUAL_ROOTS),
        ("S.a", IMAGE_G),
        ("S.changes", &[(0, b"!Point methodsFor: 'a'!\nx ^x! !\n")]),
    ],
    script: "used",
    said: "opened 1 0\nused 37 138\n",
    openings: &[(&[], ONE), (&[], ONE), (&[], ONE)],
};

/// The store stays as it is.
const EXPORT: Run<'static> = Run {
    command: Command::Export(Extent::Kept),
    files: STORE_G,
    script: "",
    said: "exported 1240\n",
    openings: &[(&[], OLD), (&[], OLD)],
};

/// So it does here; all of this image is reached.
const CLEAN: Run<'static> = Run {
    command: Command::Export(Extent::Reachable),
    files: STORE_G,
    script: "",
    said: "cleaned 35 131\n",
    openings: &[(&[], OLD), (&[], OLD)],
};

/// The roots file of a store whose changes are two definitions of one method before the base, and one more of another after it.
const ROOTS_WITH_BASE: Parts<'static> = &[
    (0, b"ST80ROOT"),
    (30, &[4, 144]),
    (39, b"\x40"),
    (47, b"\x60"),
    (80, &[]),
];

const THREE: &[u8] =
    b"!Point methodsFor: 'a'!\nx ^x! !\n!Point methodsFor: 'a'!\nx ^y! !\n!Point methodsFor: 'a'!\ny ^y! !\n";

/// What opening installs stays as it is.
const CONDENSE: Run<'static> = Run {
    command: Command::Condense,
    files: &[
        ("S.roots", ROOTS_WITH_BASE),
        ("S.a", IMAGE_G),
        ("S.changes", &[(0, THREE)]),
    ],
    script: "",
    said: "condensed 3 2\n",
    openings: &[(&[], ONE), (&[], ONE)],
};

/// No store: the roots file isn't there, or its first letter, or the second one, is wrong.
const NO_STORE: &[Opening<'static>] = &[
    (7, "store missing\n"),
    (7, "store damaged roots 0\n"),
    (7, "store damaged roots 1\n"),
];

/// There is no store, or the new one, which there is once that was told.
const IMPORT: Run<'static> = Run {
    command: Command::Import,
    files: &[("G", IMAGE_G)],
    script: "",
    said: "imported 35 131\n",
    openings: &[(NO_STORE, OLD), (&[], OLD)],
};

/// The classes that a kernel text has to declare, and a start that waits for ever.
const KERNEL: &[u8] = b"class Object super nil fixed!
class UndefinedObject super Object fixed!
class False super Object fixed!
class True super Object fixed!
class SmallInteger super Object fixed!
class Metaclass super Object fixed!
class Association super Object fixed a b!
class Point super Object fixed x y!
class Message super Object fixed a b!
class ProcessorScheduler super Object fixed a b!
class LinkedList super Object fixed a b!
class Process super Object fixed a b c d!
class Character super Object fixed a!
class Array super Object indexed!
class MethodContext super Object indexed a b c d e f!
class BlockContext super Object indexed a b c d e f!
class MethodDictionary super Object indexed a b!
class String super Object bytes!
class Symbol super Object bytes!
class LargePositiveInteger super Object bytes!
class CompiledMethod super Object bytes!
global Start!
!UndefinedObject methodsFor: 's'!
boot [true] whileTrue: [nil]! !
start Start boot!
";

const BUILT: Opening<'static> = (0, "opened 0 0\nused 523 3163\n");

/// As of an import.
const BUILD: Run<'static> = Run {
    command: Command::Build,
    files: &[("K", &[(0, KERNEL)])],
    script: "",
    said: "built 523 3163\n",
    openings: &[(NO_STORE, BUILT), (&[], BUILT)],
};

/// What troubles a call of the host.
#[derive(Clone, Copy)]
enum Trouble {
    /// It fails.
    Fails,
    /// The host stops as it ends.
    StopsAfter,
    /// The host stops within it, after so many bytes.
    StopsWithin(u64),
}

const TROUBLES: &[Trouble] = &[
    Trouble::Fails,
    Trouble::StopsAfter,
    Trouble::StopsWithin(0),
    Trouble::StopsWithin(1),
    Trouble::StopsWithin(u64::MAX),
];

const LEAVES: &[Leave] = &[Leave::Old, Leave::New, Leave::Ones];

/// More calls than each of these runs makes.
const CALLS: u64 = 80;

fn set_trouble(rt: &impl Abort, alloc: Global, host: &mut MemHost, trouble: Trouble, call: u64) {
    match trouble {
        Trouble::Fails => host.fail(alloc, &[call]).expect(rt, "memory"),
        Trouble::StopsAfter => host.stop_after(call),
        Trouble::StopsWithin(bytes) => host.stop_within(call, bytes),
    }
}

/// What was said, without the last line where that tells of a fault of the disk.
fn told_by(said: &[u8], status: Status) -> &[u8] {
    if status == Status::DiskFault {
        said.strip_suffix(b"disk fault\n").unwrap_or(said)
    } else {
        said
    }
}

fn count_lines(text: &[u8]) -> usize {
    let mut lines = 0usize;
    for byte in text {
        if *byte == b'\n' {
            lines = lines.saturating_add(1);
        }
    }
    lines
}

/// Whether a run ended as it does without trouble, or with a fault after first bytes of what it says without.
fn is_told(run: &Run<'_>, status: Status, told: &[u8]) -> bool {
    match status {
        Status::Done => told == run.said.as_bytes(),
        Status::DiskFault | Status::SayFault => run.said.as_bytes().starts_with(told),
        _ => false,
    }
}

/// Follows the line `used` over a store.
fn open(rt: &impl Abort, alloc: Global, host: &mut MemHost) -> Status {
    obey(rt, alloc, host, Command::Session, "used")
}

/// Whether a store opens as one of these.
fn is_one_of(openings: &[Opening<'_>], number: u8, said: &[u8]) -> bool {
    for (wanted, text) in openings {
        if *wanted == number && text.as_bytes() == said {
            return true;
        }
    }
    false
}

/// What came of a run: how many lines it told, and whether the next one failed to be said. Such a line tells of what is done.
#[derive(Clone, Copy)]
struct Followed {
    lines: usize,
    unsaid: bool,
}

/// Whether a store may open so after a run.
fn may_open(run: &Run<'_>, followed: Followed, number: u8, said: &[u8]) -> bool {
    match run.openings.get(followed.lines) {
        Some((before, after)) => {
            is_one_of(&[*after], number, said)
                || !followed.unsaid && is_one_of(before, number, said)
        }
        None => false,
    }
}

/// The host that a stop leaves, with room for an opening.
fn left_by(rt: &impl Abort, alloc: Global, host: MemHost, how: Leave) -> MemHost {
    let mut left = host.after_stop(alloc, how).expect(rt, "memory");
    left.room_for(alloc, 4000, 100).expect(rt, "memory");
    left
}

/// Opens the store that a stop leaves, with trouble at a call; after a stop of that it opens without, as the same commit.
fn check_left(
    rt: &impl Abort,
    alloc: Global,
    host: MemHost,
    run: &Run<'_>,
    followed: Followed,
    (trouble, how, call): (Trouble, Leave, u64),
) {
    let mut left = left_by(rt, alloc, host, how);
    set_trouble(rt, alloc, &mut left, trouble, call);
    let first = open(rt, alloc, &mut left);
    let told = told_by(left.said(), first)
        .to_vec(alloc)
        .expect(rt, "memory");
    let mut left = left_by(rt, alloc, left, how);
    let opened = open(rt, alloc, &mut left);
    let opens = may_open(run, followed, opened.number(), left.said());
    assert!(rt;
        opens && left.said().starts_with(&told),
        "after {} lines",
        followed.lines
    );
}

/// Follows a run with trouble at a call, and opens the store that a stop after it leaves. Answers whether it met none.
fn check_run(
    rt: &impl Abort,
    alloc: Global,
    run: &Run<'_>,
    (trouble, how, call): (Trouble, Leave, u64),
) -> bool {
    let mut host = host_with(rt, alloc, run.files);
    set_trouble(rt, alloc, &mut host, trouble, call);
    let status = obey(rt, alloc, &mut host, run.command, run.script);
    let told = told_by(host.said(), status);
    assert!(rt; is_told(run, status, told));
    let followed = Followed {
        lines: count_lines(told),
        unsaid: matches!((trouble, status), (Trouble::Fails, Status::SayFault)),
    };
    check_left(rt, alloc, host, run, followed, (trouble, how, call));
    status == Status::Done
}

/// Follows a run with trouble at each call, until it meets none.
fn check_calls(rt: &impl Abort, alloc: Global, run: &Run<'_>, trouble: Trouble, how: Leave) {
    let mut is_done = false;
    for call in 1..CALLS {
        is_done = is_done || check_run(rt, alloc, run, (trouble, how, call));
    }
    assert!(rt; is_done);
}

/// The same with each trouble, and all that a stop may leave.
fn check_troubles(rt: &impl Abort, alloc: Global, run: &Run<'_>) {
    for trouble in TROUBLES {
        for how in LEAVES {
            check_calls(rt, alloc, run, *trouble, *how);
        }
    }
}

#[test]
fn a_session_leaves_the_commits_that_were_acknowledged(rt: HostRuntime) {
    check_troubles(&rt, rt.alloc(), &SESSION);
}

#[test]
fn an_opening_leaves_the_commit_that_was_chosen(rt: HostRuntime) {
    check_troubles(&rt, rt.alloc(), &OPENING);
}

#[test]
fn an_export_and_a_clean_leave_the_store(rt: HostRuntime) {
    check_troubles(&rt, rt.alloc(), &EXPORT);
    check_troubles(&rt, rt.alloc(), &CLEAN);
}

#[test]
fn a_condense_leaves_what_opening_installs(rt: HostRuntime) {
    check_troubles(&rt, rt.alloc(), &CONDENSE);
}

#[test]
fn an_import_leaves_no_store_or_the_new_one(rt: HostRuntime) {
    check_troubles(&rt, rt.alloc(), &IMPORT);
}

/// Of a build, which takes the memory of the largest machine each time, two alone.
#[test]
fn a_build_with_a_fault_leaves_no_store_or_the_new_one(rt: HostRuntime) {
    check_calls(&rt, rt.alloc(), &BUILD, Trouble::Fails, Leave::New);
}

#[test]
fn a_build_that_stops_leaves_no_store_or_the_new_one(rt: HostRuntime) {
    check_calls(
        &rt,
        rt.alloc(),
        &BUILD,
        Trouble::StopsWithin(1),
        Leave::Ones,
    );
}

/// Takes of the script by one byte each, of which one fails: the first number, and the one after the last; what is said then, and how
/// the store opens. The byte after its `!` tells that a definition ended.
const TAKES: &[(u64, u64, &str, Opening<'static>)] = &[
    (1, 31, "opened 0 0\nread fault\n", OLD),
    (31, 37, "opened 0 0\naccepted Point x\nread fault\n", ONE),
    (
        37,
        48,
        "opened 0 0\naccepted Point x\naccepted Point y\nread fault\n",
        BOTH,
    ),
    (
        48,
        49,
        "opened 0 0\naccepted Point x\naccepted Point y\nsnapshot 1276\nread fault\n",
        NEW,
    ),
];

/// A session whose source fails at a take.
fn check_take(rt: &impl Abort, alloc: Global, take: u64, said: &str, opening: Opening<'_>) {
    let mut host = host_with(rt, alloc, SESSION.files);
    let mut script = MemSource::new(alloc, SESSION.script.as_bytes(), 1, &[take]).expect(
        rt, "memory",
    );
    let status = call(alloc, &mut host, &mut script, Command::Session);
    let is_told = status == Status::ReadFault && host.said() == said.as_bytes();
    let mut left = left_by(rt, alloc, host, Leave::Old);
    let opened = open(rt, alloc, &mut left);
    assert!(rt; is_told && is_one_of(&[opening], opened.number(), left.said()));
}

#[test]
fn a_source_that_fails_leaves_what_was_told(rt: HostRuntime) {
    for (first, end, said, opening) in TAKES {
        for take in *first..*end {
            check_take(&rt, rt.alloc(), take, said, *opening);
        }
    }
}
