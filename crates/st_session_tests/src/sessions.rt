//! Scripts in pieces of any size, and sources that fail.

ghost use Rattle.std.specs.Prelude.{◌<◌};

use crate::commands::{Command, call};
use crate::files::{STORE_B, host_with};
use st_memory_host::MemSource;
use st_protocol::Status;
use std::alloc::Global;
use std::process::Abort;

/// A script, the number of the source's call that fails (0: none does), the status, and all that is said.
type Session<'a> = (&'a str, u64, Status, &'a str);

/// Follows a script over a store of image B, of which the source gives so many bytes at a time.
fn check_session(rt: &impl Abort, alloc: Global, piece: usize, row: &Session<'_>)
    requires { 0 < piece }
{
    let (text, failing, status, said) = row;
    let mut host = host_with(rt, alloc, STORE_B);
    let mut script = MemSource::new(alloc, text.as_bytes(), piece, &[*failing]).expect(
        rt, "memory",
    );
    let ended = call(alloc, &mut host, &mut script, Command::Session);
    assert!(rt; ended == *status && host.said() == said.as_bytes());
}

/// Follows scripts.
fn check_sessions(rt: &impl Abort, alloc: Global, piece: usize, rows: &[Session<'_>])
    requires { 0 < piece }
{
    for row in rows {
        check_session(rt, alloc, piece, row);
    }
}

const SESSIONS: &[Session<'static>] = &[
    ("", 0, Status::Done, "opened 0 0\n"),
    ("used\r\nend", 0, Status::Done, "opened 0 0\nused 24 78\n"),
    (
        "run 4\n\t\ninput 5\n",
        0,
        Status::Done,
        "opened 0 0\nran 4\nok\n",
    ),
    ("end\nhop\n", 0, Status::Done, "opened 0 0\n"),
    (
        "object 64\r\nsenders x\nmethods Point class\nclasses",
        0,
        Status::Done,
        "opened 0 0\nobject 64 @34 m 128 : 118 119 104 163 251\nsenders 0\nnot found\nclasses 0\n",
    ),
    (
        "!Point methodsFor: 'a'!\nx ^x! !\nclock 1",
        0,
        Status::Done,
        "opened 0 0\nrefused install 2\nok\n",
    ),
    (
        "hop\n",
        0,
        Status::Script { line: 1 },
        "opened 0 0\nscript 1\n",
    ),
    (
        "tick 1\n used\n",
        0,
        Status::Script { line: 2 },
        "opened 0 0\nok\nscript 2\n",
    ),
    (
        "\n!Point methodsFor: 'a'!",
        0,
        Status::Script { line: 2 },
        "opened 0 0\nscript 2\n",
    ),
];

#[test]
fn a_script_is_followed_in_pieces_of_any_size(rt: HostRuntime) {
    check_sessions(&rt, rt.alloc(), 1, SESSIONS);
    check_sessions(&rt, rt.alloc(), 7, SESSIONS);
    check_sessions(&rt, rt.alloc(), 512, SESSIONS);
}

const TEXT: &str = "input 5\nend\n";

/// Eight bytes are the first line, which is answered once the eighth was taken.
const FAILING: &[Session<'static>] = &[
    (TEXT, 1, Status::ReadFault, "opened 0 0\nread fault\n"),
    (TEXT, 8, Status::ReadFault, "opened 0 0\nread fault\n"),
    (TEXT, 9, Status::ReadFault, "opened 0 0\nok\nread fault\n"),
    (TEXT, 12, Status::ReadFault, "opened 0 0\nok\nread fault\n"),
    (TEXT, 13, Status::Done, "opened 0 0\nok\n"),
];

#[test]
fn a_source_that_fails_ends_a_session_after_what_was_told(rt: HostRuntime) {
    check_sessions(&rt, rt.alloc(), 1, FAILING);
}
