// What no clause says: that calls succeed, and that the outside itself is reached. All is called through the traits,
// so that the same is asked of each host.
use st_host::{Host, HostFault, ReadFault, SayFault, Source, file_length, read_from, say_all};
use st_memory_host::{Leave, MemHost, MemSource};
use st_system_host::{DirHost, StdinSource};
use std::alloc::Global;
use std::fs;
use std::process::Abort;

// A call of a host on a file, and what comes of it.
#[derive(Clone, Copy)]
enum Call<'a> {
    // The file has these bytes, up to eight.
    Holds(&'a [u8]),
    Length(Result<Option<u64>, HostFault>),
    // Up to four bytes are taken from a place on.
    Read(u64, Result<&'a [u8], HostFault>),
    Write(u64, &'a [u8], Result<(), HostFault>),
    Cut(u64, Result<(), HostFault>),
    Sync(Result<(), HostFault>),
    Say(&'a [u8], Result<(), SayFault>),
}

fn holds<H: Host>(host: &mut H, name: &str, wanted: &[u8]) -> bool {
    let mut bytes = [0; 8];
    let length = file_length(host, name);
    let count = read_from(host, name, 0, &mut bytes);
    length == Ok(Some(wanted.len() as u64))
        && count == Ok(wanted.len())
        && bytes.starts_with(wanted)
}

fn reads<H: Host>(host: &mut H, name: &str, at: u64, wanted: Result<&[u8], HostFault>) -> bool {
    let mut bytes = [0; 4];
    let count = host.read_at(name, at, &mut bytes);
    match wanted {
        Ok(wanted) => count == Ok(wanted.len()) && bytes.starts_with(wanted),
        Err(HostFault) => count == Err(HostFault),
    }
}

// Makes a call, and says whether what comes of it is as it stands there.
fn answers<H: Host>(host: &mut H, name: &str, call: Call<'_>) -> bool {
    match call {
        Call::Holds(bytes) => holds(host, name, bytes),
        Call::Length(wanted) => host.length(name) == wanted,
        Call::Read(at, wanted) => reads(host, name, at, wanted),
        Call::Write(at, bytes, wanted) => host.write_at(name, at, bytes) == wanted,
        Call::Cut(length, wanted) => host.cut(name, length) == wanted,
        Call::Sync(wanted) => host.sync(name) == wanted,
        Call::Say(bytes, wanted) => say_all(host, bytes) == wanted,
    }
}

fn check_calls<H: Host>(rt: &impl Abort, host: &mut H, name: &str, calls: &[Call<'_>]) {
    for (number, call) in calls.iter().enumerate() {
        assert!(rt; answers(host, name, *call), "call {number} on {name}");
    }
}

// Files, and the calls on each.
type Files<'a> = &'a [(&'a str, &'a [Call<'a>])];

fn check_files<H: Host>(rt: &impl Abort, host: &mut H, files: Files<'_>) {
    for (name, calls) in files {
        check_calls(rt, host, name, calls);
    }
}

// Reads a file of the bytes 12345678, also before and at its end.
const READS: &[Call<'static>] = &[
    Call::Holds(b"12345678"),
    Call::Read(8, Ok(b"")),
    Call::Read(2, Ok(b"3456")),
];

const ABSENT: &[Call<'static>] = &[
    Call::Length(Ok(None)),
    Call::Read(0, Ok(b"")),
    Call::Sync(Ok(())),
];

// Makes a file, writes into it and past its end, and cuts it to be shorter and longer.
const WRITES: &[Call<'static>] = &[
    Call::Write(2, b"old", Ok(())),
    Call::Write(3, b"xyz", Ok(())),
    Call::Sync(Ok(())),
    Call::Holds(b"\0\0oxyz"),
    Call::Cut(5, Ok(())),
    Call::Holds(b"\0\0oxy"),
    Call::Cut(7, Ok(())),
    Call::Holds(b"\0\0oxy\0\0"),
    Call::Cut(0, Ok(())),
    Call::Holds(b""),
    Call::Cut(3, Ok(())),
    Call::Holds(b"\0\0\0"),
];

// Below a file there is no file, and none that is absent either.
const NO_FILE: &[Call<'static>] = &[
    Call::Length(Err(HostFault)),
    Call::Read(0, Err(HostFault)),
    Call::Write(0, b"x", Err(HostFault)),
    Call::Cut(1, Err(HostFault)),
    Call::Sync(Err(HostFault)),
];

// A device has no bytes and takes all that are written, but it can't be synced, nor cut.
const DEVICE: &[Call<'static>] = &[
    Call::Length(Ok(Some(0))),
    Call::Write(0, b"x", Ok(())),
    Call::Sync(Err(HostFault)),
    Call::Cut(1, Err(HostFault)),
];

#[test]
fn a_host_in_memory_has_the_files_that_were_put(rt: HostRuntime) {
    let mut host = MemHost::new(rt.alloc()).expect(&rt, "memory");
    host.put(rt.alloc(), "image", b"old").expect(&rt, "memory");
    host.put(rt.alloc(), "other", b"ABC").expect(&rt, "memory");
    host.put(rt.alloc(), "image", b"12345678")
        .expect(&rt, "memory");
    check_calls(&rt, &mut host, "image", READS);
    check_calls(&rt, &mut host, "other", &[Call::Holds(b"ABC")]);
}

// A host with room for so many bytes and calls, of which these calls fail.
fn host_with_room(
    rt: &impl Abort,
    alloc: Global,
    bytes: u64,
    calls: u64,
    failing: &[u64],
) -> MemHost {
    let mut host = MemHost::new(alloc).expect(rt, "memory");
    host.room_for(alloc, bytes, calls).expect(rt, "memory");
    host.fail(alloc, failing).expect(rt, "memory");
    host
}

#[test]
fn a_host_in_memory_writes_and_cuts(rt: HostRuntime) {
    let mut host = host_with_room(&rt, rt.alloc(), 14, 8, &[]);
    check_calls(&rt, &mut host, "a", ABSENT);
    check_calls(&rt, &mut host, "a", WRITES);
}

// Room for so many bytes and calls, the calls that fail, what is called, and all that is said then.
type Saying<'a> = (u64, u64, &'a [u64], &'a [Call<'a>], &'a [u8]);

// The first host fails where it has no room, and the second where it is told to.
const SAYING: &[Saying<'static>] = &[
    (
        2,
        2,
        &[],
        &[
            Call::Say(b"x", Ok(())),
            Call::Say(b"past", Err(SayFault)),
            Call::Say(b"z", Ok(())),
            Call::Say(b"", Err(SayFault)),
        ],
        b"xz",
    ),
    (
        9,
        9,
        &[2, 4],
        &[
            Call::Length(Ok(None)),
            Call::Length(Err(HostFault)),
            Call::Say(b"x", Ok(())),
            Call::Say(b"y", Err(SayFault)),
        ],
        b"x",
    ),
];

#[test]
fn a_host_in_memory_fails_without_room_or_where_it_is_told_to(rt: HostRuntime) {
    for (bytes, count, failing, calls, said) in SAYING {
        let mut host = host_with_room(&rt, rt.alloc(), *bytes, *count, failing);
        check_calls(&rt, &mut host, "a", calls);
        assert_eq!(rt; host.said(), *said);
    }
}

// Writes past the last sync into a file that was synced, and into one that was put, and makes a third.
const PAST_A_SYNC: Files<'static> = &[
    (
        "synced",
        &[
            Call::Write(0, b"abc", Ok(())),
            Call::Sync(Ok(())),
            Call::Write(1, b"xy", Ok(())),
        ],
    ),
    ("put", &[Call::Write(2, b"xyz", Ok(()))]),
    ("made", &[Call::Write(1, b"z", Ok(()))]),
];

// What a stop then leaves of each.
const LEFT: &[(Leave, Files<'static>)] = &[
    (
        Leave::Old,
        &[
            ("put", &[Call::Holds(b"abc")]),
            ("synced", &[Call::Holds(b"abc")]),
            ("made", &[Call::Length(Ok(None))]),
        ],
    ),
    (
        Leave::New,
        &[
            ("put", &[Call::Holds(b"abxyz")]),
            ("synced", &[Call::Holds(b"axy")]),
            ("made", &[Call::Holds(b"\0z")]),
        ],
    ),
    (
        Leave::Ones,
        &[
            ("put", &[Call::Holds(b"ab\xFF\xFF\xFF")]),
            ("synced", &[Call::Holds(b"a\xFF\xFF")]),
            ("made", &[Call::Holds(b"\0\xFF")]),
        ],
    ),
];

#[test]
fn a_stop_leaves_files_as_at_their_last_sync_or_what_was_written_or_ones(rt: HostRuntime) {
    for (how, files) in LEFT {
        let mut host = host_with_room(&rt, rt.alloc(), 34, 5, &[]);
        host.put(rt.alloc(), "put", b"abc").expect(&rt, "memory");
        check_files(&rt, &mut host, PAST_A_SYNC);
        let mut left = host.after_stop(rt.alloc(), *how).expect(&rt, "memory");
        check_files(&rt, &mut left, files);
    }
}

#[test]
fn a_folder_has_its_files(rt: HostRuntime) {
    let name = "hosts_a_folder_has_its_files";
    fs::write(&rt, name, b"12345678").expect(&rt, "a file");
    let mut host = DirHost::new(rt.clone().expect(&rt, "a handle"));
    check_calls(&rt, &mut host, name, READS);
    fs::remove_file(&rt, name).expect(&rt, "a file");
    check_calls(&rt, &mut host, name, ABSENT);
}

const CUT_FILE: &str = "hosts_a_folder_writes_and_cuts";

const FOLDER: Files<'static> = &[
    (CUT_FILE, ABSENT),
    (CUT_FILE, WRITES),
    ("hosts_a_folder_writes_and_cuts/file", NO_FILE),
    ("/dev/null", DEVICE),
    ("", &[Call::Say(b"said\n", Ok(()))]),
];

#[test]
fn a_folder_writes_and_cuts(rt: HostRuntime) {
    let mut host = DirHost::new(rt.clone().expect(&rt, "a handle"));
    check_files(&rt, &mut host, FOLDER);
    fs::remove_file(&rt, CUT_FILE).expect(&rt, "a file");
}

// What is taken by up to five bytes from a source that gives two, and of which the second call fails.
const TAKEN: &[Result<&[u8], ReadFault>] = &[
    Ok(b"ab"),
    Err(ReadFault),
    Ok(b"cd"),
    Ok(b"e"),
    Ok(b""),
];

fn takes<S: Source>(source: &mut S, wanted: Result<&[u8], ReadFault>) -> bool {
    let mut bytes = [0; 5];
    let count = source.take(&mut bytes);
    match wanted {
        Ok(wanted) => count == Ok(wanted.len()) && bytes.starts_with(wanted),
        Err(ReadFault) => count == Err(ReadFault),
    }
}

#[test]
fn a_source_in_memory_gives_pieces(rt: HostRuntime) {
    let mut source = MemSource::new(rt.alloc(), b"abcde", 2, &[2]).expect(&rt, "memory");
    for wanted in TAKEN {
        assert!(rt; takes(&mut source, *wanted));
    }
}

#[test]
fn standard_input_is_read_to_its_end(rt: HostRuntime) {
    let mut source = StdinSource::new(&rt);
    let mut left = 1;
    for _ in 0..1000 {
        left = source
            .take(&mut [0; 64])
            .expect(&rt, "a call that succeeds");
    }
    assert_eq!(rt; left, 0);
}
