// That no store is lost by a mistake: one process at a time has its files, and none is written over that is there.
ghost use Rattle.std.specs.Prelude.{◌≡◌, IsSome, IfOk, OnOk};
ghost use Rattle.st_system_host.specs.inside.{Refusing.StaysRefused, Locking.Fits};

use arrayvec::ArrayString;
use std::fmt::{self, Display, Formatter};
use std::fs::{self, File, Metadata, OpenOptions, TryLockError};
use std::io::{self, Error, ErrorKind};
use std::os::unix::fs::MetadataExt;
use std::rt::Files;

/// The endings of the names of a store's files. A store is where its roots file is, which is made first of all.
const ROOTS: &str = ".roots";

const OTHERS: [&str; 3] = [".changes", ".a", ".b"];

/// The ending of the second changes file, which the making of a store leaves as it is.
const SECOND: &str = ".changes2";

/// The most bytes of a file's name; the system takes none of more.
const LONGEST_NAME: usize = 4095;

/// Why a call on a file failed that the file itself would allow.
#[derive(Clone, Copy, Debug, PartialEq, Eq)]
pub enum Refusal {
    /// Another process has the store.
    InUse,
    /// The roots file isn't the one that was there, or was absent, at first.
    Replaced,
    /// There is no such store, but a file of a name that its making would write over.
    NoStore,
    /// An image would be written over a file of a store.
    StoreFile,
}

impl Display for Refusal {
    fn fmt<W: fmt::Write>(&self, f: &mut Formatter<W>) -> fmt::Result {
        f.write_str(match self {
            Refusal::InUse => "another process has the store",
            Refusal::Replaced => "another program made, removed or replaced the roots file",
            Refusal::NoStore => "there is no such store, but one of its other files, which stays",
            Refusal::StoreFile => "the image would be written over a file of a store",
        })
    }
}

/// What a file is to the guard.
pub(crate) enum Place {
    /// A roots file that is locked.
    Held,
    /// A roots file that isn't there.
    Absent,
    /// Any other file.
    Unguarded,
}

/// A roots file that is locked as long as it is open, and what told it from all others as it was opened.
#[derive(Drop)]
struct Held {
    _file: File,
    metadata: Metadata,
}

/// Locks the roots file of a store.
#[derive(Drop)]
pub(crate) struct Guard {
    held: Option<Held>,
    // A call has found no roots file. Then one that is there later is another process's.
    was_absent: bool,
    // It stays. What is refused once is refused for good.
    refusal: Option<Refusal>,
}

impl Guard {
    /// A guard that has no lock.
    pub(crate) fn new() -> Guard {
        Guard {
            held: None,
            was_absent: false,
            refusal: None,
        }
    }

    pub(crate) fn refusal(&self) -> Option<Refusal>
        ensures { result ≡ self.now.refusal }
    {
        self.refusal
    }

    /// Locks a roots file that is there, before anything else is done with it. A call on a file comes behind this.
    pub(crate) fn admit<R: Files<File = File>>(&mut self, rt: &R, name: &str) -> io::Result<Place>
        ensures refused { StaysRefused self.old.refusal self.new.refusal result }
        ensures fits { IfOk result (Fits name.now self.new) }
    {
        if self.refusal.is_some() {
            return Err(refused());
        }
        if !name.ends_with(ROOTS) {
            return Ok(Place::Unguarded);
        }
        match &self.held {
            Some(held) => match fs::metadata(rt, name) {
                Ok(found) if are_same(&held.metadata, &found) => Ok(Place::Held),
                _ => Err(self.refuse(Refusal::Replaced)),
            },
            None => self.find_roots(rt, name),
        }
    }

    // Locks the roots file, where it is there.
    fn find_roots<R: Files<File = File>>(&mut self, rt: &R, name: &str) -> io::Result<Place>
        ensures { IfOk result (Fits name.now self.new) }
    {
        match OpenOptions::new().read(true).write(true).open(rt, name) {
            Ok(_) if self.was_absent => Err(self.refuse(Refusal::Replaced)),
            Ok(file) => {
                self.lock(file)?;
                Ok(Place::Held)
            }
            Err(error) => {
                if error.kind() == ErrorKind::NotFound {
                    self.was_absent = true;
                    Ok(Place::Absent)
                } else {
                    Err(error)
                }
            }
        }
    }

    /// Makes a roots file that was absent, and locks it. One that another process has made since is left alone, and so are files
    /// that would be the store's.
    pub(crate) fn make_roots<R: Files<File = File>>(&mut self, rt: &R, name: &str) -> io::Result<()>
        ensures { OnOk result (IsSome self.new.held) }
    {
        let stem = name.strip_suffix(ROOTS).unwrap_or(name);
        for ending in OTHERS {
            if let Some(other) = name_of(stem, ending) {
                if fs::exists(rt, other.as_str())? {
                    return Err(self.refuse(Refusal::NoStore));
                }
            }
        }
        let file = OpenOptions::new()
            .read(true)
            .write(true)
            .create_new(true)
            .open(rt, name)?;
        self.lock(file)
    }

    // Doesn't wait for another process.
    fn lock(&mut self, file: File) -> io::Result<()>
        ensures { OnOk result (IsSome self.new.held) }
    {
        let metadata = file.metadata()?;
        match file.try_lock() {
            Ok(()) => {
                self.held = Some(Held {
                    _file: file,
                    metadata,
                });
                Ok(())
            }
            Err(TryLockError::WouldBlock) => Err(self.refuse(Refusal::InUse)),
            Err(TryLockError::Error(error)) => Err(error),
        }
    }

    /// Refuses all calls, where the image is one of the files of this store, by whatever name, or has the name of a file of
    /// another.
    pub(crate) fn keep_stores_from<R: Files<File = File>>(
        &mut self,
        rt: &R,
        store: &str,
        image: &str,
    ) {
        if is_named_in_a_store(rt, image) || is_file_of(rt, store, image) {
            self.refusal = Some(Refusal::StoreFile);
        }
    }

    fn refuse(&mut self, refusal: Refusal) -> Error {
        self.refusal = Some(refusal);
        refused()
    }
}

fn refused() -> Error {
    Error::from(ErrorKind::PermissionDenied)
}

// The name of a file of a store, none where no file can have it. It takes no memory, so no want of it looks like a fault of the disk.
fn name_of(store: &str, ending: &str) -> Option<ArrayString<LONGEST_NAME>> {
    let mut name = ArrayString::from(store).ok()?;
    name.try_push_str(ending).ok()?;
    Some(name)
}

// Whether a file has the name of one of the files of a store that is there.
fn is_named_in_a_store<R: Files<File = File>>(rt: &R, name: &str) -> bool {
    if name.ends_with(ROOTS) {
        return is_there(rt, name);
    }
    for ending in [OTHERS[0], OTHERS[1], OTHERS[2], SECOND] {
        if let Some(stem) = name.strip_suffix(ending) {
            return match name_of(stem, ROOTS) {
                Some(roots) => is_there(rt, roots.as_str()),
                None => false,
            };
        }
    }
    false
}

// Whether a file that is there is one of the files of this store.
fn is_file_of<R: Files<File = File>>(rt: &R, store: &str, name: &str) -> bool {
    for ending in [ROOTS, OTHERS[0], OTHERS[1], OTHERS[2], SECOND] {
        if let Some(file) = name_of(store, ending) {
            if is_same_file(rt, name, file.as_str()) {
                return true;
            }
        }
    }
    false
}

fn is_there<R: Files<File = File>>(rt: &R, name: &str) -> bool {
    fs::metadata(rt, name).is_ok()
}

fn is_same_file<R: Files<File = File>>(rt: &R, one: &str, other: &str) -> bool {
    match (fs::metadata(rt, one), fs::metadata(rt, other)) {
        (Ok(one), Ok(other)) => are_same(&one, &other),
        _ => false,
    }
}

fn are_same(one: &Metadata, other: &Metadata) -> bool {
    one.dev() == other.dev() && one.ino() == other.ino()
}
