// The host of the real program. It tells nothing of what files and output hold.
ghost use Rattle.std.specs.Prelude.{◌≡◌, ◌≤◌, false, None, [], length, IfOk, OnOk};
ghost use Rattle.st_host.specs.Counts.{HasCause};
ghost use Rattle.st_system_host.specs.inside.{Refusing.StaysRefused, Locking.{Locks, LocksOrLacks}};
ghost use Rattle.st_system_host.specs.inside.Untold.{untold, CountsOnce};

use crate::guard::{Guard, Place, Refusal};
use st_host::{Host, HostFault, SayFault};
use std::fs::{File, OpenOptions};
use std::io::{self, ErrorKind, Read, Seek, SeekFrom, Write};
use std::rt::Files;

/// Files of the current folder by their names, and standard output.
///
/// Each error raises its count, up to the last value of 64 bits. A roots file of a store, whose name ends with `.roots`, is locked
/// from the first call that finds or makes it until the host is dropped, and calls fail as `refusal` tells.
#[derive(Drop)]
pub struct DirHost<R: Files<File = File> + Print + Drop> {
    rt: R,
    guard: Guard,
    // A file was made in the current folder, or in another, whose name may not be on disk yet.
    made_here: bool,
    made_elsewhere: bool,
    disk_faults: u64,
    say_faults: u64,
}

impl<R: Files<File = File> + Print + Drop> DirHost<R> {
    ghost use Rattle.st_system_host.specs.inside.Untold.{KeepsCounts};

    /// A host over this runtime, of which no call has failed.
    pub fn new(rt: R) -> DirHost<R>
        ensures disk { ⟦<DirHost<R> as Host>⟧.disk_faults result ≡ 0 }
        ensures say { ⟦<DirHost<R> as Host>⟧.say_faults result ≡ 0 }
    {
        DirHost {
            rt,
            guard: Guard::new(),
            made_here: false,
            made_elsewhere: false,
            disk_faults: 0,
            say_faults: 0,
        }
    }

    /// From now on each call on a file fails, where an image that is exported from this store would be written over a file of a
    /// store.
    pub fn keep_stores_from(&mut self, store: &str, image: &str)
        ensures { KeepsCounts self.old.disk_faults self.old.say_faults
            self.new.disk_faults self.new.say_faults }
    {
        self.guard.keep_stores_from(&self.rt, store, image);
    }

    /// Why calls on files fail that the files themselves would allow.
    pub fn refusal(&self) -> Option<Refusal>
        ensures { result ≡ self.now.guard.refusal }
    {
        self.guard.refusal()
    }

    // None where there is no such file.
    fn open(&mut self, name: &str) -> io::Result<Option<File>>
        ensures counts { KeepsCounts self.old.disk_faults self.old.say_faults
            self.new.disk_faults self.new.say_faults }
        ensures refused { StaysRefused self.old.guard.refusal self.new.guard.refusal result }
        ensures locked { OnOk result (LocksOrLacks name.now self.new.guard) }
    {
        match self.guard.admit(&self.rt, name)? {
            Place::Absent => Ok(None),
            Place::Held | Place::Unguarded => open_to_read(&self.rt, name),
        }
    }

    fn file_length(&mut self, name: &str) -> io::Result<Option<u64>>
        ensures counts { KeepsCounts self.old.disk_faults self.old.say_faults
            self.new.disk_faults self.new.say_faults }
        ensures refused { StaysRefused self.old.guard.refusal self.new.guard.refusal result }
        ensures locked { OnOk result (LocksOrLacks name.now self.new.guard) }
    {
        match self.open(name)? {
            Some(file) => Ok(Some(file.metadata()?.len())),
            None => Ok(None),
        }
    }

    fn read(&mut self, name: &str, at: u64, into: &mut [u8]) -> io::Result<usize>
        ensures within { IfOk result (λ k. k ≤ length into.old) }
        ensures counts { KeepsCounts self.old.disk_faults self.old.say_faults
            self.new.disk_faults self.new.say_faults }
        ensures refused { StaysRefused self.old.guard.refusal self.new.guard.refusal result }
        ensures locked { OnOk result (LocksOrLacks name.now self.new.guard) }
    {
        match self.open(name)? {
            Some(mut file) => {
                file.seek(SeekFrom::Start(at))?;
                let count = file.read(into)?;
                Ok(count)
            }
            None => Ok(0),
        }
    }

    fn write(&mut self, name: &str, at: u64, bytes: &[u8]) -> io::Result<()>
        ensures counts { KeepsCounts self.old.disk_faults self.old.say_faults
            self.new.disk_faults self.new.say_faults }
        ensures refused { StaysRefused self.old.guard.refusal self.new.guard.refusal result }
        ensures locked { OnOk result (Locks name.now self.new.guard) }
    {
        let mut file = self.open_to_write(name)?;
        file.seek(SeekFrom::Start(at))?;
        file.write_all(bytes)
    }

    fn set_length(&mut self, name: &str, len: u64) -> io::Result<()>
        ensures counts { KeepsCounts self.old.disk_faults self.old.say_faults
            self.new.disk_faults self.new.say_faults }
        ensures refused { StaysRefused self.old.guard.refusal self.new.guard.refusal result }
        ensures locked { OnOk result (Locks name.now self.new.guard) }
    {
        let file = self.open_to_write(name)?;
        file.set_len(len)
    }

    // The file is made where there is none.
    fn open_to_write(&mut self, name: &str) -> io::Result<File>
        ensures counts { KeepsCounts self.old.disk_faults self.old.say_faults
            self.new.disk_faults self.new.say_faults }
        ensures refused { StaysRefused self.old.guard.refusal self.new.guard.refusal result }
        ensures locked { OnOk result (Locks name.now self.new.guard) }
    {
        match self.guard.admit(&self.rt, name)? {
            Place::Held => {}
            Place::Absent => {
                self.note_made(name);
                self.guard.make_roots(&self.rt, name)?;
            }
            Place::Unguarded => {
                if open_to_read(&self.rt, name)?.is_none() {
                    self.note_made(name);
                }
            }
        }
        OpenOptions::new()
            .write(true)
            .create(true)
            .open(&self.rt, name)
    }

    // Notes that a file is made.
    fn note_made(&mut self, name: &str)
        ensures { KeepsCounts self.old.disk_faults self.old.say_faults
            self.new.disk_faults self.new.say_faults }
    {
        match name.rsplit_once('/') {
            Some(_) => self.made_elsewhere = true,
            None => self.made_here = true,
        }
    }

    // The folder of a file that this host has made since is synced behind it. No clause says so.
    fn sync_file(&mut self, name: &str) -> io::Result<()>
        ensures counts { KeepsCounts self.old.disk_faults self.old.say_faults
            self.new.disk_faults self.new.say_faults }
        ensures refused { StaysRefused self.old.guard.refusal self.new.guard.refusal result }
        ensures locked { OnOk result (LocksOrLacks name.now self.new.guard) }
    {
        match self.open(name)? {
            Some(file) => file.sync_all()?,
            None => return Ok(()),
        }
        match name.rsplit_once('/') {
            Some((folder, _)) if self.made_elsewhere => self.sync_folder(folder),
            None if self.made_here => {
                self.sync_folder(".")?;
                self.made_here = false;
                Ok(())
            }
            _ => Ok(()),
        }
    }

    fn sync_folder(&self, folder: &str) -> io::Result<()> {
        let path = if folder.is_empty() { "/" } else { folder };
        match open_to_read(&self.rt, path)? {
            Some(file) => file.sync_all(),
            None => Ok(()),
        }
    }
}

// None where there is no such file.
fn open_to_read<R: Files<File = File>>(rt: &R, name: &str) -> io::Result<Option<File>> {
    match OpenOptions::new().read(true).open(rt, name) {
        Ok(file) => Ok(Some(file)),
        Err(error) => {
            if error.kind() == ErrorKind::NotFound {
                Ok(None)
            } else {
                Err(error)
            }
        }
    }
}

impl<R: Files<File = File> + Print + Drop> Host for DirHost<R> {
    ghost is_told = { false };

    ghost files = { λ _ _. None };

    ghost may_leave = { λ _ _ _. ⊥ };

    ghost said = { λ _. [] };

    ghost moment = { λ _. 0 };

    ghost left_since = { λ _ _ _ _. ⊥ };

    ghost disk_faults = { λ h. h.disk_faults };

    ghost say_faults = { λ h. h.say_faults };

    ghost read_counts = { λ _ _ told. untold told };

    ghost counts_now = { λ _ _ _ _ told _ _. untold told };

    ghost only_now = { λ _ _ _ told _. untold told };

    fn length(&mut self, name: &str) -> Result<Option<u64>, HostFault>
        ensures refused { StaysRefused self.old.guard.refusal self.new.guard.refusal result }
        ensures locked { OnOk result (LocksOrLacks name.now self.new.guard) }
        ensures once { CountsOnce self.old.disk_faults self.new.disk_faults result }
        ensures cause { HasCause self.old.disk_faults self.new.disk_faults result }
        ensures say_count { self.new.say_faults ≡ self.old.say_faults }
    {
        match self.file_length(name) {
            Ok(length) => Ok(length),
            Err(_) => {
                self.disk_faults = self.disk_faults.saturating_add(1);
                Err(HostFault)
            }
        }
    }

    fn read_at(&mut self, name: &str, at: u64, into: &mut [u8]) -> Result<usize, HostFault>
        ensures within { IfOk result (λ k. k ≤ length into.old) }
        ensures refused { StaysRefused self.old.guard.refusal self.new.guard.refusal result }
        ensures locked { OnOk result (LocksOrLacks name.now self.new.guard) }
        ensures once { CountsOnce self.old.disk_faults self.new.disk_faults result }
        ensures cause { HasCause self.old.disk_faults self.new.disk_faults result }
        ensures say_count { self.new.say_faults ≡ self.old.say_faults }
    {
        match self.read(name, at, into) {
            Ok(count) => Ok(count),
            Err(_) => {
                self.disk_faults = self.disk_faults.saturating_add(1);
                Err(HostFault)
            }
        }
    }

    fn write_at(&mut self, name: &str, at: u64, bytes: &[u8]) -> Result<(), HostFault>
        ensures refused { StaysRefused self.old.guard.refusal self.new.guard.refusal result }
        ensures locked { OnOk result (Locks name.now self.new.guard) }
        ensures once { CountsOnce self.old.disk_faults self.new.disk_faults result }
        ensures cause { HasCause self.old.disk_faults self.new.disk_faults result }
        ensures say_count { self.new.say_faults ≡ self.old.say_faults }
    {
        match self.write(name, at, bytes) {
            Ok(()) => Ok(()),
            Err(_) => {
                self.disk_faults = self.disk_faults.saturating_add(1);
                Err(HostFault)
            }
        }
    }

    fn cut(&mut self, name: &str, len: u64) -> Result<(), HostFault>
        ensures refused { StaysRefused self.old.guard.refusal self.new.guard.refusal result }
        ensures locked { OnOk result (Locks name.now self.new.guard) }
        ensures once { CountsOnce self.old.disk_faults self.new.disk_faults result }
        ensures cause { HasCause self.old.disk_faults self.new.disk_faults result }
        ensures say_count { self.new.say_faults ≡ self.old.say_faults }
    {
        match self.set_length(name, len) {
            Ok(()) => Ok(()),
            Err(_) => {
                self.disk_faults = self.disk_faults.saturating_add(1);
                Err(HostFault)
            }
        }
    }

    fn sync(&mut self, name: &str) -> Result<(), HostFault>
        ensures refused { StaysRefused self.old.guard.refusal self.new.guard.refusal result }
        ensures locked { OnOk result (LocksOrLacks name.now self.new.guard) }
        ensures once { CountsOnce self.old.disk_faults self.new.disk_faults result }
        ensures cause { HasCause self.old.disk_faults self.new.disk_faults result }
        ensures say_count { self.new.say_faults ≡ self.old.say_faults }
    {
        match self.sync_file(name) {
            Ok(()) => Ok(()),
            Err(_) => {
                self.disk_faults = self.disk_faults.saturating_add(1);
                Err(HostFault)
            }
        }
    }

    fn say(&mut self, bytes: &[u8]) -> Result<(), SayFault>
        ensures once { CountsOnce self.old.say_faults self.new.say_faults result }
        ensures cause { HasCause self.old.say_faults self.new.say_faults result }
        ensures disk_count { self.new.disk_faults ≡ self.old.disk_faults }
    {
        match self.rt.write_all(bytes) {
            Ok(()) => Ok(()),
            Err(_) => {
                self.say_faults = self.say_faults.saturating_add(1);
                Err(SayFault)
            }
        }
    }
}
