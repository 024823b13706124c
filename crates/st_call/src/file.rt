//! The reading of a whole file, as the commands read an image and a kernel text.

ghost use Rattle.std.specs.Prelude.{◌≡◌, ◌≤◌, length, IsTrue, IfOk, IfErr, OnOk};
ghost use Rattle.st_host.specs.Files.{bytes_of};
ghost use Rattle.st_host.specs.Runs.{OnlyReads, ReadsAlike};
ghost use Rattle.st_call.specs.Refusals.{file_status, IsFileRefusal, FileHasCause};

use st_host::{Host, HostFault, file_length, read_from};
use st_protocol::Status;
use std::alloc::{AllocError, Global};

/// Why a file isn't read.
#[derive(Clone, Copy, Debug, PartialEq, Eq)]
pub enum FileRefusal {
    /// It has more bytes than such a file may have.
    TooLarge,
    /// The host failed at it.
    DiskFault,
    /// There was no memory.
    OutOfMemory,
}

impl FileRefusal {
    /// The status of a call that ends so.
    pub fn status(self) -> Status
        ensures { result ≡ file_status self }
    {
        match self {
            FileRefusal::TooLarge => Status::TooLarge,
            FileRefusal::DiskFault => Status::DiskFault,
            FileRefusal::OutOfMemory => Status::OutOfMemory,
        }
    }
}

impl From<HostFault> for FileRefusal {
    ghost use Rattle.std.specs.Prelude.{◌≡◌};
    ghost use Rattle.st_call.specs.declared.file.FileRefusal.TheVariants.{DiskFault};

    ghost from_gives = { λ _ r. r ≡ DiskFault };

    fn from(_fault: HostFault) -> FileRefusal {
        FileRefusal::DiskFault
    }
}

impl From<AllocError> for FileRefusal {
    ghost use Rattle.std.specs.Prelude.{◌≡◌};
    ghost use Rattle.st_call.specs.declared.file.FileRefusal.TheVariants.{OutOfMemory};

    ghost from_gives = { λ _ r. r ≡ OutOfMemory };

    fn from(_error: AllocError) -> FileRefusal {
        FileRefusal::OutOfMemory
    }
}

/// The bytes of a file of at most so many. An absent one is read as an empty one. No file is changed.
pub fn read_file<H: Host>(
    alloc: Global,
    host: &mut H,
    name: &str,
    longest: u64,
) -> Result<Vec<u8>, FileRefusal>
    ensures bytes { IfOk result (λ v. IsTrue H.is_told →
        v.items ≡ bytes_of (H.files host.old name.now)) }
    ensures short { IfOk result (λ v. length v.items ≤ longest) }
    ensures refused { IfErr result (λ e. IsTrue H.is_told →
        IsFileRefusal longest (bytes_of (H.files host.old name.now)) e) }
    ensures alike { OnOk result (ReadsAlike H.Host.own host.old host.new) }
    ensures cause { IfErr result (FileHasCause H.Host.own host.old host.new) }
    ensures reads { OnlyReads H.Host.own host.old host.new }
{
    let length = file_length(host, name)?.unwrap_or(0);
    if length > longest {
        return Err(FileRefusal::TooLarge);
    }
    let mut bytes = vec![in alloc; 0; length as usize]?;
    let count = read_from(host, name, 0, &mut bytes)?;
    bytes.truncate(count);
    Ok(bytes)
}
