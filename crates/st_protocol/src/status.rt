ghost use Rattle.std.specs.Prelude.{◌≡◌};
ghost use Rattle.st_protocol.specs.Statuses.{number_of};

use st_model::ImageFault;
use st_store::StoreFault;

/// How a call of the program ends. Its number is the exit status.
#[derive(Clone, Copy, Debug, PartialEq, Eq)]
pub enum Status {
    /// The command was done, or the script up to `end` or to its end.
    Done,
    /// The words aren't those of a command.
    Usage,
    /// The image has this fault. An absent file is read as an empty one.
    Image(ImageFault),
    /// What begins in this line of the script, counted from 1, isn't in the grammar, is too long or is cut off.
    Script { line: u64 },
    /// The source failed.
    ReadFault,
    /// The host failed to say bytes.
    SayFault,
    /// The host failed at a file.
    DiskFault,
    /// The store isn't there, is there already, or its files are damaged at this place. It carries only Missing, Exists and
    /// NotAStore.
    Store(StoreFault),
    /// This cause stands in the kernel text at this chunk, counted from 1, and none before it.
    Kernel { chunk: u32, cause: u8 },
    /// The image has more than 2^27 bytes, the kernel text more than 2^23, the changes would have more than 2^30, or the script
    /// more than 2^32.
    TooLarge,
    /// There was no memory.
    OutOfMemory,
}

impl Status {
    /// The exit status.
    pub fn number(self) -> u8
        ensures { result ≡ number_of self }
    {
        match self {
            Status::Done => 0,
            Status::Usage => 1,
            Status::Image(_fault) => 2,
            Status::Script { line: _line } => 3,
            Status::ReadFault => 4,
            Status::SayFault => 5,
            Status::DiskFault => 6,
            Status::Store(_fault) => 7,
            Status::Kernel {
                chunk: _chunk,
                cause: _cause,
            } => 8,
            Status::TooLarge => 9,
            Status::OutOfMemory => 10,
        }
    }
}
