ghost use Rattle.std.specs.Prelude.{◌≡◌};
ghost use Rattle.st_call.specs.Refusals.{status_of};

use crate::file::FileRefusal;
use st_model::ImageFault;
use st_protocol::Status;
use std::alloc::AllocError;

/// Why an image isn't read, or no machine started over it.
#[derive(Clone, Copy, Debug, PartialEq, Eq)]
pub enum ImageRefusal {
    /// The image has this fault.
    Image(ImageFault),
    /// The image has more than 2^27 bytes.
    TooLarge,
    /// The host failed at a file.
    DiskFault,
    /// There was no memory.
    OutOfMemory,
}

impl ImageRefusal {
    /// The status of a call that ends so.
    pub fn status(self) -> Status
        ensures { result ≡ status_of self }
    {
        match self {
            ImageRefusal::Image(fault) => Status::Image(fault),
            ImageRefusal::TooLarge => Status::TooLarge,
            ImageRefusal::DiskFault => Status::DiskFault,
            ImageRefusal::OutOfMemory => Status::OutOfMemory,
        }
    }
}

impl From<FileRefusal> for ImageRefusal {
    ghost use Rattle.std.specs.Prelude.{◌≡◌};
    ghost use Rattle.st_call.specs.Refusals.{by_file};

    ghost from_gives = { λ refusal r. r ≡ by_file refusal };

    fn from(refusal: FileRefusal) -> ImageRefusal {
        match refusal {
            FileRefusal::TooLarge => ImageRefusal::TooLarge,
            FileRefusal::DiskFault => ImageRefusal::DiskFault,
            FileRefusal::OutOfMemory => ImageRefusal::OutOfMemory,
        }
    }
}

impl From<AllocError> for ImageRefusal {
    ghost use Rattle.std.specs.Prelude.{◌≡◌};
    ghost use Rattle.st_call.specs.declared.image_refusal.ImageRefusal.TheVariants.{OutOfMemory};

    ghost from_gives = { λ _ r. r ≡ OutOfMemory };

    fn from(_error: AllocError) -> ImageRefusal {
        ImageRefusal::OutOfMemory
    }
}
