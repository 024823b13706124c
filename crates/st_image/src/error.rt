use st_model::ImageFault;
use std::alloc::AllocError;

/// Why an image was not read.
#[derive(Clone, Copy, Debug, PartialEq, Eq)]
pub enum ReadImage {
    /// The image has this fault.
    Fault(ImageFault),
    /// There was no memory.
    OutOfMemory,
}

impl From<ImageFault> for ReadImage {
    ghost use Rattle.std.specs.Prelude.{◌≡◌};
    ghost use Rattle.st_image.specs.declared.error.ReadImage.TheVariants.{Fault};

    ghost from_gives = { λ f e. e ≡ Fault f };

    fn from(fault: ImageFault) -> ReadImage {
        ReadImage::Fault(fault)
    }
}

impl From<AllocError> for ReadImage {
    ghost use Rattle.std.specs.Prelude.{◌≡◌};
    ghost use Rattle.st_image.specs.declared.error.ReadImage.TheVariants.{OutOfMemory};

    ghost from_gives = { λ _ e. e ≡ OutOfMemory };

    fn from(_error: AllocError) -> ReadImage {
        ReadImage::OutOfMemory
    }
}
