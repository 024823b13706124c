ghost use Rattle.std.specs.Prelude.{OnOk, IfOk, IfErr, IsOkUnless};
ghost use Rattle.st_model.specs.Faults.{IsWellFormed};
ghost use Rattle.st_image.specs.HeadValues.{head_over};
ghost use Rattle.st_image.specs.inside.Rows.{IsReadFault};
ghost use Rattle.st_image.specs.inside.Reading.{IsStart};

use crate::checks::check;
use crate::error::ReadImage;
use crate::head::HeadValues;
use crate::loading::load;
use st_frames::{Loaded, fetch_scheduled};
use st_memory::Loader;
use st_model::ImageFault;
use std::alloc::Global;

/// Reads an image file: its objects in a new memory, with the registers of the scheduler's active process,
/// where it is well-formed; else its fault. Values that are handed in take the place of the head's. Besides,
/// there may be no memory.
pub fn read<L: Loader>(
    alloc: Global,
    bytes: &[u8],
    over: &HeadValues,
) -> Result<Loaded<L::Done>, ReadImage>
    ensures well_formed { OnOk result (IsWellFormed (head_over over.now bytes.now) bytes.now) }
    ensures start { let head = head_over over.now bytes.now in
        IfOk result (λ l. IsStart head bytes.now (L.Done.view l.memory) l.frame) }
    ensures accepts { IsWellFormed (head_over over.now bytes.now) bytes.now →
        IsOkUnless result ReadImage.OutOfMemory }
    ensures fault { IfErr result (λ e. IsReadFault (head_over over.now bytes.now) bytes.now e) }
{
    let image = check(alloc, bytes, over)?;
    let mut memory = load::<L>(alloc, &image)?;
    match fetch_scheduled(&mut memory) {
        Ok(frame) => Ok(Loaded { memory, frame }),
        Err(_cause) => Err(ReadImage::Fault(ImageFault::Scheduler)),
    }
}
