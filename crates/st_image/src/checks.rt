ghost use Rattle.std.specs.Prelude.{◌≡◌, ◌*◌, ◌<◌, IfOk, IfErr, OnOk};
ghost use Rattle.st_model.specs.{Image.entries_of, Faults.IsImageFault};
ghost use Rattle.st_image.specs.{inside.Sizes.AreInside, HeadValues.head_over};
ghost use Rattle.st_image.specs.inside.Rows.{IsRow, IsMemoryRow, IsReadFault, IsCleanBelow};

use crate::error::ReadImage;
use crate::head::{HeadValues, read_head_over};
use crate::image::Image;
use crate::lengths::{has_bad_capacity, has_bad_lengths, is_short};
use crate::objects::{
    first_bad_class, first_bad_field, first_bad_method, first_bad_size, spans_of,
};
use crate::roots::least_bad_root;
use crate::spans::first_shared;
use st_model::ImageFault;
use std::alloc::Global;

/// A file with the lengths that its head gives, or the fault of its lengths.
#[tactic(auto, using(crate::proofs::FaultRows::fault_rows, crate::proofs::FaultOrder::clean_rows, crate::proofs::Starts::headless))]
fn check_lengths<'a>(bytes: &'a [u8], over: &HeadValues) -> Result<Image<'a>, ImageFault>
    ensures image { IfOk result (λ image.
        (image.head ≡ head_over over.now bytes.now) × (image.bytes.now ≡ bytes.now)) }
    ensures clean { OnOk result (IsCleanBelow (head_over over.now bytes.now) bytes.now 3) }
    ensures fault { IfErr result (λ f. IsImageFault (head_over over.now bytes.now) bytes.now f) }
{
    if bytes.len() < 512 {
        return Err(ImageFault::Short);
    }
    let head = read_head_over(bytes, over);
    if is_short(head, bytes) {
        return Err(ImageFault::Short);
    }
    if has_bad_lengths(head) {
        return Err(ImageFault::Lengths);
    }
    Ok(Image { head, bytes })
}

/// Whether the capacities take in what the file holds.
#[tactic(auto, using(crate::proofs::FaultRows::fault_rows))]
fn check_capacity(image: &Image<'_>) -> Result<(), ImageFault>
    ensures { IsRow image.now.head image.now.bytes.now 3 result }
{
    if has_bad_capacity(image) {
        return Err(ImageFault::Capacity);
    }
    Ok(())
}

/// Whether each object lies in the object space and has a size of sense.
#[tactic(auto, using(crate::proofs::FaultRows::fault_rows))]
fn check_sizes(image: &Image<'_>) -> Result<(), ImageFault>
    ensures row { IsRow image.now.head image.now.bytes.now 4 result }
    ensures inside { OnOk result (AreInside image.now.head image.now.bytes.now) }
{
    match first_bad_size(image) {
        None => Ok(()),
        Some(k) => Err(ImageFault::Size(2 * k as u32)),
    }
}

/// Whether no two objects share a word.
fn check_overlaps(alloc: Global, image: &Image<'_>) -> Result<(), ReadImage>
    requires { AreInside image.now.head image.now.bytes.now }
    ensures { IsMemoryRow image.now.head image.now.bytes.now 5 result }
{
    let spans = spans_of(alloc, image)?;
    match first_shared(alloc, &spans, image.head.space)? {
        None => Ok(()),
        Some((j, k)) => Err(ReadImage::Fault(ImageFault::Overlap(2 * j as u32, 2 * k as u32))),
    }
}

/// Whether each class is an object.
#[tactic(auto, using(crate::proofs::FaultRows::fault_rows))]
fn check_classes(image: &Image<'_>) -> Result<(), ImageFault>
    requires { AreInside image.now.head image.now.bytes.now }
    ensures { IsRow image.now.head image.now.bytes.now 6 result }
{
    match first_bad_class(image) {
        None => Ok(()),
        Some(k) => Err(ImageFault::Class(2 * k as u32)),
    }
}

/// Whether each field and literal is a SmallInteger or an object.
#[tactic(auto, using(crate::proofs::FaultRows::fault_rows))]
fn check_fields(image: &Image<'_>) -> Result<(), ImageFault>
    requires { AreInside image.now.head image.now.bytes.now }
    ensures { IsRow image.now.head image.now.bytes.now 7 result }
{
    match first_bad_field(image) {
        None => Ok(()),
        Some((k, i)) => Err(ImageFault::Field(2 * k as u32, i as u32)),
    }
}

/// Whether each method has a header and its literals.
#[tactic(auto, using(crate::proofs::FaultRows::fault_rows))]
fn check_methods(image: &Image<'_>) -> Result<(), ImageFault>
    requires { AreInside image.now.head image.now.bytes.now }
    ensures { IsRow image.now.head image.now.bytes.now 8 result }
{
    match first_bad_method(image) {
        None => Ok(()),
        Some(k) => Err(ImageFault::Method(2 * k as u32)),
    }
}

/// Whether the root page and the tables of names are there.
#[tactic(auto, using(crate::proofs::FaultRows::fault_rows))]
fn check_roots(image: &Image<'_>) -> Result<(), ImageFault>
    ensures { IsRow image.now.head image.now.bytes.now 9 result }
{
    match least_bad_root(image) {
        None => Ok(()),
        Some(pointer) => Err(ImageFault::Root(pointer)),
    }
}

/// The image of a file, where it has none of the faults but perhaps that of its scheduler; else its fault.
pub fn check<'a>(alloc: Global, bytes: &'a [u8], over: &HeadValues) -> Result<Image<'a>, ReadImage>
    ensures image { IfOk result (λ image.
        (image.head ≡ head_over over.now bytes.now) × (image.bytes.now ≡ bytes.now)) }
    ensures clean { OnOk result (IsCleanBelow (head_over over.now bytes.now) bytes.now 10) }
    ensures fault { IfErr result (λ e. IsReadFault (head_over over.now bytes.now) bytes.now e) }
{
    let image = check_lengths(bytes, over)?;
    check_capacity(&image)?;
    check_sizes(&image)?;
    check_overlaps(alloc, &image)?;
    check_classes(&image)?;
    check_fields(&image)?;
    check_methods(&image)?;
    check_roots(&image)?;
    Ok(image)
}
