ghost use Rattle.std.specs.Prelude.{◌≡◌, ℕ, ◌+◌, ◌<◌, length, true, IfOk, IfSome};
ghost use Rattle.st_model.specs.Image.{entries_of, is_used, size};
ghost use Rattle.st_model.specs.Faults.{size_fails, class_fails, is_field, field_fails, method_fails};
ghost use Rattle.st_image.specs.{inside.Spans.span, inside.Passes.{IsFirst, IsLeast, IsFirstPair}};
ghost use Rattle.st_image.specs.inside.Sizes.{IsInside, AreInside, span_of};

use crate::image::Image;
use crate::numbers::literal_count;
use crate::spans::Span;
use std::alloc::{AllocError, Global};

/// Whether an object leaves the object space, or its size makes no sense.
#[tactic(auto, unfolding(st_model::specs::Faults::size_fails, st_model::specs::Image::size))]
fn size_fails(image: &Image<'_>, k: usize) -> bool
    requires { k < entries_of image.now.head }
    ensures { result ≡ size_fails image.now.head image.now.bytes.now k }
{
    if !image.is_used(k) {
        return false;
    }
    let space = image.head.space as usize;
    let place = image.place(k);
    if place >= space {
        return true;
    }
    let size = usize::from(image.word(place));
    place + size > space
        || size < 2
        || image.has_odd_length(k) && (image.has_pointers(k) || size == 2)
}

/// The first entry whose object has a wrong size.
pub fn first_bad_size(image: &Image<'_>) -> Option<usize>
    ensures { IsFirst (size_fails image.now.head image.now.bytes.now) (entries_of image.now.head) result }
{
    for k in 0..image.entries() {
        if size_fails(image, k) {
            return Some(k);
        }
    }
    None
}

/// The words of an entry's object; none of a free entry.
#[tactic(auto, unfolding(crate::specs::inside::Sizes::span_of))]
fn span_at(image: &Image<'_>, k: usize) -> Span
    requires entry { k < entries_of image.now.head }
    requires inside { is_used image.now.head image.now.bytes.now k ≡ true →
        IsInside image.now.head image.now.bytes.now k }
    ensures { result ≡ span_of image.now.head image.now.bytes.now k }
{
    if !image.is_used(k) {
        return Span { from: 0, to: 0 };
    }
    let place = image.place(k);
    Span {
        from: place as u32,
        to: (place + image.size(k)) as u32,
    }
}

/// The words of each entry's object.
pub fn spans_of(alloc: Global, image: &Image<'_>) -> Result<Vec<Span>, AllocError>
    requires { AreInside image.now.head image.now.bytes.now }
    ensures length { IfOk result (λ spans. length spans.items ≡ entries_of image.now.head) }
    ensures spans { let head = image.now.head in
        IfOk result (λ spans. (k : ℕ) → k < entries_of head →
        span spans.items k ≡ span_of head image.now.bytes.now k) }
{
    let mut spans = Vec::with_capacity(alloc, image.entries())?;
    for k in 0..image.entries() {
        spans.push(span_at(image, k))?;
    }
    Ok(spans)
}

/// Whether the class of an entry's object is no entry in use.
#[tactic(auto, unfolding(st_model::specs::Faults::class_fails))]
fn class_fails(image: &Image<'_>, k: usize) -> bool
    requires entry { k < entries_of image.now.head }
    requires inside { is_used image.now.head image.now.bytes.now k ≡ true →
        IsInside image.now.head image.now.bytes.now k }
    ensures { result ≡ class_fails image.now.head image.now.bytes.now k }
{
    image.is_used(k) && !image.names(u32::from(image.class(k)))
}

/// The first entry whose object has a wrong class.
pub fn first_bad_class(image: &Image<'_>) -> Option<usize>
    requires { AreInside image.now.head image.now.bytes.now }
    ensures { IsFirst (class_fails image.now.head image.now.bytes.now) (entries_of image.now.head) result }
{
    for k in 0..image.entries() {
        if class_fails(image, k) {
            return Some(k);
        }
    }
    None
}

/// Whether a word of an object's body is a field or a literal.
#[tactic(auto, unfolding(st_model::specs::Faults::is_field))]
fn is_field(image: &Image<'_>, k: usize, i: usize) -> bool
    requires entry { k < entries_of image.now.head }
    requires inside { IsInside image.now.head image.now.bytes.now k }
    requires range { i + 2 < size image.now.head image.now.bytes.now k }
    ensures { result ≡ is_field image.now.head image.now.bytes.now k i }
{
    image.has_pointers(k)
        || image.class(k) == Image::METHOD_CLASS
            && i > 0
            && i <= usize::from(literal_count(image.body(k, 0)))
}

/// Whether a word of an object's body is a field that names no entry in use.
#[tactic(auto, unfolding(st_model::specs::Faults::field_fails))]
fn field_fails(image: &Image<'_>, k: usize, i: usize) -> bool
    requires entry { k < entries_of image.now.head }
    requires used { is_used image.now.head image.now.bytes.now k ≡ true }
    requires inside { IsInside image.now.head image.now.bytes.now k }
    requires range { i + 2 < size image.now.head image.now.bytes.now k }
    ensures { result ≡ field_fails image.now.head image.now.bytes.now k i }
{
    let field = image.body(k, i);
    is_field(image, k, i) && field % 2 == 0 && !image.names(u32::from(field))
}

/// The first wrong field of an entry's object.
#[tactic(auto, unfolding(st_model::specs::Faults::field_fails, st_model::specs::Faults::is_field))]
fn first_bad_field_of(image: &Image<'_>, k: usize) -> Option<usize>
    requires entry { k < entries_of image.now.head }
    requires inside { is_used image.now.head image.now.bytes.now k ≡ true →
        IsInside image.now.head image.now.bytes.now k }
    ensures least { IsLeast (field_fails image.now.head image.now.bytes.now k) result }
    ensures small { IfSome result (λ i. i < 65536) }
{
    if !image.is_used(k) {
        return None;
    }
    for i in 0..image.size(k) - 2 {
        if field_fails(image, k, i) {
            return Some(i);
        }
    }
    None
}

/// The first entry whose object has a wrong field or literal, and the first of these.
pub fn first_bad_field(image: &Image<'_>) -> Option<(usize, usize)>
    requires { AreInside image.now.head image.now.bytes.now }
    ensures first { IsFirstPair (field_fails image.now.head image.now.bytes.now)
        (entries_of image.now.head) result }
    ensures small { IfSome result (λ found. found.1 < 65536) }
{
    for k in 0..image.entries() {
        if let Some(i) = first_bad_field_of(image, k) {
            return Some((k, i));
        }
    }
    None
}

/// Whether an object of the class of methods is none.
#[tactic(auto, unfolding(st_model::specs::Faults::method_fails))]
fn method_fails(image: &Image<'_>, k: usize) -> bool
    requires entry { k < entries_of image.now.head }
    requires inside { is_used image.now.head image.now.bytes.now k ≡ true →
        IsInside image.now.head image.now.bytes.now k }
    ensures { result ≡ method_fails image.now.head image.now.bytes.now k }
{
    if !image.is_used(k) || image.class(k) != Image::METHOD_CLASS {
        return false;
    }
    let size = image.size(k);
    if image.has_pointers(k) || size == 2 {
        return true;
    }
    let header = image.body(k, 0);
    header % 2 == 0 || usize::from(literal_count(header)) > size - 3
}

/// The first entry whose object should be a method and is none.
pub fn first_bad_method(image: &Image<'_>) -> Option<usize>
    requires { AreInside image.now.head image.now.bytes.now }
    ensures { IsFirst (method_fails image.now.head image.now.bytes.now) (entries_of image.now.head) result }
{
    for k in 0..image.entries() {
        if method_fails(image, k) {
            return Some(k);
        }
    }
    None
}
