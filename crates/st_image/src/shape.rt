ghost use Rattle.std.specs.Prelude.{◌≡◌, ◌+◌, ◌<◌, true};
ghost use Rattle.st_model.specs.{Objects.is_method, Image.{entries_of, size}};
ghost use Rattle.st_model.specs.Start.{is_word_class, has_words, kind_in, fields_in, units_in};
ghost use Rattle.st_image.specs.{inside.Sizes.IsInside, inside.Loads.{IsSound, IsShape}};

use crate::head::has_letters;
use crate::image::Image;
use crate::numbers::literal_count;
use st_model::Kind;

/// What an object consists of.
#[derive(Clone, Copy)]
pub struct Shape {
    /// What its body consists of.
    pub kind: Kind,
    /// How many fields it has: pointers, or a method's header and literals.
    pub fields: usize,
    /// How many words or bytes it has after its fields.
    pub units: usize,
}

impl Shape {
    ghost use Rattle.std.specs.Prelude.{◌≡◌, ◌<◌, true};
    ghost use Rattle.st_model.specs.Objects.{is_method};
    ghost use Rattle.st_image.specs.inside.Shape.{size_as, literals_as};

    /// The size in fields, words or bytes; all bytes of a method.
    pub fn size(&self) -> u32
        requires fields { self.now.fields < 65536 }
        requires units { self.now.units < 131072 }
        ensures { result ≡ size_as self.now.kind self.now.fields self.now.units }
    {
        let size = match self.kind {
            Kind::Pointers => self.fields,
            Kind::Words | Kind::Bytes => self.units,
            Kind::Method => 2 * self.fields + self.units,
        };
        size as u32
    }

    /// The number of a method's literals.
    pub fn literals(&self) -> u32
        requires fields { self.now.fields < 65536 }
        requires header { is_method self.now.kind ≡ true → 0 < self.now.fields }
        ensures { result ≡ literals_as self.now.kind self.now.fields }
    {
        match self.kind {
            Kind::Method => self.fields as u32 - 1,
            Kind::Pointers | Kind::Words | Kind::Bytes => 0,
        }
    }
}

/// Whether an entry's object is a class whose instances consist of words.
#[tactic(auto, unfolding(st_model::specs::Start::is_word_class))]
fn is_word_class(image: &Image<'_>, k: usize) -> bool
    requires entry { k < entries_of image.now.head }
    requires inside { IsInside image.now.head image.now.bytes.now k }
    ensures { result ≡ is_word_class image.now.head image.now.bytes.now k }
{
    if !image.has_pointers(k) || image.size(k) < 5 {
        return false;
    }
    let specification = image.body(k, 2);
    specification % 2 == 1 && specification >> 14 & 1 == 1
}

/// Whether an object without pointers that is no method consists of words.
#[tactic(auto, using(crate::proofs::FaultRows::named), unfolding(st_model::specs::Start::has_words))]
fn has_words(image: &Image<'_>, k: usize) -> bool
    requires { IsSound image.now.head image.now.bytes.now k }
    ensures { result ≡ has_words image.now.head image.now.bytes.now k }
{
    if has_letters(image.bytes) {
        image.has_words_mark(k)
    } else {
        is_word_class(image, usize::from(image.class(k) / 2))
    }
}

/// What the body of an entry's object consists of.
#[tactic(auto, unfolding(st_model::specs::Start::kind_in))]
fn kind_of(image: &Image<'_>, k: usize) -> Kind
    requires { IsSound image.now.head image.now.bytes.now k }
    ensures { result ≡ kind_in image.now.head image.now.bytes.now k }
{
    if image.has_pointers(k) {
        Kind::Pointers
    } else if image.class(k) == Image::METHOD_CLASS {
        Kind::Method
    } else if has_words(image, k) {
        Kind::Words
    } else {
        Kind::Bytes
    }
}

/// How many of the words of an object's body are fields.
#[tactic(auto, unfolding(st_model::specs::Start::fields_in))]
fn fields_of(image: &Image<'_>, k: usize, kind: Kind, words: usize) -> usize
    requires sound { IsSound image.now.head image.now.bytes.now k }
    requires kind { kind ≡ kind_in image.now.head image.now.bytes.now k }
    requires words { words + 2 ≡ size image.now.head image.now.bytes.now k }
    ensures fields { result ≡ fields_in image.now.head image.now.bytes.now k }
    ensures header { is_method kind ≡ true → 0 < result }
{
    match kind {
        Kind::Pointers => words,
        Kind::Words | Kind::Bytes => 0,
        Kind::Method => usize::from(literal_count(image.body(k, 0))) + 1,
    }
}

/// How many words or bytes an object has, where so many words stand after its fields.
#[tactic(auto, unfolding(st_model::specs::Start::units_in))]
fn units_of(image: &Image<'_>, k: usize, kind: Kind, words: usize) -> usize
    requires entry { k < entries_of image.now.head }
    requires kind { kind ≡ kind_in image.now.head image.now.bytes.now k }
    requires words { let head = image.now.head in let bytes = image.now.bytes.now in
        words + 2 + fields_in head bytes k ≡ size head bytes k }
    requires few { words < 65536 }
    ensures units { result ≡ units_in image.now.head image.now.bytes.now k }
    ensures few { result < 131072 }
{
    match kind {
        Kind::Pointers => 0,
        Kind::Words => words,
        Kind::Bytes | Kind::Method => {
            (2 * words).saturating_sub(usize::from(image.has_odd_length(k)))
        }
    }
}

/// What an entry's object consists of.
#[tactic(auto, using(crate::proofs::Shapes::fields_range))]
pub fn shape_of(image: &Image<'_>, k: usize) -> Shape
    requires { IsSound image.now.head image.now.bytes.now k }
    ensures { IsShape image.now.head image.now.bytes.now k result }
{
    let words = image.size(k) - 2;
    let kind = kind_of(image, k);
    let fields = fields_of(image, k, kind, words);
    let units = units_of(image, k, kind, words - fields);
    Shape {
        kind,
        fields,
        units,
    }
}
