//! What primitives are given (`Indexed`, `Put`), and what their conditions find of that, for the effects that follow: what is stored,
//! and where (`Element`, `Storing`); where a stream stands, and what is put there (`Elements`, `Standing`, `Putting`); what is made
//! (`Shape`, `MethodShape`); and which bytes are replaced (`Replacing`).

ghost use Rattle.std.specs.Prelude.{◌≡◌, ◌<◌, ◌≤◌, ◌+◌, ◌%◌, ◌^◌, false};
ghost use Rattle.st_model.specs.Objects.{is_method, place_of};
ghost use Rattle.st_model.specs.Values.{Ref, word};
ghost use Rattle.st_model.specs.declared.page.PageObject.TheVariants.{MethodClass};
ghost use Rattle.st_model.specs.Formed.{unit_limit};
ghost use Rattle.st_model.specs.Storage.{body_words, method_words};

use st_model::{Kind, Word};

/// An object, and the index of one of its elements.
#[derive(Clone, Copy)]
pub struct Indexed {
    /// The object.
    pub object: Word,
    /// The index.
    pub index: Word,
}

/// A value, and where it is put.
#[derive(Clone, Copy)]
pub struct Put {
    /// Where it is put.
    pub indexed: Indexed,
    /// The value.
    pub value: Word,
}

/// What a value is as an element of an object.
#[derive(Clone, Copy)]
pub struct Element {
    /// The kind of the object.
    pub kind: Kind,
    /// The word or byte; 0 where the value becomes a field.
    pub unit: u16,
    pub ghost fits: { unit < unit_limit kind },
}

/// Where a value is stored in an object, and what it is as an element of that.
#[derive(Clone, Copy)]
pub struct Storing {
    /// The object.
    pub object: Word,
    /// The value.
    pub value: Word,
    /// The place, counted from 0.
    pub place: u32,
    /// The kind of the object.
    pub kind: Kind,
    /// The word or byte; 0 where a field is stored.
    pub unit: u16,
    pub ghost fits: { unit < unit_limit kind },
}

/// The kind and the size of a new object that is no Method.
#[derive(Clone, Copy)]
pub struct Shape {
    /// The kind.
    pub kind: Kind,
    /// How many fields, words or bytes it has; of a body of at most 65533 words.
    pub size: u32,
    pub ghost other: { is_method kind ≡ false },
    pub ghost body: { body_words kind size ≤ 65533 },
}

/// What a new Method is made of: its class, its header, and how many bytes it has.
#[derive(Clone, Copy)]
pub struct MethodShape {
    /// Its class, CompiledMethod.
    pub class: Word,
    /// The bits of the header.
    pub header: u32,
    /// How many bytes it has behind its literals; with a body of at most 65533 words.
    pub bytes: u32,
    pub ghost methods: { word class ≡ Ref (place_of MethodClass) },
    pub ghost bits: { header < 2 ^ 31 },
    pub ghost few: { bytes < 16384 },
    pub ghost body: { method_words (header % 64) bytes ≤ 65533 },
}

/// What the elements of a stream's collection are.
#[derive(Clone, Copy)]
pub enum Elements {
    /// Any objects, those of an Array.
    Objects,
    /// Characters, those of a String.
    Characters,
}

/// Where a stream stands.
#[derive(Clone, Copy)]
pub struct Standing {
    /// The stream.
    pub stream: Word,
    /// Its collection.
    pub collection: Word,
    /// How many elements were passed; below 16383.
    pub position: u32,
    /// The place of the next element.
    pub place: u32,
    /// What the elements are.
    pub elements: Elements,
    pub ghost low: { position < 16383 },
}

/// Where a stream stands, and what is stored there.
#[derive(Clone, Copy)]
pub struct Putting {
    /// Where it stands.
    pub standing: Standing,
    /// The value that is stored.
    pub value: Word,
    /// The kind of its collection.
    pub kind: Kind,
    /// The word or byte that is stored; 0 for a field.
    pub unit: u16,
    pub ghost fits: { unit < unit_limit kind },
}

/// Bytes from the first to the last, counted from 1, which become those of another object from one on.
#[derive(Clone, Copy)]
pub struct Replacing {
    /// The first of them.
    pub first: u32,
    /// The last; one below the first where there are none.
    pub last: u32,
    /// The first of the other object.
    pub from: u32,
}
