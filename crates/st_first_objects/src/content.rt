// What is in an object.
ghost use Rattle.std.specs.Prelude.{◌≡◌, IfOk, replicate, List};
ghost use Rattle.st_model.specs.Objects.{words_of};
ghost use Rattle.st_first_objects.specs.{Things.{Thing as NamedThing}, Pointers.object_in};
ghost use Rattle.st_first_objects.specs.Contents.{Empty, of_fields, of_bytes, association, array, dictionary};
ghost use Rattle.st_first_objects.specs.inside.Views.{thing_of, field_of, fields_of, content_of};

use crate::thing::Thing;
use std::alloc::{AllocError, Global};

/// Nil, a SmallInteger, or another of the first objects.
#[derive(Clone, Copy)]
pub(crate) enum Field<'a> {
    Empty,
    Number(usize),
    To(Thing<'a>),
}

/// How many places a new dictionary has.
pub(crate) const PLACES: usize = 8;

/// So many fields of nil.
pub(crate) fn empty_fields<'a>(alloc: Global, count: usize) -> Result<Vec<Field<'a>>, AllocError>
    ensures { IfOk result (λ fields. fields_of fields.items ≡ replicate count Empty) }
{
    Ok(vec![in alloc; Field::Empty; count]?)
}

/// Fields, bytes, or no words.
#[derive(Drop)]
pub(crate) enum Body<'a> {
    Fields(Vec<Field<'a>>),
    Bytes(&'a [u8]),
    NoWords,
}

/// A class, and what an instance of it has.
#[derive(Drop)]
pub(crate) struct Content<'a> {
    pub(crate) class: Thing<'a>,
    pub(crate) body: Body<'a>,
}

impl<'a> Content<'a> {
    /// Fields of an instance of the class of this name.
    pub(crate) fn of_fields(class: &'a [u8], fields: Vec<Field<'a>>) -> Content<'a>
        ensures { content_of result ≡ of_fields class.now (fields_of fields.entry.items) }
    {
        Content {
            class: Thing::class(class),
            body: Body::Fields(fields),
        }
    }

    /// Bytes of an instance of the class of this name.
    pub(crate) fn of_bytes(class: &'a [u8], bytes: &'a [u8]) -> Content<'a>
        ensures { content_of result ≡ of_bytes class.now bytes.now }
    {
        Content {
            class: Thing::class(class),
            body: Body::Bytes(bytes),
        }
    }

    /// An Array.
    pub(crate) fn array(fields: Vec<Field<'a>>) -> Content<'a>
        ensures { content_of result ≡ array (fields_of fields.entry.items) }
    {
        Content::of_fields(b"Array", fields)
    }

    /// An Association.
    pub(crate) fn association(
        alloc: Global,
        key: Field<'a>,
        value: Field<'a>,
    ) -> Result<Content<'a>, AllocError>
        ensures { IfOk result (λ c. content_of c ≡ association (field_of key.entry) (field_of value.entry)) }
    {
        let fields = vec![in alloc; key, value]?;
        Ok(Content::of_fields(b"Association", fields))
    }

    /// A MethodDictionary without methods, of which this is the Array.
    pub(crate) fn dictionary(alloc: Global, methods: Thing<'a>) -> Result<Content<'a>, AllocError>
        ensures { IfOk result (λ c. content_of c ≡ dictionary (thing_of methods.entry)) }
    {
        let mut fields = empty_fields(alloc, PLACES + 2)?;
        fields[0] = Field::Number(0);
        fields[1] = Field::To(methods);
        Ok(Content::of_fields(b"MethodDictionary", fields))
    }

    /// How many words it takes.
    pub(crate) fn words(&self) -> usize
        ensures { (things : List NamedThing) → result ≡ words_of (object_in things (content_of self.now)) }
    {
        match &self.body {
            Body::Fields(fields) => fields.len() + 2,
            Body::Bytes(bytes) => bytes.len().div_ceil(2) + 2,
            Body::NoWords => 2,
        }
    }
}
