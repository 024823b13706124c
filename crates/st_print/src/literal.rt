//! Literals.

ghost use Rattle.std.specs.Prelude.{◌≡◌, ◌++◌, OnOk};
ghost use Rattle.st_scan.specs.Views.{array, content_view, elements_view};
ghost use Rattle.st_print.specs.Printed.{content_words, elements_words};
ghost use Rattle.st_print.specs.inside.Putting.{IsPut};

use crate::words::{put, put_number, put_string, put_symbol};
use st_scan::{Content, Element, Text};
use std::alloc::AllocError;

/// Puts a literal.
#[cycle(literals)]
#[tactic(auto, using(crate::proofs::Spacing::spacing, st_scan::proofs::Views::views))]
pub fn literal(out: &mut Text, content: &Content) -> Result<(), AllocError>
    ensures { OnOk result (IsPut (content_words (content_view content.now)) out.old out.new) }
{
    match content {
        Content::Number(number) => put_number(out, *number),
        Content::Character(byte) => put(out, &[b'$', *byte]),
        Content::Bytes(text) => put_string(out, text),
        Content::Symbol(text) => put_symbol(out, text),
        Content::Array(elements) => array(out, elements),
        Content::Nil => put(out, b"nil"),
        Content::False => put(out, b"false"),
        Content::True => put(out, b"true"),
    }
}

/// Puts an array.
#[cycle(literals)]
#[tactic(auto, using(crate::proofs::Spacing::spacing))]
fn array(out: &mut Text, elements: &[Element]) -> Result<(), AllocError>
    ensures { OnOk result (IsPut (content_words (array (elements_view elements.now))) out.old out.new) }
{
    put(out, b"#(")?;
    all_elements(out, elements)?;
    put(out, b")")
}

/// Puts elements.
#[cycle(literals)]
#[tactic(auto, using(crate::proofs::Spacing::spacing))]
fn all_elements(out: &mut Text, elements: &[Element]) -> Result<(), AllocError>
    ensures { OnOk result (IsPut (elements_words (elements_view elements.now)) out.old out.new) }
{
    for element in elements {
        literal(out, &element.what)?;
    }
    Ok(())
}
