ghost use Rattle.std.specs.Prelude.{◌≡◌, ℕ, ◌+◌, ◌*◌, ◌<◌, ◌≤◌, length, slice_index, IfSome};
ghost use Rattle.st_model.specs.{Values.{value, word}, Pixels.row_words, BitBlt.painted};
ghost use Rattle.st_bitblt.specs.inside.Copied.{HasSource, object_of_source};
ghost use Rattle.st_bitblt.specs.inside.Painting.{IsLayoutOf, bits_of, width_of, height_of, source_words, tone_at};
ghost use Rattle.st_bitblt.specs.inside.Reading.{IsForm, IsFormIfAny, HasSixteen, HasWordsIn, IsBitBlt, copy_in};
ghost use Rattle.st_bitblt.specs.{inside.Rows.FitsPlaces, inside.Words.with_words};

use crate::bit_blt::BitBlt;
use crate::form::{Form, row_words};
use crate::rows::{Layout, Pen, copy_rows};
use crate::rule::Rule;
use crate::source::{Ends, Source};
use crate::span::{Span, lines_copied};
use st_memory::{Memory, live_value};
use st_model::{Oop, Word};

/// The object of kind Words that a word names.
fn object_with_words<M: Memory>(m: &M, bits: Word) -> Oop
    requires { HasWordsIn (M.view m.now).objects (word bits) 0 }
    ensures { value result ≡ word bits }
{
    match live_value(m, bits) {
        Some(object) => object,
        None => Oop::NIL,
    }
}

/// The words of a Form, or ones where there is none.
fn source_of<M: Memory>(m: &M, form: Option<Form>) -> Source
    requires { IsFormIfAny (M.view m.now).objects form }
    ensures there { HasSource (M.view m.now) result }
    ensures object { object_of_source result ≡ bits_of form }
{
    match form {
        None => Source::Ones,
        Some(form) => {
            let object = object_with_words(m, form.bits);
            Source::Words {
                object,
                length: m.size(object),
            }
        }
    }
}

/// The sixteen words of a halftone, which are of ones where there is none.
fn tones_of<M: Memory>(m: &M, halftone: Option<Form>) -> [u16; 16]
    requires form { IsFormIfAny (M.view m.now).objects halftone }
    requires sixteen { HasSixteen (M.view m.now).objects halftone }
    ensures { (i : ℕ) → i < 16 → slice_index result i ≡ tone_at (M.view m.now) halftone i }
{
    let mut tones = [0xFFFF; 16];
    if let Some(form) = halftone {
        let object = object_with_words(m, form.bits);
        m.read_words(object, 0, &mut tones);
    }
    tones
}

/// How the rows of these lines lie, where a row of the destination and one of the source have so many words.
fn layout(x: Span, y: Span, dest_words: u32, source_words: u32) -> Layout
    requires x { (x.to < 65536) × (x.from < 65536) × (x.count < 32768) }
    requires y { (y.to < 65536) × (y.from < 65536) × (y.count < 32768) }
    requires dest { dest_words < 2049 }
    requires source { source_words < 2049 }
    ensures is { IsLayoutOf x y dest_words source_words result }
    ensures fits { FitsPlaces result }
{
    let along = 16 * dest_words;
    let across = 16 * source_words;
    Layout {
        p: y.to * along + x.to,
        along,
        q: y.from * across + x.from,
        across,
        n: x.count,
        height: y.count,
    }
}

/// How many pixels a row of a source has, if there is one.
fn width_of(source: Option<Form>) -> Option<u32>
    ensures { result ≡ width_of source }
{
    match source {
        Some(form) => Some(form.width),
        None => None,
    }
}

/// How many rows a source has, if there is one.
fn height_of(source: Option<Form>) -> Option<u32>
    ensures { result ≡ height_of source }
{
    match source {
        Some(form) => Some(form.height),
        None => None,
    }
}

/// How many words a row of a source has; without one so many that each line of 32768 pixels has room.
fn source_words(source: Option<Form>) -> u32
    requires { IfSome (width_of source) (λ n. n < 16384) }
    ensures words { result ≡ source_words source }
    ensures small { result < 2049 }
{
    match source {
        Some(form) => row_words(form.width),
        None => 2048,
    }
}

/// Copies the pixels that a BitBlt tells.
pub fn paint<M: Memory>(m: &mut M, bit_blt: BitBlt)
    requires { IsBitBlt (M.view m.old).objects bit_blt }
    ensures { let old = M.view m.old in
        M.view m.new ≡ with_words old (word bit_blt.destination.bits)
        (painted (copy_in old.objects bit_blt)) }
{
    let form = bit_blt.destination;
    let source = bit_blt.source;
    let x = lines_copied(bit_blt.across, form.width, width_of(source));
    let y = lines_copied(bit_blt.down, form.height, height_of(source));
    if x.count == 0 {
        return;
    }
    let pen = Pen {
        rule: Rule::new(bit_blt.rule as u16),
        tones: tones_of(m, bit_blt.halftone),
        first: y.to,
    };
    let ends = Ends {
        source: source_of(m, source),
        dest: object_with_words(m, form.bits),
    };
    let rows = layout(x, y, row_words(form.width), source_words(source));
    copy_rows(m, &pen, ends, rows);
}
