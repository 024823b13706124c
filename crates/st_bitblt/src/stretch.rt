ghost use Rattle.std.specs.Prelude.{◌≡◌, ℕ, ◌+◌, ◌*◌, ◌<◌, ◌≤◌, ◌/◌, length, take, slice_index};
ghost use Rattle.st_model.specs.{Values.value, Pixels.AllFit};
ghost use Rattle.st_bitblt.specs.inside.Copied.{CanCopy, Copied, HasSource, object_of_source};
ghost use Rattle.st_bitblt.specs.{inside.Stretches.{Combined, IsStretch, Restored}, inside.Words.{words, HasWords}};

use crate::rule::{Rule, joined, masked};
use crate::source::{Ends, Places, Source};
use st_memory::Memory;
use st_model::Oop;

/// How many words of a row are copied at once.
pub const WORDS: usize = 128;

/// How many pixels are copied at once: as many as lie in so many words, wherever in the first one they begin.
pub const PIXELS: u32 = 2032;

/// Puts together words of a source and of a destination whose pixels lie alike.
fn combine_alike(rule: &Rule, tone: u16, source: &[u16], dest: &mut [u16])
    requires enough { length dest.old ≤ length source.now }
    ensures { Combined rule.now tone source.now 0 dest.old dest.new 0 (16 * length dest.old) }
{
    for j in 0..dest.len() {
        dest[j] = rule.combined(source[j] & tone, dest[j]);
    }
}

/// Puts together words of a source and of a destination, where the source's pixels stand `skip` behind.
fn combine_shifted(rule: &Rule, tone: u16, source: &[u16], skip: u32, dest: &mut [u16])
    requires some { 0 < skip }
    requires skip { skip < 16 }
    requires enough { length dest.old + 1 ≤ length source.now }
    ensures { Combined rule.now tone source.now skip dest.old dest.new 0 (16 * length dest.old) }
{
    for j in 0..dest.len() {
        let piece = joined(source[j], source[j + 1], skip) & tone;
        dest[j] = rule.combined(piece, dest[j]);
    }
}

/// Puts together words of a source and of a destination.
fn combine_words(rule: &Rule, tone: u16, source: &[u16], skip: u32, dest: &mut [u16])
    requires skip { skip < 16 }
    requires enough { length dest.old + 1 ≤ length source.now }
    ensures { Combined rule.now tone source.now skip dest.old dest.new 0 (16 * length dest.old) }
{
    if skip == 0 {
        combine_alike(rule, tone, source, dest);
    } else {
        combine_shifted(rule, tone, source, skip, dest);
    }
}

/// Gives a word back its old pixels but for n from `first` on.
fn restore(dest: &mut [u16], at: usize, old: u16, first: u32, n: u32)
    requires within { at < length dest.old }
    requires some { first + n ≤ 16 }
    ensures { Restored old dest.old dest.new at first n }
{
    dest[at] = masked(dest[at], old, first, n);
}

/// Puts together n pixels of a source and of a destination, from `first` on. Words behind those of the pixels become some
/// others.
fn combine_pixels(
    rule: &Rule,
    tone: u16,
    source: &[u16],
    skip: u32,
    dest: &mut [u16],
    first: u32,
    n: u32,
)
    requires skip { skip < 16 }
    requires enough { length dest.old + 1 ≤ length source.now }
    requires first { first < 16 }
    requires end { first + n ≤ 16 * length dest.old }
    requires some { 0 < n }
    requires few { n ≤ 2032 }
    ensures pixels { let count = (first + n + 15) / 16 in
        Combined rule.now tone source.now skip (take count dest.old) (take count dest.new) first n }
    ensures fits { AllFit dest.new }
{
    let last = ((first + n - 1) / 16) as usize;
    let (first_word, last_word) = (dest[0], dest[last]);
    combine_words(rule, tone, source, skip, dest);
    restore(dest, 0, first_word, first, 16 - first);
    restore(dest, last, last_word, 0, first + n - 16 * last as u32);
}

/// Writes zeros from one place on.
fn clear(words: &mut [u16], from: usize)
    requires { from ≤ length words.old }
    ensures kept { (k : ℕ) → k < from → slice_index words.new k ≡ slice_index words.old k }
    ensures zeros { (k : ℕ) → from ≤ k → slice_index words.new k ≡ 0 }
{
    for k in from..words.len() {
        words[k] = 0;
    }
}

/// Reads the words of an object from one on. Behind the last one there are zeros.
fn read_from<M: Memory>(m: &M, object: Oop, size: u32, from: u32, into: &mut [u16])
    requires there { HasWords (M.view m.now) (value object) }
    requires size { size ≡ length (words (M.view m.now) (value object)) }
    requires small { length into.old < 1024 }
    ensures { (k : ℕ) → k < length into.old
        → slice_index into.new k ≡ slice_index (words (M.view m.now) (value object)) (from + k) }
{
    let there = size.saturating_sub(from).min(into.len() as u32) as usize;
    if there > 0 {
        m.read_words(object, from, &mut into[..there]);
    }
    clear(into, there);
}

/// Reads the words of a source from the one before `at` on. Where none is before it, the first one stays.
fn read_source<M: Memory>(m: &M, source: Source, at: u32, into: &mut [u16])
    requires there { HasSource (M.view m.now) source }
    requires some { 0 < length into.old }
    requires small { length into.old < 1024 }
    ensures { IsStretch (M.view m.now) (object_of_source source) at into.new }
{
    match source {
        Source::Ones => into.fill(0xFFFF),
        Source::Words { object, length } => {
            if at == 0 {
                read_from(m, object, length, 0, &mut into[1..]);
            } else {
                read_from(m, object, length, at - 1, into);
            }
        }
    }
}

/// Copies pixels, all of which are read before one is written, through buffers for the words of source and destination. What lies
/// behind them there, up to a multiple of 16 words, is put together too and not written: so no word is done alone.
#[inline(always)]
pub fn copy_stretch<M: Memory>(
    m: &mut M,
    source: &mut [u16],
    dest: &mut [u16],
    rule: &Rule,
    tone: u16,
    ends: &Ends,
    a: Places,
)
    requires can { CanCopy (M.view m.old) source.old dest.old ends.now a }
    requires some { 0 < a.n }
    requires few { a.n ≤ 2032 }
    ensures { Copied rule.now tone (object_of_source ends.now.source) (value ends.now.dest)
        (M.view m.old) (M.view m.new) a.p a.q a.n }
{
    let first = a.p % 16;
    let place = a.q + 16 - first;
    let count = ((first + a.n + 15) / 16) as usize;
    let whole = (count + 15) / 16 * 16;
    read_source(m, ends.source, place / 16, &mut source[..count + 1]);
    m.read_words(ends.dest, a.p / 16, &mut dest[..count]);
    combine_pixels(
        rule,
        tone,
        &source[..whole + 1],
        place % 16,
        &mut dest[..whole],
        first,
        a.n,
    );
    m.write_words(ends.dest, a.p / 16, &dest[..count]);
}
