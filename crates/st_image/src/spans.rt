//! Spans of words, and the first two of a list that share a word.

ghost use Rattle.std.specs.Prelude.{◌≡◌, ℕ, ◌+◌, ◌-◌, ◌<◌, ◌≤◌, List, length, slice_index, IfOk, IsTrue, ◌↔◌};
ghost use Rattle.st_image.specs.declared.spans.Span.{Span};
ghost use Rattle.st_image.specs.inside.Spans.{SharesWord, IsFirstShared, AreWithin, owners_of, HasShared, IsNextSharing, IsRoomFor, count_below, begins_at, ends_at};

use std::alloc::{AllocError, Global};

/// Words that lie one after another.
#[derive(Clone, Copy, Debug, PartialEq, Eq)]
pub struct Span {
    /// The place of the first word.
    pub from: u32,
    /// The place after the last word.
    pub to: u32,
}

/// Whether two spans share a word.
fn shares(a: Span, b: Span) -> bool
    ensures { IsTrue result ↔ SharesWord a b }
{
    a.from.max(b.from) < a.to.min(b.to)
}

/// Whether a span has a word that more than one span has.
fn has_shared(owners: &[u16], span: Span) -> bool
    requires within { span.to < length owners.now }
    ensures { IsTrue result ↔ HasShared owners.now span }
{
    for w in span.from..span.to {
        if owners[w as usize] > 1 {
            return true;
        }
    }
    false
}

/// Counts at each word the spans that begin there, and those that end there.
fn tally(spans: &[Span], begins: &mut [u16], ends: &mut [u16])
    requires { IsRoomFor spans.now begins.old ends.old }
    ensures begins { (w : ℕ) → w < length begins.old →
        slice_index begins.new w ≡ count_below (begins_at spans.now w) (length spans.now) }
    ensures ends { (w : ℕ) → w < length begins.old →
        slice_index ends.new w ≡ count_below (ends_at spans.now w) (length spans.now) }
{
    for k in 0..spans.len() {
        begins[spans[k].from as usize] += 1;
        ends[spans[k].to as usize] += 1;
    }
}

/// Counts the spans that have each word. Of two lists of zeros the first takes the counts.
fn count_into(spans: &[Span], owners: &mut [u16], ends: &mut [u16])
    requires { IsRoomFor spans.now owners.old ends.old }
    ensures { (w : ℕ) → w < length owners.old → slice_index owners.new w ≡ owners_of spans.now w }
{
    tally(spans, owners, ends);
    let mut open = 0u16;
    for w in 0..owners.len() {
        open += owners[w];
        open -= ends[w];
        owners[w] = open;
    }
}

/// How many spans have each word.
fn count_owners(alloc: Global, spans: &[Span], words: u32) -> Result<Vec<u16>, AllocError>
    requires few { length spans.now ≤ 32768 }
    requires small { words ≤ 16777216 }
    requires within { AreWithin words spans.now }
    ensures length { IfOk result (λ owners. length owners.items ≡ words + 1) }
    ensures owners { IfOk result (λ owners. (w : ℕ) → w ≤ words →
        slice_index owners.items w ≡ owners_of spans.now w) }
{
    let mut owners = vec![in alloc; 0u16; words as usize + 1]?;
    let mut ends = vec![in alloc; 0u16; words as usize + 1]?;
    count_into(spans, &mut owners, &mut ends);
    Ok(owners)
}

/// The first span after the one at a place that shares a word with it.
fn next_sharing(spans: &[Span], i: usize) -> Option<usize>
    requires { i < length spans.now }
    ensures { IsNextSharing spans.now i result }
{
    for j in i + 1..spans.len() {
        if shares(spans[i], spans[j]) {
            return Some(j);
        }
    }
    None
}

/// The first two spans that share a word: the least place of a first one, and then the least of a second one.
pub fn first_shared(
    alloc: Global,
    spans: &[Span],
    words: u32,
) -> Result<Option<(usize, usize)>, AllocError>
    requires few { length spans.now ≤ 32768 }
    requires small { words ≤ 16777216 }
    requires within { AreWithin words spans.now }
    ensures { IfOk result (λ found. IsFirstShared spans.now found) }
{
    let owners = count_owners(alloc, spans, words)?;
    for i in 0..spans.len() {
        if has_shared(&owners, spans[i]) {
            if let Some(j) = next_sharing(spans, i) {
                return Ok(Some((i, j)));
            }
        }
    }
    Ok(None)
}
