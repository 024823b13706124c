ghost use Rattle.std.specs.Prelude.{◌≡◌, ◌<◌, ◌≤◌, Some, IsTrue, ◌↔◌};
ghost use Rattle.st_model.specs.Values.{value};
ghost use Rattle.st_bitblt.specs.inside.Copied.{CanCopy, Copied, object_of_source};

use crate::rule::Rule;
use crate::source::{Ends, Places, Source};
use crate::stretch::{PIXELS, copy_stretch};
use st_memory::Memory;

/// Copies pixels from the left. Within one object the source must not begin before the destination.
fn copy_up<M: Memory>(
    m: &mut M,
    source: &mut [u16],
    dest: &mut [u16],
    rule: &Rule,
    tone: u16,
    ends: &Ends,
    a: Places,
)
    requires can { CanCopy (M.view m.old) source.old dest.old ends.now a }
    requires order { object_of_source ends.now.source ≡ Some (value ends.now.dest) → a.p ≤ a.q }
    ensures { Copied rule.now tone (object_of_source ends.now.source) (value ends.now.dest)
        (M.view m.old) (M.view m.new) a.p a.q a.n }
{
    let mut done = 0;
    while done < a.n {
        let count = (a.n - done).min(PIXELS);
        let stretch = Places {
            p: a.p + done,
            q: a.q + done,
            n: count,
        };
        copy_stretch(m, source, dest, rule, tone, ends, stretch);
        done += count;
    }
}

/// Copies pixels from the right. Within one object the source must not begin after the destination.
fn copy_down<M: Memory>(
    m: &mut M,
    source: &mut [u16],
    dest: &mut [u16],
    rule: &Rule,
    tone: u16,
    ends: &Ends,
    a: Places,
)
    requires can { CanCopy (M.view m.old) source.old dest.old ends.now a }
    requires order { object_of_source ends.now.source ≡ Some (value ends.now.dest) → a.q ≤ a.p }
    ensures { Copied rule.now tone (object_of_source ends.now.source) (value ends.now.dest)
        (M.view m.old) (M.view m.new) a.p a.q a.n }
{
    let mut left = a.n;
    while left > 0 {
        let count = left.min(PIXELS);
        left -= count;
        let stretch = Places {
            p: a.p + left,
            q: a.q + left,
            n: count,
        };
        copy_stretch(m, source, dest, rule, tone, ends, stretch);
    }
}

/// Whether the source begins before the destination, in the same object.
fn begins_before(ends: &Ends, p: u32, q: u32) -> bool
    ensures { IsTrue result ↔ ((object_of_source ends.now.source ≡ Some (value ends.now.dest)) × (q < p)) }
{
    match ends.source {
        Source::Words { object, .. } => {
            if object.0 != ends.dest.0 {
                return false;
            }
            q < p
        }
        Source::Ones => false,
    }
}

/// Copies pixels by stretches, in the direction in which no pixel of the source is read once it was changed.
#[inline(never)]
fn copy_stretches<M: Memory>(
    m: &mut M,
    source: &mut [u16],
    dest: &mut [u16],
    rule: &Rule,
    tone: u16,
    ends: &Ends,
    a: Places,
)
    requires can { CanCopy (M.view m.old) source.old dest.old ends.now a }
    ensures { Copied rule.now tone (object_of_source ends.now.source) (value ends.now.dest)
        (M.view m.old) (M.view m.new) a.p a.q a.n }
{
    if begins_before(ends, a.p, a.q) {
        copy_down(m, source, dest, rule, tone, ends, a);
    } else {
        copy_up(m, source, dest, rule, tone, ends, a);
    }
}

/// Copies pixels: at once where they are no more than a stretch, and else by stretches.
#[inline(always)]
pub fn copy_row<M: Memory>(
    m: &mut M,
    source: &mut [u16],
    dest: &mut [u16],
    rule: &Rule,
    tone: u16,
    ends: &Ends,
    a: Places,
)
    requires can { CanCopy (M.view m.old) source.old dest.old ends.now a }
    ensures { Copied rule.now tone (object_of_source ends.now.source) (value ends.now.dest)
        (M.view m.old) (M.view m.new) a.p a.q a.n }
{
    match a.n {
        1..=PIXELS => copy_stretch(m, source, dest, rule, tone, ends, a),
        _ => copy_stretches(m, source, dest, rule, tone, ends, a),
    }
}
