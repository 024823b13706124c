//! Instructions with the places where they stand, so that what stands in so many bytes is found at once.

ghost use Rattle.std.specs.Prelude.{◌≡◌, ◌≤◌, length, option_map, IfOk};
ghost use Rattle.st_decompile.specs.inside.Located.{located_from, place_or, split_now, split_of};
ghost use Rattle.st_decompile.specs.inside.Located.{AreSpaced, AreWithin, AreFront, AreBehind};

use st_emit::{Instruction, size_of, sum};
use std::alloc::{AllocError, Global};

/// An instruction, and the place of its first byte.
#[derive(Clone, Copy)]
pub struct Located {
    pub at: usize,
    pub step: Instruction,
}

/// Instructions that stand one behind the other from a place on.
pub fn locate(alloc: Global, at: usize, steps: &[Instruction]) -> Result<Vec<Located>, AllocError>
    ensures { IfOk result (λ ls. ls.items ≡ located_from at steps.now) }
{
    let mut located = Vec::new(alloc);
    let mut place = at;
    for step in steps {
        located.push(Located {
            at: place,
            step: *step,
        })?;
        let next = sum(place, size_of(*step))?;
        place = next;
    }
    Ok(located)
}

/// The first instruction, and those behind it.
pub fn split(steps: &[Located]) -> Option<(Located, &[Located])>
    ensures { option_map split_now result ≡ split_of steps.now }
{
    let [first, rest @ ..] = steps else {
        return None;
    };
    Some((*first, rest))
}

/// Where the first instruction stands, or 0.
pub fn first_place(steps: &[Located]) -> usize
    ensures { result ≡ place_or 0 steps.now }
{
    match steps {
        [first, ..] => first.at,
        [] => 0,
    }
}

/// How many instructions stand in the first bytes.
fn count_within(distance: usize, steps: &[Located]) -> usize
    requires { AreSpaced steps.now }
    ensures few { result ≤ length steps.now }
    ensures within { AreWithin distance steps.now result }
{
    let start = first_place(steps);
    steps.partition_point(|s| s.at.saturating_sub(start) < distance)
}

/// The first instructions, by their bytes.
pub fn front(distance: usize, steps: &[Located]) -> &[Located]
    requires { AreSpaced steps.now }
    ensures { AreFront distance steps.now result.now }
{
    let count = count_within(distance, steps);
    &steps[..count]
}

/// The instructions behind these.
pub fn behind(distance: usize, steps: &[Located]) -> &[Located]
    requires { AreSpaced steps.now }
    ensures placed { AreBehind distance steps.now result.now }
    ensures fewer { length result.now ≤ length steps.now }
{
    let count = count_within(distance, steps);
    &steps[count..]
}
