//! The regions of a method's code: the bodies of blocks, the sides of conditional forms, and loops.

ghost use Rattle.std.specs.Prelude.{◌≡◌, ◌∷◌, [], IfOk};
ghost use Rattle.st_emit.specs.declared.instruction.Instruction.TheVariants.{JumpIf};
ghost use Rattle.st_expression_stack.specs.Items.{over};
ghost use Rattle.st_expression_stack.specs.inside.Stacks.{stack_view, piece_view, taken_view, Passes, Chooses, stack_if};
ghost use Rattle.st_decompile.specs.{Reading.{choice_piece, loop_piece}, inside.Located.{AreSpaced, steps_in}};
ghost use Rattle.st_decompile.specs.inside.Read.{region_by, act_by, IsPassed, chosen_by, looped_by};
ghost use Rattle.st_decompile.specs.inside.Read.{makes_block_by, block_made_by, decided_by, choice_made_by, repeats_by};

use crate::located::{Located, behind, first_place, front, locate, split};
use crate::reading::{Reading, acts_plainly, block_piece, block_start};
use st_emit::{Instruction, size_of, sum};
use st_expression_stack::{
    Item, Piece, Stack, Statements, choice_tree, loop_tree, pop_piece, put_low, statements_from,
    statements_of,
};
use std::alloc::{AllocError, Global};

/// The code of `blockCopy:`.
const BLOCK_COPY: u8 = 200;

/// Where an instruction stands: its first byte, the byte behind it, and the instructions behind it in its region.
#[derive(Clone, Copy)]
struct Spot<'a> {
    at: usize,
    next: usize,
    rest: &'a [Located],
}

/// The jumps of a form: the boolean on which the first side is passed, how far that is, and how far the jump at its end
/// goes, over a second side or back to a condition.
#[derive(Clone, Copy)]
struct Jump {
    on: bool,
    distance: usize,
    end: usize,
}

/// A jump over the body of a block, and the instructions behind it.
fn passed(steps: &[Located]) -> Option<(usize, &[Located])>
    requires { AreSpaced steps.now }
    ensures { IsPassed steps.now result }
{
    let Some((first, rest)) = split(steps) else {
        return None;
    };
    match first.step {
        Instruction::JumpPast(distance) => Some((distance, rest)),
        Instruction::Jump(distance) => Some((distance, rest)),
        _ => None,
    }
}

/// A conditional form of a condition and two sides.
fn choice_of(
    alloc: Global,
    on: bool,
    condition: Piece,
    first: Statements,
    second: Statements,
) -> Result<Piece, AllocError>
    ensures { IfOk result (λ p. piece_view p
        ≡ choice_piece on (piece_view condition) (taken_view first []) (taken_view second [])) }
{
    let height = sum(1, first.height.max(second.height))?;
    let least = condition.least.min(first.least.min(second.least));
    let tree = choice_tree(alloc, on, condition.tree, first, second)?;
    Ok(Piece {
        returns: condition.returns,
        tree,
        start: condition.start,
        least,
        height: condition.height.max(height),
    })
}

/// A conditional form of a condition on the stack and two sides, if a text may have it.
fn chosen(
    alloc: Global,
    on: bool,
    first: Stack,
    second: Stack,
    items: &mut Stack,
) -> Result<bool, AllocError>
    ensures { Chooses result items.new (chosen_by on (stack_view first.items) (stack_view second.items)
        (stack_view items.old.items)) }
{
    let Some(condition) = pop_piece(items)? else {
        return Ok(false);
    };
    let mut first = first;
    let mut second = second;
    let passed = statements_of(alloc, &mut first)?;
    let other = statements_of(alloc, &mut second)?;
    let piece = choice_of(alloc, on, condition, passed, other)?;
    put_low(piece, items)
}

/// A loop that starts at a place, of a condition and a body.
fn loop_of(
    alloc: Global,
    on: bool,
    at: usize,
    condition: Statements,
    body: Statements,
) -> Result<Piece, AllocError>
    ensures { IfOk result (λ p. piece_view p
        ≡ loop_piece on at (taken_view condition []) (taken_view body [])) }
{
    let height = sum(1, condition.height.max(body.height))?;
    let least = condition.least.min(body.least);
    let tree = loop_tree(alloc, on, condition.list, body.list)?;
    Ok(Piece {
        returns: false,
        tree,
        start: at,
        least,
        height,
    })
}

/// A loop whose condition is what lies on the stack from a place on, if a text may have it.
fn looped(
    alloc: Global,
    on: bool,
    at: usize,
    body: Stack,
    items: &mut Stack,
) -> Result<bool, AllocError>
    ensures { Chooses result items.new (looped_by on at (stack_view body.items)
        (stack_view items.old.items)) }
{
    let Some(condition) = statements_from(alloc, at, items)? else {
        return Ok(false);
    };
    let mut body = body;
    let inside = statements_of(alloc, &mut body)?;
    let piece = loop_of(alloc, on, at, condition, inside)?;
    put_low(piece, items)
}

/// A block, given what was read of its body, if it was and a text may have it: how many bytes are passed then.
fn block_made(
    alloc: Global,
    reading: Reading<'_>,
    start: usize,
    distance: usize,
    made: Option<Stack>,
    items: &mut Stack,
) -> Result<Option<usize>, AllocError>
    ensures { Passes result items.new (block_made_by reading.entry start distance (stack_if made)
        (stack_view items.old.items)) }
{
    let Some(body) = made else {
        return Ok(None);
    };
    let skip = sum(2, distance)?;
    let block = block_piece(alloc, reading, start, body)?;
    let low = put_low(block, items)?;
    if low { Ok(Some(skip)) } else { Ok(None) }
}

/// A conditional form, given what was read of its second side, if it was: how many bytes are passed then.
fn choice_made(
    alloc: Global,
    jump: Jump,
    first: Stack,
    second: Option<Stack>,
    items: &mut Stack,
) -> Result<Option<usize>, AllocError>
    ensures { Passes result items.new (choice_made_by jump (stack_view first.items) (stack_if second)
        (stack_view items.old.items)) }
{
    let Some(other) = second else {
        return Ok(None);
    };
    let skip = sum(jump.distance, jump.end)?;
    let made = chosen(alloc, jump.on, first, other, items)?;
    if made { Ok(Some(skip)) } else { Ok(None) }
}

/// A loop whose body ends with a jump back, if its condition lies on the stack: how many bytes are passed then.
fn repeats(
    alloc: Global,
    jump: Jump,
    next: usize,
    body: Stack,
    items: &mut Stack,
) -> Result<Option<usize>, AllocError>
    ensures { Passes result items.new (repeats_by jump next (stack_view body.items)
        (stack_view items.old.items)) }
{
    let at = sum(next, jump.distance)?.saturating_sub(jump.end);
    let skip = sum(jump.distance, 1)?;
    let made = looped(alloc, jump.on, at, body, items)?;
    if made { Ok(Some(skip)) } else { Ok(None) }
}

/// A block, behind the active context and the count of its arguments.
#[cycle(regions)]
fn makes_block(
    alloc: Global,
    reading: Reading<'_>,
    depth: usize,
    spot: Spot<'_>,
    items: &mut Stack,
) -> Result<Option<usize>, AllocError>
    requires { AreSpaced spot.rest.now }
    ensures { Passes result items.new (makes_block_by reading.entry depth spot.entry.next
        (steps_in spot.entry.rest.now) (stack_view items.old.items)) }
{
    let Some(start) = block_start(items)? else {
        return Ok(None);
    };
    let Some((distance, inside)) = passed(spot.rest) else {
        return Ok(None);
    };
    let at = sum(spot.next, 2)?;
    let made = region_in(alloc, reading, depth, at, front(distance, inside))?;
    block_made(alloc, reading, start, distance, made, items)
}

/// A conditional form whose first side passes the second one.
#[cycle(regions)]
fn chooses(
    alloc: Global,
    reading: Reading<'_>,
    depth: usize,
    jump: Jump,
    spot: Spot<'_>,
    first: Stack,
    items: &mut Stack,
) -> Result<Option<usize>, AllocError>
    requires { AreSpaced spot.rest.now }
    ensures { Passes result items.new (decided_by reading.entry depth jump.on jump.distance spot.entry
        (over jump.end ∷ stack_view first.items) (stack_view items.old.items)) }
{
    let at = sum(spot.next, jump.distance)?;
    let steps = front(jump.end, behind(jump.distance, spot.rest));
    let second = region_in(alloc, reading, depth, at, steps)?;
    choice_made(alloc, jump, first, second, items)
}

/// A form, given what was read of its first side or of a loop's body.
#[cycle(regions)]
fn decided(
    alloc: Global,
    reading: Reading<'_>,
    depth: usize,
    on: bool,
    distance: usize,
    spot: Spot<'_>,
    first: Stack,
    items: &mut Stack,
) -> Result<Option<usize>, AllocError>
    requires { AreSpaced spot.rest.now }
    ensures { Passes result items.new (decided_by reading.entry depth on distance spot.entry
        (stack_view first.items) (stack_view items.old.items)) }
{
    let mut first = first;
    let Some(last) = first.pop() else {
        return Ok(None);
    };
    match last {
        Item::Over(end) => {
            let jump = Jump { on, distance, end };
            chooses(alloc, reading, depth, jump, spot, first, items)
        }
        Item::Back(end) => {
            let jump = Jump { on, distance, end };
            repeats(alloc, jump, spot.next, first, items)
        }
        _ => Ok(None),
    }
}

/// A jump on a boolean: the first side of a form, or the body of a loop, stands behind it.
#[cycle(regions)]
fn decides(
    alloc: Global,
    reading: Reading<'_>,
    depth: usize,
    on: bool,
    distance: usize,
    spot: Spot<'_>,
    items: &mut Stack,
) -> Result<Option<usize>, AllocError>
    requires { AreSpaced spot.rest.now }
    ensures { Passes result items.new (act_by reading.entry depth (JumpIf on distance) spot.entry.at
        spot.entry.next (steps_in spot.entry.rest.now) (stack_view items.old.items)) }
{
    let steps = front(distance, spot.rest);
    let Some(first) = region_in(alloc, reading, depth, spot.next, steps)? else {
        return Ok(None);
    };
    decided(alloc, reading, depth, on, distance, spot, first, items)
}

/// One instruction: how many bytes behind it are passed then.
#[cycle(regions)]
fn act(
    alloc: Global,
    reading: Reading<'_>,
    depth: usize,
    step: Instruction,
    spot: Spot<'_>,
    items: &mut Stack,
) -> Result<Option<usize>, AllocError>
    requires { AreSpaced spot.rest.now }
    ensures { Passes result items.new (act_by reading.entry depth step spot.entry.at spot.entry.next
        (steps_in spot.entry.rest.now) (stack_view items.old.items)) }
{
    match step {
        Instruction::JumpIf(on, distance) => decides(
            alloc, reading, depth, on, distance, spot, items,
        ),
        Instruction::SendSpecial(code) => {
            let copies = code == BLOCK_COPY;
            if copies {
                makes_block(alloc, reading, depth, spot, items)
            } else {
                acts_plainly(alloc, reading, step, spot.at, items)
            }
        }
        _ => acts_plainly(alloc, reading, step, spot.at, items),
    }
}

/// The items of a region at a place, which holds regions in one another up to a depth.
#[cycle(regions)]
fn region_in(
    alloc: Global,
    reading: Reading<'_>,
    depth: usize,
    at: usize,
    steps: &[Located],
) -> Result<Option<Stack>, AllocError>
    requires { AreSpaced steps.now }
    ensures { IfOk result (λ items. stack_if items ≡ region_by reading.entry depth at (steps_in steps.now)) }
{
    if depth == 0 {
        return Ok(None);
    }
    let mut items: Stack = Vec::new(alloc);
    let start = first_place(steps);
    let mut rest = steps;
    while let Some((first, later)) = split(rest) {
        let place = sum(at, first.at.saturating_sub(start))?;
        let next = sum(place, size_of(first.step))?;
        let spot = Spot {
            at: place,
            next,
            rest: later,
        };
        let Some(skip) = act(alloc, reading, depth - 1, first.step, spot, &mut items)? else {
            return Ok(None);
        };
        rest = behind(skip, later);
    }
    Ok(Some(items))
}

/// The items of a region at a place, which holds regions in one another up to a depth.
pub fn region(
    alloc: Global,
    reading: Reading<'_>,
    depth: usize,
    at: usize,
    steps: &[Instruction],
) -> Result<Option<Stack>, AllocError>
    ensures { IfOk result (λ items. stack_if items ≡ region_by reading.entry depth at steps.now) }
{
    let located = locate(alloc, at, steps)?;
    region_in(alloc, reading, depth, at, &located)
}
