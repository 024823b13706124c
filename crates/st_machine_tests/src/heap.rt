//! Where the blocks of a heap stand, which no clause says.

ghost use Rattle.std.specs.Prelude.{◌≡◌, ◌≤◌, IfOk, IfSome, Some};
ghost use Rattle.st_table.specs.declared.entry.Entry.{Entry as TableEntry};
ghost use Rattle.st_table.specs.inside.Entries.{entry_of};
ghost use Rattle.st_heap.specs.inside.Blocks.{IsTied, IsBlock};
ghost use Rattle.st_heap.specs.inside.Heaps.{blocks_of};

use st_heap::Heap;
use st_model::{Kind, Oop};
use st_table::{Entry, Table};
use std::alloc::{AllocError, Global};
use std::process::Abort;
use std::test::Fail;

/// An empty heap of so many words, and a table of ten entries.
fn empty(alloc: Global, words: u32) -> Result<(Heap, Table), AllocError>
    ensures { IfOk result (λ p. IsTied p.1 (blocks_of p.0)) }
{
    let heap = Heap::new(alloc, words)?;
    let t = Table::new(alloc, 10)?;
    Ok((heap, t))
}

/// Gives the least free pointer a block of n words, where they fit.
fn make(heap: &mut Heap, t: &mut Table, n: u32) -> Option<Oop>
    requires size { 2 ≤ n }
    requires tied { IsTied t.old (blocks_of heap.old) }
    ensures tied { IsTied t.new (blocks_of heap.new) }
    ensures block { IfSome result (λ o. (e : TableEntry) → entry_of t.new o ≡ Some e
        → IsBlock (blocks_of heap.new) e.at n) }
{
    let o = t.least_free()?;
    if !heap.fits(n) {
        return None;
    }
    let at = heap.take(t, o, n);
    let entry = Entry {
        at,
        kind: Kind::Words,
        odd: false,
        next: Oop::NIL,
        before: Oop::NIL,
    };
    t.take_entry(o, entry);
    Some(o)
}

/// Gives a pointer a block of n words and takes both away again, so that a hole is there.
fn leave_hole(heap: &mut Heap, t: &mut Table, n: u32) -> Option<Oop>
    requires size { 2 ≤ n }
    requires tied { IsTied t.old (blocks_of heap.old) }
    ensures { IsTied t.new (blocks_of heap.new) }
{
    let o = make(heap, t, n)?;
    if t.has(o) {
        heap.give(t.entry(o).at, n);
        t.free_entry(o);
    }
    Some(o)
}

/// A block or a hole of so many words is made, for this pointer.
#[derive(Clone, Copy)]
enum Call {
    Make(u32, u16),
    LeaveHole(u32, u16),
    /// A pointer's block has this place.
    Place(u16, u32),
    /// Whether so many words fit.
    Fits(u32, bool),
}

/// No hole has 18 words, but three have as many together: two blocks move.
const CLOSED_UP: &[Call] = &[
    Call::Make(78, 2),
    Call::LeaveHole(5, 4),
    Call::Make(6, 4),
    Call::LeaveHole(7, 6),
    Call::Make(6, 6),
    Call::LeaveHole(6, 8),
    Call::Fits(18, true),
    Call::Fits(19, false),
    Call::Make(18, 8),
    Call::Place(4, 78),
    Call::Place(6, 84),
    Call::Place(8, 90),
];

/// A hole of just the length is taken before the words beyond all blocks.
const TAKEN_AGAIN: &[Call] = &[
    Call::Make(20, 2),
    Call::LeaveHole(20, 4),
    Call::Make(10, 4),
    Call::Place(4, 40),
    Call::Make(20, 6),
    Call::Place(6, 20),
];

/// Calls a heap, and tells whether it answers what is wanted.
fn answers(heap: &mut Heap, t: &mut Table, call: &Call) -> bool
    requires { IsTied t.old (blocks_of heap.old) }
    ensures { IsTied t.new (blocks_of heap.new) }
{
    match *call {
        Call::Make(n, o) => n >= 2 && make(heap, t, n) == Some(Oop(o)),
        Call::LeaveHole(n, o) => n >= 2 && leave_hole(heap, t, n) == Some(Oop(o)),
        Call::Place(o, at) => t.has(Oop(o)) && t.entry(Oop(o)).at == at,
        Call::Fits(n, fits) => heap.fits(n) == fits,
    }
}

/// Calls a heap, which answers what is wanted.
fn check_calls(rt: &impl Abort, heap: &mut Heap, t: &mut Table, calls: &[Call])
    requires { IsTied t.old (blocks_of heap.old) }
{
    for (number, call) in calls.iter().enumerate() {
        assert!(rt; answers(heap, t, call), "call {number}");
    }
}

/// How many words a heap has, and what is called of it.
const ROWS: &[(u32, &[Call])] = &[(108, CLOSED_UP), (100, TAKEN_AGAIN)];

#[test]
fn blocks_stand_in_holes_and_move(rt: HostRuntime) -> Result<(), Fail> {
    for (words, calls) in ROWS {
        let (mut heap, mut t) = empty(rt.alloc(), *words)?;
        check_calls(&rt, &mut heap, &mut t, calls);
    }
    Ok(())
}
