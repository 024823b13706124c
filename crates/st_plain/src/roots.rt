ghost use Rattle.st_counted.specs.inside.Held.{held_of};
ghost use Rattle.st_plain.specs.inside.Held.{names_held};
ghost use Rattle.st_plain.specs.inside.Marked.{AddsMarks};

use crate::marks::Marks;
use st_counted::Roots;
use st_model::Oop;

/// Marks nil, the devices and the pending signals, and then the registers.
pub fn mark_roots(roots: &Roots, marks: &mut Marks)
    ensures { AddsMarks marks.old.names.items marks.new.names.items (names_held (held_of roots.now)) }
{
    let p = &roots.places;
    marks.mark(Oop::NIL);
    marks.mark_all(&roots.pending[..roots.pending_end as usize]);
    marks.mark_all(&[
        p.new_process,
        p.display,
        p.cursor,
        p.input_semaphore,
        p.timer,
        p.low_space,
    ]);
    marks.mark_all(&[p.active, p.home, p.method, p.receiver]);
}
