ghost use Rattle.std.specs.Prelude.{◌≡◌, ◌≤◌};
ghost use Rattle.st_model.specs.Values.{value};
ghost use Rattle.st_memory.specs.{inside.Copied.{CanCopyFields, CopiesFields}, inside.Places.KeepsPlaces};

use crate::memory::Memory;
use st_model::Oop;

/// Copies n fields of an object of kind Pointers into those of another, the lowest first.
fn copy_from_first<M: Memory>(m: &mut M, n: u32, source: Oop, from: u32, target: Oop, to: u32)
    requires fields { CanCopyFields (M.view m.old).objects (value source) from (value target) to n }
    requires down { value source ≡ value target → to ≤ from }
    ensures copied { CopiesFields (M.view m.old) (M.view m.new) (value source) from (value target) to n }
    ensures places { KeepsPlaces (M.stands m.old) (M.stands m.new) }
{
    for done in 0..n {
        let x = m.pointer(source, from + done);
        m.set_pointer(target, to + done, x);
    }
}

/// The same, the highest first.
fn copy_from_last<M: Memory>(m: &mut M, n: u32, source: Oop, from: u32, target: Oop, to: u32)
    requires fields { CanCopyFields (M.view m.old).objects (value source) from (value target) to n }
    requires up { value source ≡ value target → from ≤ to }
    ensures copied { CopiesFields (M.view m.old) (M.view m.new) (value source) from (value target) to n }
    ensures places { KeepsPlaces (M.stands m.old) (M.stands m.new) }
{
    let mut left = n;
    while left > 0 {
        left -= 1;
        let x = m.pointer(source, from + left);
        m.set_pointer(target, to + left, x);
    }
}

/// Copies n fields of an object of kind Pointers into those of another, as if all of them were read first.
pub fn copy_fields<M: Memory>(m: &mut M, n: u32, source: Oop, from: u32, target: Oop, to: u32)
    requires { CanCopyFields (M.view m.old).objects (value source) from (value target) to n }
    ensures copied { CopiesFields (M.view m.old) (M.view m.new) (value source) from (value target) to n }
    ensures places { KeepsPlaces (M.stands m.old) (M.stands m.new) }
{
    if from < to {
        copy_from_last(m, n, source, from, target, to);
    } else {
        copy_from_first(m, n, source, from, target, to);
    }
}
