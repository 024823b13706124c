ghost use Rattle.std.specs.Prelude.{◌≡◌, ◌+◌, ◌-◌, ◌≤◌};
ghost use Rattle.st_model.specs.Values.{value};
ghost use Rattle.st_memory.specs.inside.Copied.{HasBytes, CanCopyBytes, CopiesBytes, with_bytes_of};

use crate::memory::Memory;
use st_model::Oop;

/// How many bytes are copied at once.
const PIECE: u32 = 256;

/// Copies n bytes of an object of kind Bytes into those of another, all of which are read before one is written.
fn copy_piece<M: Memory>(m: &mut M, n: u32, source: Oop, from: u32, target: Oop, to: u32)
    requires source { HasBytes (M.view m.old).objects (value source) from n }
    requires target { HasBytes (M.view m.old).objects (value target) to n }
    requires few { n ≤ 256 }
    ensures objects { (M.view m.new).objects
        ≡ with_bytes_of (M.view m.old).objects (value source) from (value target) to n }
    ensures held { (M.view m.new).held ≡ (M.view m.old).held }
    ensures head { (M.view m.new).head ≡ (M.view m.old).head }
{
    let mut buffer = [0u8; PIECE as usize];
    let piece = &mut buffer[..n as usize];
    m.read_bytes(source, from, piece);
    m.write_bytes(target, to, piece);
}

/// Copies n bytes of an object of kind Bytes into those of another, the lowest first.
fn copy_from_first<M: Memory>(m: &mut M, n: u32, source: Oop, from: u32, target: Oop, to: u32)
    requires bytes { CanCopyBytes (M.view m.old).objects (value source) from (value target) to n }
    requires down { value source ≡ value target → to ≤ from }
    ensures { CopiesBytes (M.view m.old) (M.view m.new) (value source) from (value target) to n }
{
    let mut done = 0;
    while done < n {
        let count = (n - done).min(PIECE);
        copy_piece(m, count, source, from + done, target, to + done);
        done += count;
    }
}

/// The same, the highest first.
fn copy_from_last<M: Memory>(m: &mut M, n: u32, source: Oop, from: u32, target: Oop, to: u32)
    requires bytes { CanCopyBytes (M.view m.old).objects (value source) from (value target) to n }
    requires up { value source ≡ value target → from ≤ to }
    ensures { CopiesBytes (M.view m.old) (M.view m.new) (value source) from (value target) to n }
{
    let mut left = n;
    while left > 0 {
        let count = left.min(PIECE);
        left -= count;
        copy_piece(m, count, source, from + left, target, to + left);
    }
}

/// Copies n bytes of an object of kind Bytes into those of another, as if all of them were read first.
pub fn copy_bytes<M: Memory>(m: &mut M, n: u32, source: Oop, from: u32, target: Oop, to: u32)
    requires { CanCopyBytes (M.view m.old).objects (value source) from (value target) to n }
    ensures { CopiesBytes (M.view m.old) (M.view m.new) (value source) from (value target) to n }
{
    if from < to {
        copy_from_last(m, n, source, from, target, to);
    } else {
        copy_from_first(m, n, source, from, target, to);
    }
}
