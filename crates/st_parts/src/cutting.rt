//! Bytes cut into bytecodes.

ghost use Rattle.std.specs.Prelude.{◌≡◌, ◌≤◌};
ghost use Rattle.st_parts.specs.Cutting.{code_length};

/// How many bytes a bytecode with this first byte has, from 1 to 3.
pub fn code_length(first: u32) -> u32
    ensures length { result ≡ code_length first }
    ensures some { 1 ≤ result }
    ensures few { result ≤ 3 }
{
    match first {
        132 | 134 => 3,
        128..=133 | 160..=175 => 2,
        _ => 1,
    }
}
