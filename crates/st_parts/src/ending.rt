//! How the literals of a method end.

ghost use Rattle.std.specs.Prelude.{◌≡◌, ◌-◌, ◌==◌, ◌&&◌, if◌then◌else◌};
ghost use Rattle.st_parts.specs.Cutting.{code_length};
ghost use Rattle.st_parts.specs.Parts.{is_super_byte, sends_to_super, ending_of};

use crate::cutting::code_length;

/// What stands last among a method's literals: nothing of its own, the association of the method's class, or before that the
/// extension of the header.
#[derive(Clone, Copy)]
pub(crate) enum Ending {
    Plain,
    Owned,
    Extended,
}

/// Whether a bytecode with this first byte sends to super.
fn is_super_byte(first: u8) -> bool
    ensures { result ≡ is_super_byte first }
{
    first == 133 || first == 134
}

/// Whether a byte begins a bytecode that sends to super, if so many bytes of the one before are left.
fn begins_super(left: u32, b: u8) -> bool
    ensures { result ≡ (left == 0) && is_super_byte b }
{
    left == 0 && is_super_byte(b)
}

/// How many bytes of a bytecode are left after a byte.
fn left_after(left: u32, b: u8) -> u32
    ensures { result ≡ if left == 0 then code_length b - 1 else left - 1 }
{
    if left == 0 {
        code_length(u32::from(b)) - 1
    } else {
        left - 1
    }
}

/// Whether one of the bytecodes sends to super. A byte that is no bytecode has a length too, and the last one may be cut off.
fn sends_to_super(bytes: &[u8]) -> bool
    ensures { result ≡ sends_to_super bytes.now }
{
    let mut left = 0;
    for b in bytes {
        if begins_super(left, *b) {
            return true;
        }
        left = left_after(left, *b);
    }
    false
}

/// How the literals of a method end, by its header and its bytes.
pub(crate) fn ending_of(header: u16, bytes: &[u8]) -> Ending
    ensures { result ≡ ending_of header bytes.now }
{
    if header / 8192 == 7 {
        Ending::Extended
    } else if sends_to_super(bytes) {
        Ending::Owned
    } else {
        Ending::Plain
    }
}
