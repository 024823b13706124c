//! Places in 8 bits.

ghost use Rattle.std.specs.Prelude.{◌≡◌, ◌<◌};
ghost use Rattle.st_meaning.specs.inside.Values.{variable_of, IsShort};

use crate::deed::Variable;
use st_emit::InstructionOperand;

/// A number in 8 bits. A greater one, as no method without faults has, becomes the greatest.
pub fn byte_of(n: usize) -> u8
    ensures { n < 256 → result ≡ n }
{
    if n < 256 { n as u8 } else { u8::MAX }
}

/// The variable at a place. A literal is none, and code that stores into one is no compiler's.
pub fn variable_of(place: InstructionOperand) -> Variable
    ensures { IsShort place → result ≡ variable_of place }
{
    match place {
        InstructionOperand::Field(n) => Variable::Field(byte_of(n)),
        InstructionOperand::Temporary(n) => Variable::Temporary(byte_of(n)),
        InstructionOperand::Literal(n) | InstructionOperand::Shared(n) => Variable::Shared(byte_of(
            n,
        )),
    }
}
