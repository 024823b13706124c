ghost use Rattle.std.specs.Prelude.{◌≡◌, ◌<◌, ◌≤◌, true};
ghost use Rattle.st_model.specs.Values.{value};
ghost use Rattle.st_model.specs.Objects.{Object, is_method, first_unit};
ghost use Rattle.st_model.specs.Formed.{IsHeader};
ghost use Rattle.st_model.specs.Methods.{flag_of, temporary_count, is_large, literal_count};
ghost use Rattle.st_method.specs.inside.Headers.{first_byte};

use crate::header::Header;
use st_model::Oop;

/// What a header says of how its method is executed: its upper 3 bits.
#[tactic(auto, using(crate::proofs::Bits::widths))]
pub fn flag(header: Oop) -> u8
    ensures flag { result ≡ flag_of (value header) }
    ensures small { result ≤ 7 }
{
    Header::from(header).flag() as u8
}

/// How many temporary variables a header counts, the arguments included: the next 5 bits.
pub fn temporaries(header: Oop) -> u8
    ensures count { result ≡ temporary_count (value header) }
    ensures small { result < 32 }
{
    Header::from(header).temporaries() as u8
}

/// Whether a header asks for a large context: the bit after them.
pub fn large(header: Oop) -> bool
    ensures { result ≡ is_large (value header) }
{
    Header::from(header).is_large()
}

/// How many literals a header counts: the lower 6 bits.
pub fn literals(header: Oop) -> u32
    ensures count { result ≡ literal_count (value header) }
    ensures small { result < 64 }
{
    Header::from(header).literals()
}

/// The number, from 0, of the first bytecode among the bytes of a method with this header.
#[tactic(auto, using(crate::proofs::Bits::counts))]
pub fn first_byte(header: Oop) -> u32
    ensures byte { result ≡ first_byte (value header) }
    ensures unit { (o : Object) → is_method o.kind ≡ true → IsHeader o 0 (value header)
        → result ≡ first_unit o }
    ensures small { result ≤ 128 }
{
    2 * literals(header) + 2
}
