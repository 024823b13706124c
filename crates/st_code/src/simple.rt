//! Methods that do no more than to return their receiver, or a variable of it.

ghost use Rattle.std.specs.Prelude.{◌≡◌, ◌≤◌};
ghost use Rattle.st_scan.specs.Views.{method_view};
ghost use Rattle.st_code.specs.Methods.{simple_flag, flag_of, count_of};
ghost use Rattle.st_code.specs.inside.Simple.{simple_by};

use st_emit::{Constant, Instruction, InstructionOperand};
use st_scan::MethodTree;

/// What a simple method returns: its receiver, or a variable of the receiver by its number.
#[derive(Clone, Copy)]
pub enum Simple {
    Itself,
    ItsField(usize),
}

/// What a method with these instructions returns, if it does no more.
pub fn simple_by(steps: &[Instruction]) -> Option<Simple>
    ensures { result ≡ simple_by steps.now }
{
    match steps {
        [Instruction::ReturnConstant(Constant::Receiver)] => Some(Simple::Itself),
        [Instruction::Push(InstructionOperand::Field(n)), _] => Some(Simple::ItsField(*n)),
        _ => None,
    }
}

/// The flag of a method that is simple, or not.
pub fn flag_of(t: &MethodTree, simple: Option<Simple>) -> u16
    ensures flag { result ≡ flag_of (method_view t.now) simple }
    ensures small { result ≤ 7 }
{
    let arguments = t.arguments.len();
    if t.primitive.is_some() || arguments > 4 {
        return 7;
    }
    if arguments > 0 || !t.temporaries.is_empty() {
        return arguments as u16;
    }
    simple_flag(simple)
}

/// What stands in a header in place of a temporary count.
pub fn count_of(t: &MethodTree, simple: Option<Simple>, variables: usize) -> usize
    requires { variables ≤ 31 }
    ensures count { result ≡ count_of (flag_of (method_view t.now) simple) simple variables }
    ensures small { result ≤ 31 }
{
    if flag_of(t, simple) != 6 {
        return variables;
    }
    match simple {
        Some(Simple::ItsField(n)) => n,
        _ => 0,
    }
}

/// The flag of a method with no argument and no temporary.
fn simple_flag(simple: Option<Simple>) -> u16
    ensures { result ≡ simple_flag simple }
{
    match simple {
        Some(Simple::Itself) => 5,
        Some(Simple::ItsField(n)) if n < 32 => 6,
        _ => 0,
    }
}
