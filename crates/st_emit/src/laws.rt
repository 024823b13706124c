//! Laws of the definitions.

ghost use Rattle.std.specs.Prelude.{◌≡◌, ℕ, List};
ghost use Rattle.st_emit.specs.declared.instruction.Instruction.{Instruction as AStep};
ghost use Rattle.st_emit.specs.inside.Laws.{HasItsSize, HaveTheirSize, HasItsArguments};

/// Instructions have as many bytes as their sizes say, by which jumps go.
pub fn sizes_of_bytes()
    ensures each { (step : AStep) → HasItsSize step }
    ensures all { (steps : List AStep) → HaveTheirSize steps }
{}

/// The table of special selectors has each with as many arguments as its text says.
pub fn special_arguments()
    ensures { (text : List ℕ) → HasItsArguments text }
{}
