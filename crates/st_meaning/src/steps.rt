//! The law that a step of the machine does what a walk says.

ghost use Rattle.st_model.specs.Machine.{ObjectMemory};
ghost use Rattle.st_model.specs.Births.{births};
ghost use Rattle.st_model.specs.Table.{Table, IsTabular};
ghost use Rattle.st_meaning.specs.inside.Machines.{StepWalks, CycleSteps};

/// A step of the book's machine does what the walk's part of its code says, from each state that meets the conditions in
/// `IsWalked` (chapter 28): the receiver's fields, the home's temporaries, the stack and the instruction pointer are what it
/// leaves; what is sent or returned is what it sends or returns. A cycle in which no signal is pending and no process waits is
/// such a step, and then what comes after it. So it is over a table of the code.
pub fn step_walks()
    ensures book { StepWalks births }
    ensures book_cycles { CycleSteps births }
    ensures tables { (m : ObjectMemory Table) → IsTabular m → StepWalks m }
    ensures table_cycles { (m : ObjectMemory Table) → CycleSteps m }
{}
