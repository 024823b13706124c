ghost use Rattle.st_counted.specs.inside.Standing.{StandsInBlocks, CountsReferences};

use crate::memory::CountedMemory;

/// Between calls each object of a memory stands in the block of its entry in one heap, its size word and class word before its body
/// (`stored`). And the count beside it is the number of roots, class words, fields and literals that refer to it, while the list that
/// goes through next and before of the entries holds just the objects whose count is 0 (`counted`). nil is counted too, also where it
/// stands in a place that holds nothing.
pub fn objects_are_stored_and_counted(memory: &CountedMemory)
    ensures stored { StandsInBlocks memory.now.contents }
    ensures counted { CountsReferences memory.now.contents }
{}
