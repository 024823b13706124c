//! The law between the book's machine and the code's: a machine over a table shows, step by step and run by run, what the machine
//! over births does, in which nothing is ever reclaimed or moved.
#![tactic(auto)]

ghost use Rattle.st_model.specs.Table.{bounded_table};
ghost use Rattle.st_model.specs.Bytecodes.{step};
ghost use Rattle.st_model.specs.inside.Foreseen.{KeepsClosed};
ghost use Rattle.st_simulation.specs.inside.Laws.{ApartForetells, BoundedDoes, StepMissesNothing, SwitchMissesNothing, StoreMissesNothing, RunsShow, RunsCount, StartShows, EventShows, SaveShows, KeptAreWords, SaysBytes, PrimitivesKeepClosed, PrimitivesSayTop};

/// The first law that joins the book's machine to the code's: a step that is foreseen over a table of 32768 places, where
/// new objects stand apart, ends as the step over the births that the table shows: it dies of the same cause, or goes on with
/// as many entries and words used.
pub fn apart_foretells_births()
    ensures { ApartForetells }
{}

/// The second law: where a step over the births goes on and stays within the capacities, the step over the bounded table
/// does too, and after reclaiming shows what the births keep.
pub fn bounded_does_as_births()
    ensures { BoundedDoes }
{}

/// What the bounded table's step keeps was there: it leaves a table closed in which nothing dangles. So does a primitive by its
/// number, and what this says is the word at the top of the stack.
pub fn bounded_stays_closed()
    ensures bytecode { KeepsClosed (step bounded_table) }
    ensures primitive { PrimitivesKeepClosed }
    ensures says { PrimitivesSayTop }
{}

/// A step over births that some table shows meets no name without an object: whatever object stood for such a name, it would
/// do the same. So it is with a bytecode, with what comes before one, and with what stores a process.
pub fn step_misses_nothing()
    ensures bytecode { StepMissesNothing }
    ensures switch { SwitchMissesNothing }
    ensures store { StoreMissesNothing }
{}

/// So a running machine, which foresees each step and does it where there is room, shows the births after any number of
/// cycles, or dies of the cause of which they die; and as many cycles are finished. It begins with a table of 32768 places in
/// which nothing dangles, and has a capacity of at most 32767 entries.
pub fn table_shows_births()
    ensures ends { RunsShow }
    ensures count { RunsCount }
{}

/// The machine begins over births as it does over the table that they are raised from: the registers cannot be fetched, of one
/// cause, or the table shows the births with the registers that are fetched, and nothing dangles in it.
pub fn start_shows_births()
    ensures { StartShows }
{}

/// What an event makes of a table shows what it makes of the births that the table shows; or neither takes it.
pub fn event_shows_births()
    ensures { EventShows }
{}

/// Where a running machine stores its process and drops what nothing supports, its table shows what the births are saved as, or
/// both die of one cause.
pub fn save_shows_births()
    ensures { SaveShows }
{}

/// A SmallInteger in a kept object over births has at most 15 bits, as in the table that shows it.
pub fn kept_are_words()
    ensures { KeptAreWords }
{}

/// What a cycle says is an object of kind Bytes, so a line `say` has its bytes.
pub fn what_is_said_is_bytes()
    ensures { SaysBytes }
{}
