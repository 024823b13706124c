// Laws of the start.
ghost use Rattle.st_kernel.specs.inside.Found.{FoundBegins, MissingStart};
ghost use Rattle.st_kernel.specs.inside.Lost.{LostStart, BareStart};

/// A start that is found begins a process, or there is no room for it: in a whole memory with a scheduler no step of it dies. So cause 6
/// says that the start isn't found.
pub fn found_starts_begin()
    ensures begins { FoundBegins }
    ensures missing { MissingStart }
{}

/// With the system's installer each text has a scheduler when its start comes. So where the cause is 6, the start isn't found in the
/// image as it is then, or there is no image and no method.
pub fn lost_starts_are_missing()
    ensures lost { LostStart }
    ensures bare { BareStart }
{}
