//! The law that the reading of code misses no method that the compiler makes.

ghost use Rattle.st_scan.specs.Views.{MethodView};
ghost use Rattle.st_emit.specs.Names.{NamesView};
ghost use Rattle.st_code.specs.Methods.{PartsView};
ghost use Rattle.st_decompile.specs.inside.Alike.{CallAlike};
ghost use Rattle.st_decompile.specs.inside.Answers.{IsSource, IsFound};

/// Of all parts that are the code of what some text means, in a class with whatever names, a tree is read; the printed text
/// of that tree means it, places aside, and what that text means has this code.
pub fn code_is_read_back()
    ensures { (names : NamesView) (p : PartsView) (t : MethodView) → IsSource names p t → IsFound names p }
{}

/// Names that tell no text apart call variables alike, where each association has one name.
pub fn names_call_alike()
    ensures { CallAlike }
{}
