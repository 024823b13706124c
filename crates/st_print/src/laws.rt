//! The law of printing and parsing.

ghost use Rattle.std.specs.Prelude.{ℕ, List};
ghost use Rattle.st_scan.specs.Views.{MethodView};
ghost use Rattle.st_grammar.specs.inside.Meant.{Means};
ghost use Rattle.st_print.specs.inside.Printing.{IsPrintedBack};

/// Where some text means a tree, the printed text of that tree means it too, places aside.
pub fn print_back()
    ensures { (text : List ℕ) (t : MethodView) → Means text t → IsPrintedBack t }
{}
