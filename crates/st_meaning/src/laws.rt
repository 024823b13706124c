//! The law that compiled code means its source.

ghost use Rattle.std.specs.Prelude.{◌≡◌, ℕ, List, None};
ghost use Rattle.st_scan.specs.Views.{MethodView};
ghost use Rattle.st_grammar.specs.inside.Meant.{Means};
ghost use Rattle.st_emit.specs.Names.{NamesView};
ghost use Rattle.st_code.specs.Methods.{fault};
ghost use Rattle.st_meaning.specs.inside.Laws.{MeansItsSource, BlocksMeanTheirs};

/// The code of what a text means does what its tree says: its messages, assignments, blocks and return are the same,
/// whatever the messages answer. So it is with each block, from its own first byte on.
pub fn code_means()
    ensures method { (text : List ℕ) (tree : MethodView) (names : NamesView) →
        Means text tree → fault tree names ≡ None → MeansItsSource tree names }
    ensures blocks { (text : List ℕ) (tree : MethodView) (names : NamesView) →
        Means text tree → fault tree names ≡ None → BlocksMeanTheirs tree names }
{}
