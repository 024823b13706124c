//! Laws of the definition.

ghost use Rattle.std.specs.Prelude.{ℕ, List};
ghost use Rattle.st_scan.specs.Views.{MethodView};
ghost use Rattle.st_grammar.specs.inside.Meant.{Means};
ghost use Rattle.st_install.specs.inside.Messages.{HaveArguments};

/// In the tree of a text each message with a special selector has as many arguments as the table of special selectors says.
pub fn special_messages()
    ensures { (text : List ℕ) (t : MethodView) → Means text t → HaveArguments t.body }
{}
