//! Laws of the definition.

ghost use Rattle.std.specs.Prelude.{◌≡◌, ℕ, List, Result};
ghost use Rattle.st_scan.specs.{declared.fault.Fault.Fault, Views.MethodView};
ghost use Rattle.st_grammar.specs.inside.Meant.{Means};
ghost use Rattle.st_grammar.specs.inside.Laws.{HasOneFault, HasNoFault};
ghost use Rattle.st_grammar.specs.inside.Formed.{IsWellFormed};
ghost use Rattle.st_grammar.specs.inside.SyntaxMeant.{IsSyntax};
ghost use Rattle.st_grammar.specs.Syntax.{syntax};

/// A text has at most one tree.
pub fn one_tree()
    ensures { (text : List ℕ) (t u : MethodView) → Means text t → Means text u → t ≡ u }
{}

/// A text has at most one first fault: its place and its cause are determined. And none where it means a tree.
pub fn one_fault()
    ensures one { (text : List ℕ) → HasOneFault text }
    ensures none { (text : List ℕ) (t : MethodView) → Means text t → HasNoFault text }
{}

/// `syntax` is the tree that a text means, or its first fault, and nothing else is.
pub fn one_syntax()
    ensures is { (text : List ℕ) → IsSyntax text (syntax text) }
    ensures only { (text : List ℕ) (r : Result MethodView Fault) → IsSyntax text r → r ≡ syntax text }
{}

/// What a text means is well-formed: its names are names, each selector fits its arguments, no number is too great, and
/// `super`, `^`, nil, false and true stand where they may.
pub fn formed_tree()
    ensures { (text : List ℕ) (t : MethodView) → Means text t → IsWellFormed t }
{}
