//! Laws of what is read of a method: its names call no association twice, and its parts are the same under names that tell no text
//! apart.

ghost use Rattle.std.specs.Prelude.{◌≡◌, List};
ghost use Rattle.st_model.specs.{Values.Value, Table.Table, View.View};
ghost use Rattle.st_emit.specs.Names.{NamesView};
ghost use Rattle.st_scope.specs.inside.Alike.{SeesAlike};
ghost use Rattle.st_parts.specs.{Keys.{HasOneName, names_for}, Parts.{Place, parts_at}};

/// Of the names that a method sees no two mean the value of one association.
pub fn literals_have_one_name()
    ensures { (names : NamesView) (t : Table) (vs : List Value) → HasOneName (names_for t vs names) }
{}

/// Under names that tell no text apart a method is made of the same parts.
pub fn parts_are_alike()
    ensures { (a b : NamesView) → SeesAlike a b → (v : View) (at : Place)
        → parts_at a v at ≡ parts_at b v at }
{}
