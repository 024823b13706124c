//! Laws of the definitions.

ghost use Rattle.st_changes.specs.{Condensing.Condenses, Last.{IsLastText, IsNowhere}};
ghost use Rattle.st_changes.specs.Lists.{StandsAt, Lists, RefusesChanges};
ghost use Rattle.std.specs.Prelude.{◌≡◌, ◌++◌, ◌∷◌, [], ℕ, List, Bool, length, All};
ghost use Rattle.st_store.specs.{declared.root.Root.Root, declared.fault.StorePlace.TheVariants.Changes};
ghost use Rattle.st_store.specs.declared.fault.StoreFault.TheVariants.{NotAStore};
ghost use Rattle.st_chunk.specs.Definitions.{Definition, IsDefinition, entry, entries};

/// The entries of any definitions list these and no others, and so do they with one entry more.
pub fn one_list()
    ensures lists { (ds : List Definition) (base : ℕ) → All IsDefinition ds → StandsAt ds base
        → Lists (entries ds) base ds }
    ensures one { (bytes : List ℕ) (base : ℕ) (ds es : List Definition) → Lists bytes base ds
        → Lists bytes base es → ds ≡ es }
    ensures lists_more { (bytes : List ℕ) (base : ℕ) (ds : List Definition) (d : Definition)
        → Lists bytes base ds → IsDefinition d → Lists (bytes ++ entry d) base (ds ++ d ∷ []) }
{}

/// Where bytes are damaged is determined: it is one place. And they aren't where they list definitions up to the root's
/// length.
pub fn one_damage()
    ensures place { (bytes : List ℕ) (root : Root) (at other : ℕ)
        → RefusesChanges bytes root (NotAStore (Changes at))
        → RefusesChanges bytes root (NotAStore (Changes other)) → at ≡ other }
    ensures none { (bytes : List ℕ) (root : Root) (at : ℕ) (ds : List Definition) → Lists bytes root.base ds
        → root.length ≡ length bytes → RefusesChanges bytes root (NotAStore (Changes at)) → ⊥ }
{}

/// Where a list is condensed, the text of the last definition of a class, a side and a selector is as before, and so is that there
/// is none.
pub fn condensing_keeps_last()
    ensures last { (ds : List Definition) (base : ℕ) (z : Condenses ds base) (c : List ℕ) (m : Bool)
        (s t : List ℕ)
        → IsLastText ds c m s t → IsLastText (z.kept ++ z.behind) c m s t }
    ensures nowhere { (ds : List Definition) (base : ℕ) (z : Condenses ds base) (c : List ℕ) (m : Bool)
        (s : List ℕ)
        → IsNowhere ds c m s → IsNowhere (z.kept ++ z.behind) c m s }
{}
