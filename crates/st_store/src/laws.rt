//! Laws of the definitions.

ghost use Rattle.std.specs.Prelude.{◌≡◌, ℕ, List};
ghost use Rattle.st_host.specs.Files.{Files};
ghost use Rattle.st_store.specs.Refusals.{Refuses};
ghost use Rattle.st_store.specs.Stored.{Stored, Opens};
ghost use Rattle.st_store.specs.declared.fault.StorePlace.TheVariants.{Roots};
ghost use Rattle.st_store.specs.declared.fault.StoreFault.TheVariants.{Missing, NotAStore};

/// Why the files of a name are no store's is determined: that there is no roots file, or one place. And they aren't where
/// they open.
pub fn one_refusal()
    ensures place { (name : List ℕ) (f : Files) (at other : ℕ) → Refuses name f (NotAStore (Roots at))
        → Refuses name f (NotAStore (Roots other)) → at ≡ other }
    ensures missing { (name : List ℕ) (f : Files) (at : ℕ) → Refuses name f Missing
        → Refuses name f (NotAStore (Roots at)) → ⊥ }
    ensures opens { (name : List ℕ) (f : Files) (at : ℕ) (c : Stored) → Opens name c f
        → Refuses name f (NotAStore (Roots at)) → ⊥ }
    ensures absent { (name : List ℕ) (f : Files) (c : Stored) → Opens name c f → Refuses name f Missing → ⊥ }
{}
