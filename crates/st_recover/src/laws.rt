//! Laws of the definitions.

ghost use Rattle.std.specs.Prelude.{◌≡◌, ℕ, Bool, List};
ghost use Rattle.st_host.specs.Files.{Files};
ghost use Rattle.st_protocol.specs.Installing.{Install};
ghost use Rattle.st_changes.specs.Last.{IsNowhere, IsLastText};
ghost use Rattle.st_recover.specs.{Commits.{Commit, OpensAs, all_of}, Condensed.{IsCondensed, ReplaysAlike}};
ghost use Rattle.st_recover.specs.{Openings.{OpeningKeeps, Reopens}, Replays.Replayed};

use st_host::Host;

/// Files of a name open as one commit at most.
pub fn one_commit()
    ensures { (name : List ℕ) (c d : Commit) (f : Files) → OpensAs name c f → OpensAs name d f → c ≡ d }
{}

/// What files open as can be begun with again: its image is read, and its definitions are installed, or lost.
pub fn opened_reopens()
    ensures { (install : Install) (name : List ℕ) (c : Commit) (f : Files)
        → OpensAs name c f → (r : Replayed) × Reopens install c r }
{}

/// While a store is opened, and behind that, also where it failed, files open as one of the commits as which what a stop could leave
/// before opened: as the same commit where that was one.
pub fn opening_keeps<H: Host>()
    ensures { OpeningKeeps H.Host.own }
{}

/// What is condensed opens as the same state, with as many definitions installed and lost, and the last text of each class, side and
/// selector is the same, or there is none as before. It is determined.
pub fn condensing_keeps()
    ensures opens { (install : Install) (c d : Commit) (r : Replayed) → IsCondensed c d → Reopens install c r
        → (q : Replayed) × Reopens install d q × ReplaysAlike r q }
    ensures last { (c d : Commit) (class : List ℕ) (meta : Bool) (selector text : List ℕ) → IsCondensed c d
        → IsLastText (all_of c) class meta selector text → IsLastText (all_of d) class meta selector text }
    ensures nowhere { (c d : Commit) (class : List ℕ) (meta : Bool) (selector : List ℕ) → IsCondensed c d
        → IsNowhere (all_of c) class meta selector → IsNowhere (all_of d) class meta selector }
    ensures one { (c d e : Commit) → IsCondensed c d → IsCondensed c e → d ≡ e }
{}
